//! The gate of the tests. It notes what it is told of, and holds who comes by a rule.

use crew::Gate;
use std::sync::atomic::AtomicU64;
use std::sync::atomic::Ordering::SeqCst;
use std::thread;

/// More turns than any thread of these tests needs: so many a gate yields before it gives up.
const TURNS: u64 = 10_000_000;

/// For how many turns who comes stays, where the rule is that they stay.
const STAY: u64 = 1_000;

/// Whether the number is reached within the turns.
fn reaches(count: &AtomicU64, number: u64) -> bool {
    for _ in 0..TURNS {
        if count.load(SeqCst) >= number {
            return true;
        }
        thread::yield_now();
    }
    false
}

/// Stays for a while.
fn stay() {
    for _ in 0..STAY {
        thread::yield_now();
    }
}

/// Whom a gate holds, and until when.
#[derive(Clone, Copy)]
pub(crate) enum Hold {
    /// Nobody.
    Nobody,
    /// Each worker at its piece and each viewer, for a while: one that nobody waits for has then come and not left.
    Each,
    /// The work at place 0, until that at place 1 has begun, and the trie of the first run of rows, until that of the run
    /// at the middle has begun, if that is not 0. Only another thread can let them go on.
    First { middle: u64 },
    /// The first reports, until so many have come and this edition is published.
    Reports { many: u64, edition: u64 },
    /// A viewer of the edition without rows, until the first is published.
    Viewer,
    /// The same; the keeper after each publish, until a viewer has its edition; and each report, until the second edition is
    /// published.
    Turns,
}

/// Two threads meet where the one at place 0, which waits, saw another come.
#[derive(Drop)]
pub(crate) struct Meeting {
    came: AtomicU64,
    met: AtomicU64,
}

impl Meeting {
    fn new() -> Meeting {
        Meeting {
            came: AtomicU64::new(0),
            met: AtomicU64::new(0),
        }
    }

    pub(crate) fn is_over(&self) -> bool {
        self.met.load(SeqCst) == 1
    }

    fn at(&self, place: u64, other: u64) {
        if place == other {
            self.came.store(1, SeqCst);
        }
        if place == 0 && reaches(&self.came, 1) {
            self.met.store(1, SeqCst);
        }
    }
}

/// How often the gate was told of a place, and the sum of the places, each counted from 1.
#[derive(Drop)]
pub(crate) struct Places {
    count: AtomicU64,
    sum: AtomicU64,
}

impl Places {
    fn new() -> Places {
        Places {
            count: AtomicU64::new(0),
            sum: AtomicU64::new(0),
        }
    }

    /// How often it was told before.
    fn add(&self, place: u64) -> u64 {
        self.sum.fetch_add(place.saturating_add(1), SeqCst);
        self.count.fetch_add(1, SeqCst)
    }

    pub(crate) fn count(&self) -> u64 {
        self.count.load(SeqCst)
    }

    pub(crate) fn sum(&self) -> u64 {
        self.sum.load(SeqCst)
    }
}

/// What the gate was told of, and where threads met.
#[derive(Drop)]
pub(crate) struct Watch {
    hold: Hold,
    pub(crate) entered: Places,
    pub(crate) left: Places,
    pub(crate) reading: Places,
    pub(crate) merging: Places,
    pub(crate) entering_met: Meeting,
    pub(crate) reading_met: Meeting,
    pub(crate) merging_met: Meeting,
    most: AtomicU64,
    columns: AtomicU64,
    published: AtomicU64,
    editions: AtomicU64,
    seen: AtomicU64,
    came: AtomicU64,
    gone: AtomicU64,
    late: AtomicU64,
}

impl Watch {
    pub(crate) fn new(hold: Hold) -> Watch {
        Watch {
            hold,
            entered: Places::new(),
            left: Places::new(),
            reading: Places::new(),
            merging: Places::new(),
            entering_met: Meeting::new(),
            reading_met: Meeting::new(),
            merging_met: Meeting::new(),
            most: AtomicU64::new(0),
            columns: AtomicU64::new(0),
            published: AtomicU64::new(0),
            editions: AtomicU64::new(0),
            seen: AtomicU64::new(0),
            came: AtomicU64::new(0),
            gone: AtomicU64::new(0),
            late: AtomicU64::new(0),
        }
    }

    /// Whether each piece that was entered was left.
    pub(crate) fn is_empty(&self) -> bool {
        self.entered.sum() == self.left.sum()
    }

    /// At how many pieces workers were at the same time, at most.
    pub(crate) fn most(&self) -> u64 {
        self.most.load(SeqCst)
    }

    /// How many columns of pieces were laid out.
    pub(crate) fn columns(&self) -> u64 {
        self.columns.load(SeqCst)
    }

    /// The last edition that was published.
    pub(crate) fn published(&self) -> u64 {
        self.published.load(SeqCst)
    }

    /// The editions that were published, in order, each a digit.
    pub(crate) fn editions(&self) -> u64 {
        self.editions.load(SeqCst)
    }

    /// The sums of the numbers of the viewers that came, and of those that went on.
    pub(crate) fn viewers(&self) -> (u64, u64) {
        (self.came.load(SeqCst), self.gone.load(SeqCst))
    }

    /// How many waited in vain.
    pub(crate) fn late(&self) -> u64 {
        self.late.load(SeqCst)
    }

    fn wait(&self, count: &AtomicU64, number: u64) {
        if !reaches(count, number) {
            self.late.fetch_add(1, SeqCst);
        }
    }
}

impl Gate for Watch {
    fn entered(&self, piece: u64) {
        let before = self.entered.add(piece);
        let there = before.wrapping_add(1).wrapping_sub(self.left.count());
        self.most.fetch_max(there, SeqCst);
        match self.hold {
            Hold::Each => stay(),
            Hold::First { .. } => self.entering_met.at(piece, 1),
            Hold::Reports { many, edition } => {
                if before < many {
                    self.wait(&self.entered.count, many);
                    self.wait(&self.published, edition);
                }
            }
            Hold::Turns => self.wait(&self.published, 2),
            _ => {}
        }
    }

    fn left(&self, piece: u64) {
        self.left.add(piece);
    }

    fn reading(&self, place: u64) {
        self.reading.add(place);
        if let Hold::First { .. } = self.hold {
            self.reading_met.at(place, 1);
        }
    }

    fn merging(&self, place: u64) {
        self.merging.add(place);
        if let Hold::First { middle } = self.hold {
            self.merging_met.at(place, middle);
        }
    }

    fn laid_out(&self, _piece: u64, columns: u64) {
        self.columns.fetch_add(columns, SeqCst);
    }

    fn published(&self, edition: u64, _rows: u64) {
        let before = self.editions.load(SeqCst);
        self.editions
            .store(before.wrapping_mul(10).wrapping_add(edition), SeqCst);
        self.published.store(edition, SeqCst);
        if let Hold::Turns = self.hold {
            self.wait(&self.seen, edition);
        }
    }

    fn viewing(&self, viewer: u64, edition: u64) {
        self.came.fetch_add(viewer, SeqCst);
        self.seen.store(edition, SeqCst);
        match self.hold {
            Hold::Each => stay(),
            Hold::Viewer | Hold::Turns => {
                if edition == 0 {
                    self.wait(&self.published, 1);
                }
            }
            _ => {}
        }
        self.gone.fetch_add(viewer, SeqCst);
    }
}
