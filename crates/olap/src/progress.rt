//! Tells how far a run is.

use crate::tell::Renew;
use crew::Gate;
use std::sync::atomic::AtomicU64;
use std::sync::atomic::Ordering::SeqCst;
use std::time::{Clock, Instant};

/// So many milliseconds pass, at least, before a line is written anew.
const GAP: u64 = 100;

/// A gate that tells of each report that a line asks for, once it has its text: the line, the edition, how many rows that has,
/// how many groups, and the seconds since the run began. Before that it tells of each part that was read; or where a line may
/// be written anew, that line says how many parts, records and pieces were gone over, and which edition is the last one.
#[derive(Drop)]
pub struct Progress<'a, T, C> {
    teller: &'a T,
    clock: &'a C,
    // None where the clock can't be read: then no time passes
    began: Option<Instant>,
    // when the line was written anew last, in milliseconds since the run began
    renewed: AtomicU64,
    // of the list that is loaded, or was last
    part: AtomicU64,
    parts: AtomicU64,
    // of all parts that were read so far
    records: AtomicU64,
    edition: AtomicU64,
    pieces: AtomicU64,
}

impl<'a, T, C: Clock> Progress<'a, T, C> {
    /// A run begins now.
    pub fn new(teller: &'a T, clock: &'a C) -> Progress<'a, T, C> {
        Progress {
            teller,
            clock,
            began: Instant::now(clock).ok(),
            renewed: AtomicU64::new(0),
            part: AtomicU64::new(0),
            parts: AtomicU64::new(0),
            records: AtomicU64::new(0),
            edition: AtomicU64::new(0),
            pieces: AtomicU64::new(0),
        }
    }

    /// The milliseconds since the run began.
    fn milliseconds(&self) -> u64 {
        let Some(began) = self.began else {
            return 0;
        };
        match began.elapsed(self.clock) {
            Ok(time) => u64::try_from(time.as_millis()).unwrap_or(u64::MAX),
            Err(_) => 0,
        }
    }

    /// Whether the line is to be written anew now, by the thread that asks.
    fn is_due(&self) -> bool {
        let now = self.milliseconds();
        let last = self.renewed.load(SeqCst);
        now >= last.saturating_add(GAP)
            && self
                .renewed
                .compare_exchange(last, now, SeqCst, SeqCst)
                .is_ok()
    }
}

impl<'a, T: Renew, C: Clock> Progress<'a, T, C> {
    /// Writes the line anew, where that is done and it is time.
    fn renew(&self) {
        if !self.teller.renews() || !self.is_due() {
            return;
        }
        let part = self.part.load(SeqCst);
        let parts = self.parts.load(SeqCst);
        let records = self.records.load(SeqCst);
        let edition = self.edition.load(SeqCst);
        let pieces = self.pieces.load(SeqCst);
        self.teller.renew(format_args!(
            "olap: part {part} of {parts}, records {records}, edition {edition}, pieces {pieces}"
        ));
    }

    /// Takes the line away that was written anew.
    pub fn clear(&self) {
        if self.teller.renews() {
            self.teller.renew("");
        }
    }
}

impl<'a, T: Renew + Sync, C: Clock + Sync> Gate for Progress<'a, T, C> {
    fn left(&self, _piece: u64) {
        self.pieces.fetch_add(1, SeqCst);
        self.renew();
    }

    fn published(&self, edition: u64, _rows: u64) {
        self.edition.store(edition, SeqCst);
        self.renew();
    }

    fn loading(&self, parts: u64) {
        self.parts.store(parts, SeqCst);
    }

    fn reading(&self, place: u64) {
        self.part.store(place.saturating_add(1), SeqCst);
        self.renew();
    }

    fn read(&self, place: u64, records: u64) {
        let before = self.records.fetch_add(records, SeqCst);
        if self.teller.renews() {
            self.renew();
            return;
        }
        let part = place.saturating_add(1);
        let parts = self.parts.load(SeqCst);
        let records = before.saturating_add(records);
        self.teller.tell(format_args!("olap: part {part} of {parts}, records {records}"));
    }

    fn reported(&self, line: u64, edition: u64, rows: u64, groups: u64) {
        if line == 0 {
            return;
        }
        let time = self.milliseconds();
        let seconds = time / 1000;
        let tenths = time % 1000 / 100;
        self.teller.tell(format_args!(
            "olap: line {line} edition {edition}, rows {rows}, groups {groups}, seconds {seconds}.{tenths}"
        ));
    }
}
