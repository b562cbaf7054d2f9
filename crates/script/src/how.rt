//! How a run is made.
ghost use Rattle.std.specs.Prelude.{◌≡◌, ◌↔◌, IfSome, IsSome};
ghost use Rattle.script.specs.Hows.{AreInRange};
ghost use Rattle.script.specs.Limits.{IsWithin};
ghost use Rattle.script.specs.Limits as limits;

use crate::limits::{DEPTH, ROWS, SMALL, WORKERS};
use std::marker::Model;
use trie::Cutting;

/// How a run is made, with every number in its range.
#[derive(Debug, Drop)]
pub struct How {
    workers: u64,
    cutting: Cutting,
    rows: u64,
}

impl Model for How {
    ghost use Rattle.script.specs.Hows.{AreInRange, Settings};

    ghost Value = { Settings };

    ghost view = { λ h. record { workers = h.workers; cutting = h.cutting; rows = h.rows } };

    ghost invariant = { λ h. AreInRange h.workers h.cutting h.rows };
}

impl Default for How {
    ghost use Rattle.script.specs.Hows.{default_settings};

    ghost is_default = { λ how. how ≡ default_settings };

    /// 1 worker, depth 1, small 0 and 4,294,967,296 rows: a run of which nothing is said.
    fn default() -> How {
        let cutting = Cutting {
            depth: DEPTH.default as u8,
            small: SMALL.default,
        };
        How::of(WORKERS.default, cutting, ROWS.default)
    }
}

impl How {
    /// A run of so many workers (1 to 64), with this cutting (a depth of 0 to 13), whose draft may have
    /// so many rows (1 to 4,294,967,296). None exactly where a number lies outside its range.
    pub fn new(workers: u64, cutting: Cutting, rows: u64) -> Option<How>
        ensures range { IsSome result ↔ AreInRange workers cutting rows }
        ensures kept { IfSome result (λ how. how ≡ record { workers = workers; cutting = cutting; rows = rows }) }
    {
        if workers < WORKERS.least || workers > WORKERS.most {
            return None;
        }
        if u64::from(cutting.depth) > DEPTH.most {
            return None;
        }
        if rows < ROWS.least || rows > ROWS.most {
            return None;
        }
        Some(How::of(workers, cutting, rows))
    }

    /// The same of numbers that are known to lie in their ranges.
    pub fn of(workers: u64, cutting: Cutting, rows: u64) -> How
        requires { AreInRange workers cutting rows }
        ensures { result ≡ record { workers = workers; cutting = cutting; rows = rows } }
    {
        How {
            workers,
            cutting,
            rows,
        }
    }

    /// How many workers load parts and answer a report, 1 to 64, each in a thread of its own; where a load lists fewer
    /// parts, or the table is cut into fewer pieces, there are as many as those.
    pub fn workers(&self) -> u64
        ensures workers { result ≡ self.now.workers }
        ensures within { IsWithin limits.workers result }
    {
        self.workers
    }

    /// How a table is cut into pieces.
    pub fn cutting(&self) -> Cutting
        ensures { result ≡ self.now.cutting }
    {
        self.cutting
    }

    /// The most rows of the draft.
    pub fn rows(&self) -> u64
        ensures rows { result ≡ self.now.rows }
        ensures within { IsWithin limits.rows result }
    {
        self.rows
    }
}
