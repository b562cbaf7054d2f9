//! What workers do at the places that they draw.
ghost use Rattle.std.specs.Prelude.{◌++◌, ℕ, List, [], ◌∷◌, IfOk, OnOk};
ghost use Rattle.crew.specs.Tasks.{MayTake};

use std::alloc::{AllocError, Global};

/// Work at the places of a list, numbered from 0, which workers share out among themselves. All workers borrow the
/// task, and each makes something of its own: it begins, takes the places that it draws one after another, and hands
/// back what it made of them. No worker takes a place twice, and the places that one worker takes rise.
///
/// A worker that is answered Err makes no more, and that is its result. Workers know no gate: a task that tests may hold
/// or watch has one, and tells it of each place that it takes.
pub trait Task: Sync {
    /// What a worker makes while it draws, and hands back when no places are left.
    type Made: Send + Drop;

    // how many places there are
    ghost count: { Self → ℕ };

    // what may be made of these places, taken in this order
    ghost makes: { Self → List ℕ → Self.Made → Type 0 };

    /// What a worker begins with, before it takes a place. Err where there is no memory.
    fn begin(&self, alloc: Global) -> Result<Self::Made, AllocError>
        ensures { IfOk result (makes self.now []) };

    /// Takes one place more, which stands behind all that were taken. Err where there is no memory; nothing is said of
    /// `made` then.
    fn take(&self, alloc: Global, made: &mut Self::Made, place: u64) -> Result<(), AllocError>
        requires { MayTake (makes self.now) (count self.now) made.old place }
        ensures { (places : List ℕ) → makes self.now places made.old → OnOk result (makes self.now (places ++ place ∷ []) made.new) };
}
