//! What was told of a value: a list that only clauses read.
ghost use Rattle.std.specs.Prelude.{◌≡◌, List};
ghost use Rattle.std.specs.Borrow.{ftrue};
ghost use Rattle.std.specs.Coded.{coded_list};

use std::marker::{Model, PhantomData};

/// How a list is read off a value.
pub trait Shows<X, T> {
    ghost shown: { X → List T };
}

/// A list that was read off a value, for clauses alone. It has no bytes and owns nothing. A promise may speak of it
/// where it may not hold the value itself, or a [`Snapshot`](std::snapshot::Snapshot) of it, since the promise lies
/// within the value, as a node's does.
#[derive(Drop)]
pub struct Told<T> {
    marker: PhantomData<T>,
    pub ghost items: { List T } by { coded_list T.code },
}

impl<T> Model for Told<T> {
    ghost also_owns = { λ _. ftrue };
}

impl<T> Told<T> {
    /// The list that a value shows. It does nothing.
    pub fn of<X, M: Shows<X, T>>(value: &X) -> Told<T>
        ensures { result.items ≡ M.shown value.now }
    {
        let _ = value;
        Told {
            marker: PhantomData,
        }
    }
}
