//! What lies beside the entries below a branch: nothing, or a place for a summary of them.
ghost use Rattle.std.specs.Prelude.{◌≡◌, IfOk, IfSome, List, Option};

use shelf::{Shelf, Shows, Told};
use std::alloc::{AllocError, Global};
use std::boxed::Box;
use std::marker::Model;
use std::snapshot::Snapshot;
use std::sync::{Arc, Wait};
use std::thread::Promise;

/// The fewest entries that have a place for a summary. One of fewer entries spares little, and needs about as much
/// memory as they do. A put asks for memory for each place on its path: for one or two where hashes spread evenly.
pub const LEAST_SUMMED: u64 = 64;

/// The most entries that have a place for a summary. After a put the summaries on its path are made anew where they
/// are asked for, so one of more entries costs more than it spares. So many entries can be numbered with 16 bits.
pub const MOST_SUMMED: u64 = 65_536;

/// A list of entries, in digit order, which clauses alone see. It has no bytes.
#[derive(Drop)]
pub struct EntriesOf<K, V> {
    told: Told<(K, V)>,
}

impl<K, V> Model for EntriesOf<K, V> {
    ghost use Rattle.std.specs.Prelude.{List};

    ghost Value = { List (K × V) };

    ghost view = { λ entries. entries.told.items };
}

/// What lies beside the entries below a branch: [`Nothing`], or a place for a summary of them ([`Summed`]). It is made
/// with the branch, and goes with it.
pub trait Beside<K, V>: Drop {
    /// What it is to lie beside these entries.
    ghost lies_beside: { List (K × V) → Self → Type 0 };

    /// What lies beside these entries at first; `len` says how many they are.
    ///
    /// [`AllocError`] where memory for it was refused.
    fn new(alloc: Global, entries: &EntriesOf<K, V>, len: u64) -> Result<Self, AllocError>
        ensures { IfOk result (lies_beside entries.now) };
}

/// Nothing lies beside entries: for maps whose entries nobody sums up. It has no bytes, and takes no memory.
#[derive(Drop)]
pub struct Nothing;

impl<K, V> Beside<K, V> for Nothing {
    ghost use Rattle.std.specs.Prelude.{⊤};

    ghost lies_beside = { λ _ _. ⊤ };

    fn new(_alloc: Global, _entries: &EntriesOf<K, V>, _len: u64) -> Result<Nothing, AllocError> {
        Ok(Nothing)
    }
}

/// A summary of entries of a map, as the columns of some rows are.
pub trait Summary<K, V>: Drop {
    /// What it is to describe these entries, in digit order.
    ghost describes: { List (K × V) → Self → Type 0 };
}

/// The summary describes the entries.
impl<K, V, S: Summary<K, V>> Promise<S> for EntriesOf<K, V> {
    ghost kept_by = { λ entries summary. S.describes entries summary };
}

/// A place for a summary lies beside entries, where there are [`LEAST_SUMMED`] to [`MOST_SUMMED`] of them. The
/// summary is made when it is first asked for ([`Piece::summary_or_make`](crate::Piece::summary_or_make)).
#[derive(Drop)]
pub struct Summed<K, V, S: Summary<K, V>> {
    shelf: Option<Box<Shelf<S, EntriesOf<K, V>>>>,
}

impl<K, V, S: Summary<K, V>> Beside<K, V> for Summed<K, V, S> {
    ghost lies_beside = { λ entries summed. IfSome summed.shelf (λ shelf. shelf.value ≡ entries) };

    /// An empty place, if there are enough entries and not too many.
    fn new(
        alloc: Global,
        entries: &EntriesOf<K, V>,
        len: u64,
    ) -> Result<Summed<K, V, S>, AllocError> {
        if len < LEAST_SUMMED || len > MOST_SUMMED {
            return Ok(Summed { shelf: None });
        }
        let shelf = Shelf::new(alloc, entries)?;
        let shelf = Some(Box::new(alloc, shelf)?);
        Ok(Summed { shelf })
    }
}

/// What lies beside the entries below a branch, seen as these entries. A [`Snapshot`] of what was told may cross
/// threads, whatever it is.
#[derive(Drop)]
pub(crate) struct Side<K, V, S: Beside<K, V>> {
    entries: Snapshot<EntriesOf<K, V>>,
    beside: S,
}

impl<K, V, S: Beside<K, V>> Model for Side<K, V, S> {
    ghost use Rattle.std.specs.Prelude.{List};

    ghost Value = { List (K × V) };

    ghost view = { λ side. side.entries.value };

    ghost invariant = { λ side. S.lies_beside side.entries.value side.beside };
}

impl<K, V, S: Beside<K, V>> Side<K, V, S> {
    /// What lies at first beside the entries that a value shows; `len` says how many they are.
    pub(crate) fn of<X, M: Shows<X, (K, V)>>(
        alloc: Global,
        value: &X,
        len: u64,
    ) -> Result<Self, AllocError>
        ensures { IfOk result (λ side. side ≡ M.shown value.now) }
    {
        let told = Told::<(K, V)>::of::<X, M>(value);
        let entries = EntriesOf { told };
        let beside = S::new(alloc, &entries, len)?;
        let entries = Snapshot::of(&entries);
        Ok(Side { entries, beside })
    }
}

impl<K, V, S: Summary<K, V>> Side<K, V, Summed<K, V, S>> {
    /// One owner more of the summary that lies there, or of what `make` makes; None where there is no place for one.
    pub(crate) fn summary_or_make<R: Wait, F: FnOnce() -> Option<S> + Drop>(
        &self,
        rt: &R,
        make: F,
    ) -> Option<Arc<S>>
        requires callable { F.pre make }
        requires describes { (made : Option S) → F.post make made → IfSome made (S.describes self.now) }
        ensures { IfSome result (λ summary. S.describes self.now summary.value) }
    {
        match &self.beside.shelf {
            None => None,
            Some(shelf) => shelf.value_or_make(rt, make),
        }
    }

    /// The same where none was found there: what `make` makes now.
    pub(crate) fn summary_or_make_again<F: FnOnce() -> Option<S> + Drop>(
        &self,
        make: F,
    ) -> Option<Arc<S>>
        requires callable { F.pre make }
        requires describes { (made : Option S) → F.post make made → IfSome made (S.describes self.now) }
        ensures { IfSome result (λ summary. S.describes self.now summary.value) }
    {
        match &self.beside.shelf {
            None => None,
            Some(shelf) => shelf.value_or_make_again(make),
        }
    }
}
