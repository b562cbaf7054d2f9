//! The shelf.
ghost use Rattle.std.specs.Prelude.{◌≡◌, IfOk, IfSome, Option};

use crate::made::{AnyPromise, Made, NameOf, Named, SameName};
use boxcar::slot::OnceSlot;
use boxcar::tag::Tag;
use std::alloc::{AllocError, Global};
use std::marker::Model;
use std::snapshot::Snapshot;
use std::sync::{Arc, Once, Wait};
use std::thread::Promise;

/// A place for one value that is made at most once, and then shared by all threads that have the shelf. Whoever looks
/// gets one owner more of the value, and knows that it keeps the promise that the shelf was made with, whoever made it.
///
/// Contracts see a shelf as its promise, a value of `P`, which mostly holds [`Snapshot`]s. It may be moved to other
/// threads and shared by them where `T` may, whatever `P` is.
#[derive(Drop)]
pub struct Shelf<T, P: Promise<T>> {
    alloc: Global,
    named: Named<P>,
    slot: OnceSlot<Made<T, P>, SameName>,
    once: Once,
}

impl<T, P: Promise<T>> Model for Shelf<T, P> {
    ghost use Rattle.std.specs.Prelude.{◌≡◌, [], ◌∷◌};

    ghost Value = { P };

    ghost view = { λ shelf. shelf.named.value.value };

    ghost invariant = { λ shelf. shelf.slot.tag ≡ shelf.named.of ∷ [] };
}

impl<T, P: Promise<T>> Shelf<T, P> {
    /// An empty shelf, for a value that keeps this promise. The promise stays with the caller: the shelf knows it in
    /// proofs alone. Nothing is allocated before there is a value.
    ///
    /// [`AllocError`] where the promise got no name. It gets one in each run, but no clause of the slot says so.
    pub fn new(alloc: Global, promise: &P) -> Result<Shelf<T, P>, AllocError>
        ensures { IfOk result (λ shelf. shelf ≡ promise.now) }
    {
        // This slot may go at once: what shows that it held the promise is the name, and lasts.
        let naming: OnceSlot<Snapshot<P>, AnyPromise> = OnceSlot::new(&Tag::empty());
        let Ok(named) = naming.set_written(Snapshot::of(promise)) else {
            return Err(AllocError);
        };
        let tag = Tag::of::<Named<P>, NameOf>(&named);
        Ok(Shelf {
            alloc,
            named,
            slot: OnceSlot::new(&tag),
            once: Once::new(),
        })
    }

    /// One owner more of the value; None where there is no value, or the owner was refused.
    fn look(&self) -> Option<Arc<T>>
        ensures { IfSome result (λ arc. P.kept_by self.now arc.value) }
    {
        let made = self.slot.get()?;
        // Both promises have the name that is the slot's tag, so they are one.
        made.named.agrees(&self.named);
        Arc::try_clone(&made.value).ok()
    }
}

impl<T: Drop, P: Promise<T>> Shelf<T, P> {
    /// Makes the value and puts it on the shelf, which stays empty where none is made or memory for it was refused.
    fn fill<F: FnOnce() -> Option<T>>(&self, make: F)
        requires callable { F.pre make }
        requires keeps { (made : Option T) → F.post make made → IfSome made (P.kept_by self.now) }
    {
        let Some(value) = make() else {
            return;
        };
        let Ok(value) = Arc::new(self.alloc, value) else {
            return;
        };
        let named = self.named.again();
        drop(self.slot.set_written(Made { named, value }));
    }

    /// One owner more of the value. The first caller calls `make` and puts on the shelf what it gives; whoever comes
    /// meanwhile sleeps until that is done, and whoever comes later finds it. `make` is called once in the life of the
    /// shelf, whatever it gives, so it must not ask the same shelf: it would wait for itself.
    ///
    /// None where `make` gave none or memory for its value was refused, which is then so for all callers, or where one
    /// owner more was refused, which is so for this caller alone.
    pub fn value_or_make<R: Wait, F: FnOnce() -> Option<T> + Drop>(
        &self,
        rt: &R,
        make: F,
    ) -> Option<Arc<T>>
        requires callable { F.pre make }
        requires keeps { (made : Option T) → F.post make made → IfSome made (P.kept_by self.now) }
        ensures { IfSome result (λ arc. P.kept_by self.now arc.value) }
    {
        self.once.call_once(
            rt,
            move ||
                requires callable { F.pre make }
                requires keeps { (made : Option T) → F.post make made → IfSome made (P.kept_by self.now) }
            { self.fill(make) },
        );
        self.look()
    }

    /// The same where [`value_or_make`](Shelf::value_or_make) gave none: calls `make`, which now may get its memory, and puts on
    /// the shelf what it gives, unless another caller has put a value there by then. Nobody waits for it.
    ///
    /// None as of `value_or_make`, but for this caller alone.
    pub fn value_or_make_again<F: FnOnce() -> Option<T>>(&self, make: F) -> Option<Arc<T>>
        requires callable { F.pre make }
        requires keeps { (made : Option T) → F.post make made → IfSome made (P.kept_by self.now) }
        ensures { IfSome result (λ arc. P.kept_by self.now arc.value) }
    {
        self.fill(make);
        self.look()
    }
}
