//! What lies on a shelf, and the rules of its slots.
//!
//! A rule sees the numbers of a slot's tag and no promise. So a promise gets a name, the number of a slot that held it once,
//! and the name is the tag: two promises of one name are one, however far apart they are shown.

use boxcar::slot::{SlotRule, Written};
use boxcar::tag::Names;
use std::snapshot::Snapshot;
use std::sync::Arc;
use std::thread::Promise;

/// What shows that a promise has a name. It has no bytes, and lasts when the slot that gave the name is gone.
pub(crate) type Named<P> = Written<Snapshot<P>>;

/// The rule of the slot that gives a promise its name: any promise may have one.
pub(crate) struct AnyPromise;

impl<P> SlotRule<Snapshot<P>> for AnyPromise {
    ghost use Rattle.std.specs.Prelude.{⊤};

    ghost holds = { λ _ _. ⊤ };
}

/// A value, beside what shows the name of the promise that it keeps.
#[derive(Drop)]
pub(crate) struct Made<T, P> {
    pub(crate) named: Named<P>,
    pub(crate) value: Arc<T>,
}

/// The rule of a shelf's slot: what was made keeps the promise whose name is the slot's tag.
pub(crate) struct SameName;

impl<T, P: Promise<T>> SlotRule<Made<T, P>> for SameName {
    ghost use Rattle.std.specs.Prelude.{◌≡◌, [], ◌∷◌};

    ghost holds = { λ tag made. (tag ≡ made.named.of ∷ []) × P.kept_by made.named.value.value made.value.value };
}

/// The tag that is a promise's name.
pub(crate) struct NameOf;

impl<P> Names<Named<P>> for NameOf {
    ghost use Rattle.std.specs.Prelude.{[], ◌∷◌};

    ghost numbers = { λ named. named.of ∷ [] };
}
