//! The rule of a deal's word, and what each step on it tells. The rule exists in proofs alone: no value of a sight or
//! of a view is ever made.

use atomic_table::{Join, Play, Split, TableRule};
use std::collections::LinkedList;

/// What one seat has seen: the draws up to its own last one, each by the number of the seat that drew.
pub struct Sight {
    pub seat: u64,
    pub seen: LinkedList<u64>,
}

/// What a token of the table knows: the sights that were put into it. A seat's token has one.
pub type View = LinkedList<Sight>;

/// How many pieces and seats a deal has. The table is told it when it is made.
#[derive(Clone, Copy)]
pub struct Size {
    pub pieces: u64,
    pub seats: u64,
}

/// The rule: the word counts the draws of one history, which begins with what each seat has seen.
pub struct Law;

impl<S> TableRule<S, View, Size> for Law {
    ghost use Rattle.crew.specs.Law.{Kept, fresh};

    ghost holds = { λ size. Kept size.pieces size.seats };

    ghost first = { λ size. fresh 0 size.seats };
}

/// A draw, the one kind of step that changes the word or tells something of it.
pub struct Draw;

impl<S> Play<S, View> for Draw {
    ghost use Rattle.std.specs.Prelude.{◌≡◌};
    ghost use Rattle.crew.specs.Law.{Drew, only};

    ghost then = { λ _ before found after. Drew (only before.0) found after.0 × (after.1 ≡ before.1) };
}

/// The first sight goes to a token of its own.
pub struct Hand;

impl Split<View> for Hand {
    ghost use Rattle.std.specs.Prelude.{drop, take};

    ghost left = { drop 1 };

    ghost right = { take 1 };
}

/// The sights of two tokens come together in the first.
pub struct Gather;

impl Join<View> for Gather {
    ghost use Rattle.std.specs.Prelude.{[], ◌++◌};

    ghost both = { λ sights others. sights ++ others };

    ghost spent = { [] };
}
