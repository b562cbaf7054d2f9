//! What a keeper tells.

use crate::law::View;
use atomic_table::Badge;
use std::marker::Model;

/// What a keeper knew at one time: the history of its editions up to then. It has no bytes, and may go to any thread.
/// [`Viewer::learn`](crate::Viewer::learn) uses it up.
#[derive(Drop)]
pub struct Told {
    pub(crate) badge: Badge<View>,
}

impl Model for Told {
    ghost use Rattle.std.specs.Prelude.{◌≡◌, [], ◌∷◌};
    ghost use Rattle.board.specs.Editions.{Note, coded_note};
    ghost use Rattle.board.specs.Ends.{known};
    ghost use Rattle.board.specs.declared.law.Role.TheVariants.{Noted};

    ghost Value = { Note };

    ghost coded = { coded_note };

    ghost view = { λ t. record { history = (known t.badge).seen; board = t.badge.table_id } };

    ghost invariant = { λ t. (t.badge.views ≡ known t.badge ∷ []) × ((known t.badge).role ≡ Noted) };
}
