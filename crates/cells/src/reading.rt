//! The laws of reading: what a text spells, said by a relation and computed by a function, is one.
ghost use Rattle.std.specs.Prelude.{◌≡◌, ◌↔◌, ℕ, List, Some};
ghost use Rattle.cells.specs.Reading.{schema_of, tokens_of};
ghost use Rattle.cells.specs.Schemas.{TextSpellsSchema};
ghost use Rattle.cells.specs.Spelling.{Spells};
ghost use Rattle.cells.specs.Values.{Table};

use crate::token::Token;

/// The tokens that are computed from a text are those that it spells, and none are computed where
/// it spells none.
pub fn tokens_are_those_spelt()
    ensures { (text : List ℕ) (ts : List Token) → (tokens_of text ≡ Some ts) ↔ Spells text ts }
{}

/// The schema that is computed from a text is the one that it spells, and none is computed where
/// it spells none.
pub fn schema_is_the_one_spelt()
    ensures { (text : List ℕ) (t : Table) → (schema_of text ≡ Some t) ↔ TextSpellsSchema text t }
{}
