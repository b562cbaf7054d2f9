//! How a table is divided into shards.
ghost use Rattle.std.specs.Prelude.{◌≡◌, ℕ, IfOk, Some};
ghost use Rattle.serde_json.specs.View.{view};
ghost use Rattle.partials.specs.Spelling.{SpellsCount};
ghost use Rattle.shards.specs.Documents.{SpellsBehind, division_of, division_word};
ghost use Rattle.shards.specs.declared.division.Division.{Division};

use partials::{both_of, pair};
use serde_json::Value;
use std::alloc::{AllocError, Global};

/// How a table is divided into shards.
#[derive(Clone, Copy, Debug, PartialEq, Eq, Drop)]
pub enum Division {
    /// By keys: all shards read the same parts, and each has the rows whose keys belong to it by their hashes.
    Keys,
    /// By parts: each shard reads parts of its own, and has all rows that are in them.
    Parts,
}

impl Division {
    /// The division that a word names: `keys` or `parts`.
    fn of_word(word: &str) -> Option<Division>
        ensures { result ≡ division_of word.now }
    {
        match word {
            "keys" => Some(Division::Keys),
            "parts" => Some(Division::Parts),
            _ => None,
        }
    }

    /// The word that names it.
    fn word(self) -> &'static str
        ensures { result.now ≡ division_word self }
    {
        match self {
            Division::Keys => "keys",
            Division::Parts => "parts",
        }
    }
}

/// The value that spells a division into so many shards.
pub(crate) fn division_value(
    alloc: Global,
    division: Division,
    count: u64,
) -> Result<Value, AllocError>
    ensures { IfOk result (λ v. SpellsBehind (division_word division) (SpellsCount count) (view v)) }
{
    let word = Value::try_from_str(alloc, division.word())?;
    pair(alloc, word, Value::from(count))
}

/// The division that a value spells, and into how many shards.
pub(crate) fn division_in(value: &Value) -> Option<(Division, u64)>
    ensures { (division : Division) (count : ℕ) → SpellsBehind (division_word division) (SpellsCount count) (view value.now) →
        result ≡ Some (division, count) }
{
    let Some((word, count)) = both_of(value) else {
        return None;
    };
    let Some(word) = word.as_str() else {
        return None;
    };
    let Some(division) = Division::of_word(word) else {
        return None;
    };
    let Some(count) = count.as_u64() else {
        return None;
    };
    Some((division, count))
}
