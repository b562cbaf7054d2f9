//! The key that is proposed for the columns of parts.
ghost use Rattle.std.specs.Prelude.{◌≡◌, ℕ, IfOk, List, MatchOption, bytes_eq, map};
ghost use Rattle.std.specs.Bool.{Decides};
ghost use Rattle.std.specs.Cmp;
ghost use Rattle.std.specs.Cmp.Lexicographic.{nat_list_eq_equiv};
ghost use Rattle.std.proofs.lemmas.Slice.Eq.{bytes_eq-Decides};
ghost use Rattle.std.specs.Hash as fed;
ghost use Rattle.std.specs.Hash.{same_Alike};
ghost use Rattle.prepare.specs.Proposals.{AreKeys, HasNoKey, IsFirstKey, IsKey, column_of, integer_in, rows_of};

use crate::integers::integer_in;
use crate::rows::{Rows, field_in};
use cells::ColumnType;
use csv::ByteRecord;
use std::alloc::{AllocError, Global};
use std::collections::HashSet;
use std::hash::{Hash, Hasher};
use std::marker::Model;

/// The place of the first column of these parts that may be the key of a table, where the first is 0: no field of it is NULL, and no
/// two have one value, in all parts. The columns have these types, which are those of [`types_of`](crate::types_of), and each
/// part has a header. The only error is that a growth was refused.
pub fn key_of(
    alloc: Global,
    parts: &[Vec<u8>],
    types: &[ColumnType],
) -> Result<Option<usize>, AllocError>
    ensures { IfOk result (λ key. MatchOption key (HasNoKey (rows_of (map (λ p. p.items) parts.now)) types.now)
        (IsFirstKey (rows_of (map (λ p. p.items) parts.now)) types.now)) }
{
    for (place, kind) in types.iter().enumerate() {
        if is_key(alloc, parts, place, *kind)? {
            return Ok(Some(place));
        }
    }
    Ok(None)
}

/// Whether the column at a place may be the key.
fn is_key(
    alloc: Global,
    parts: &[Vec<u8>],
    place: usize,
    kind: ColumnType,
) -> Result<bool, AllocError>
    ensures { IfOk result (λ is. Decides is (IsKey kind (column_of place (rows_of (map (λ p. p.items) parts.now))))) }
{
    match kind {
        ColumnType::Int => are_keys::<i64>(alloc, parts, place),
        ColumnType::Text => are_keys::<Bytes>(alloc, parts, place),
    }
}

/// What tells two fields of a column apart.
trait Value: Eq + Hash + Drop + Sized {
    /// The value of a field.
    ghost of: { List ℕ → Self };

    /// The value of a field that is not NULL. The only error is that a growth was refused.
    fn of(alloc: Global, field: &[u8]) -> Result<Self, AllocError>
        ensures { IfOk result (λ value. value ≡ of field.now) };
}

impl Value for i64 {
    ghost of = { integer_in };

    fn of(_alloc: Global, field: &[u8]) -> Result<i64, AllocError> {
        Ok(integer_in(field).unwrap_or(0))
    }
}

/// A field by its bytes.
#[derive(Debug, Drop)]
struct Bytes {
    bytes: Vec<u8>,
}

impl Model for Bytes {
    ghost use Rattle.std.specs.Prelude.{List, ℕ};

    ghost Value = { List ℕ };

    ghost view = { λ b. b.bytes.items };
}

impl PartialEq for Bytes {
    ghost eq = { bytes_eq };

    ghost laws = { Cmp.partial_equiv_from_equiv nat_list_eq_equiv };

    fn eq(&self, other: &Bytes) -> bool {
        self.bytes.as_slice() == other.bytes.as_slice()
    }
}

impl Eq for Bytes {
    ghost laws = { nat_list_eq_equiv };
}

impl Hash for Bytes {
    ghost hash_input = { fed.slice fed.u8 };

    ghost respects_eq = { (same_Alike (fed.slice fed.u8) bytes_eq-Decides).fed };

    fn hash<H: Hasher>(&self, state: &mut H) {
        self.bytes.as_slice().hash(state);
    }
}

impl Value for Bytes {
    ghost of = { λ field. field };

    fn of(alloc: Global, field: &[u8]) -> Result<Bytes, AllocError> {
        Ok(Bytes {
            bytes: field.to_vec(alloc)?,
        })
    }
}

/// Whether no field of the column at a place is NULL, and no two have one value.
fn are_keys<V: Value>(alloc: Global, parts: &[Vec<u8>], place: usize) -> Result<bool, AllocError>
    ensures { IfOk result (λ are. Decides are (AreKeys V.eq V.of (column_of place (rows_of (map (λ p. p.items) parts.now))))) }
{
    let mut rows = Rows::new(alloc, parts);
    let mut row = ByteRecord::new(alloc);
    let mut met = HashSet::new(alloc);
    while rows.next(&mut row)? {
        let field = field_in(&row, place);
        if field.is_empty() {
            return Ok(false);
        }
        if !met.insert(V::of(alloc, field)?)? {
            return Ok(false);
        }
    }
    Ok(true)
}
