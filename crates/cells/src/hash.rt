//! Hashes of keys: what a hash is, and two of them.
ghost use Rattle.std.specs.Prelude.{◌≡◌, ℕ, [], ◌∷◌, codes, fold, negsuc, pos, true};
ghost use Rattle.cells.specs.Hashes.{cell_bytes, fnv1a, fnv_hash, fnv_start, fnv_step, fnv_tuple_hash, plain_hash, plain_tuple_hash, tuple_bytes};

use crate::cell::Cell;
use crate::tuple::Tuple;

/// How keys are hashed. Keys that are equal have equal hashes; keys that differ may have equal ones.
///
/// A map by hashes is proved for every implementation, since each proves its law.
pub trait KeyHash<K: Eq> {
    /// The hash of a key, as contracts name it: what it is depends on the key alone.
    ghost hash_of: { K → ℕ };

    /// The hash of the key, of 64 bits.
    fn hash(key: &K) -> u64
        ensures { result ≡ hash_of key.now };

    ghost respects_eq: { (x y : K) → K.eq x y ≡ true → hash_of x ≡ hash_of y };
}

/// FNV-1a with 64 bits, the hash of Fowler, Noll and Vo, over the bytes of a key. It has no
/// secret: who wants keys that collide can find them.
///
/// The bytes of NULL are 00; those of an integer 01 and its 8 bytes in two's complement, low byte
/// first; those of a text 02, its length in 8 bytes, low byte first, and its bytes. The bytes of a
/// tuple are those of its cells in turn.
#[derive(Clone, Copy, Debug, PartialEq, Eq, Drop)]
pub struct Fnv;

/// A hash whose collisions a test can choose: an integer's 64 bits as they stand, a text's length
/// in bytes, 0 for NULL, and for a tuple the sum of its cells' hashes modulo 2^64.
#[derive(Clone, Copy, Debug, PartialEq, Eq, Drop)]
pub struct Plain;

/// The FNV-1a hash of no bytes.
const FNV_START: u64 = 14_695_981_039_346_656_037;

/// What FNV-1a multiplies by.
const FNV_PRIME: u64 = 1_099_511_628_211;

/// The FNV-1a hash that goes on from `hash` over the bytes.
fn fnv_over(hash: u64, bytes: &[u8]) -> u64
    ensures { result ≡ fold fnv_step hash bytes.now }
{
    bytes.iter().fold(
        hash,
        |hash, byte| (hash ^ u64::from(*byte)).wrapping_mul(FNV_PRIME),
    )
}

/// The FNV-1a hash that goes on from `hash` over the bytes of a cell.
fn fnv_over_cell(hash: u64, cell: &Cell) -> u64
    ensures { result ≡ fold fnv_step hash (cell_bytes cell.now) }
{
    match cell {
        Cell::Null => fnv_over(hash, &[0]),
        Cell::Int(n) => fnv_over(fnv_over(hash, &[1]), &n.to_le_bytes()),
        Cell::Text(text) => {
            let bytes = text.as_bytes();
            let length = bytes.len() as u64;
            let kind_and_length = fnv_over(fnv_over(hash, &[2]), &length.to_le_bytes());
            fnv_over(kind_and_length, bytes)
        }
    }
}

impl KeyHash<Cell> for Fnv {
    ghost use Rattle.std.proofs.Common.{ap};
    ghost use Rattle.cells.specs.Hashes.{fnv_hash};
    ghost use Rattle.cells.specs.SameKeys.{same_cells};

    ghost hash_of = { fnv_hash };

    fn hash(key: &Cell) -> u64 {
        fnv_over_cell(FNV_START, key)
    }

    ghost respects_eq = { λ x y e. ap fnv_hash (same_cells x y e) };
}

impl KeyHash<Tuple> for Fnv {
    ghost use Rattle.std.proofs.Common.{ap};
    ghost use Rattle.cells.specs.Hashes.{fnv_tuple_hash};
    ghost use Rattle.cells.specs.SameKeys.{same_tuples};

    ghost hash_of = { fnv_tuple_hash };

    #[tactic(auto, using(crate::proofs::HashesLemmas::hashed_by_cells))]
    fn hash(key: &Tuple) -> u64 {
        key.cells()
            .iter()
            .fold(FNV_START, |hash, cell| fnv_over_cell(hash, cell))
    }

    ghost respects_eq = { λ x y e. ap fnv_tuple_hash (same_tuples x y e) };
}

/// The plain hash of a cell.
fn plain_of(cell: &Cell) -> u64
    ensures { result ≡ plain_hash cell.now }
{
    match cell {
        Cell::Null => 0,
        Cell::Int(n) => n.cast_unsigned(),
        Cell::Text(text) => text.as_bytes().len() as u64,
    }
}

impl KeyHash<Cell> for Plain {
    ghost use Rattle.std.proofs.Common.{ap};
    ghost use Rattle.cells.specs.Hashes.{plain_hash};
    ghost use Rattle.cells.specs.SameKeys.{same_cells};

    ghost hash_of = { plain_hash };

    fn hash(key: &Cell) -> u64 {
        plain_of(key)
    }

    ghost respects_eq = { λ x y e. ap plain_hash (same_cells x y e) };
}

impl KeyHash<Tuple> for Plain {
    ghost use Rattle.std.proofs.Common.{ap};
    ghost use Rattle.cells.specs.Hashes.{plain_tuple_hash};
    ghost use Rattle.cells.specs.SameKeys.{same_tuples};

    ghost hash_of = { plain_tuple_hash };

    #[tactic(auto, using(crate::proofs::HashesLemmas::summed_by_cells))]
    fn hash(key: &Tuple) -> u64 {
        key.cells()
            .iter()
            .fold(0u64, |sum, cell| sum.wrapping_add(plain_of(cell)))
    }

    ghost respects_eq = { λ x y e. ap plain_tuple_hash (same_tuples x y e) };
}

/// Examples, computed by the definitions: FNV-1a at its public test vectors (no bytes, `a`, `foobar`,
/// a zero byte), the bytes of cells and of a tuple, and plain hashes.
pub fn worked_hashes()
    ensures no_bytes { fnv1a [] ≡ 0xcbf29ce484222325 }
    ensures letter { fnv1a (codes "a") ≡ 0xaf63dc4c8601ec8c }
    ensures word { fnv1a (codes "foobar") ≡ 0x85944171f73967e8 }
    ensures null { fnv_hash Cell.Null ≡ 0xaf63bd4c8601b7df }
    ensures tuple_of_null { fnv_tuple_hash (Cell.Null ∷ []) ≡ 0xaf63bd4c8601b7df }
    ensures empty_tuple { fnv_tuple_hash [] ≡ 0xcbf29ce484222325 }
    ensures integer { cell_bytes (Cell.Int (pos 5)) ≡ 1 ∷ 5 ∷ 0 ∷ 0 ∷ 0 ∷ 0 ∷ 0 ∷ 0 ∷ 0 ∷ [] }
    ensures negative { cell_bytes (Cell.Int (negsuc 1)) ≡ 1 ∷ 254 ∷ 255 ∷ 255 ∷ 255 ∷ 255 ∷ 255 ∷ 255 ∷ 255 ∷ [] }
    ensures text { cell_bytes (Cell.Text (codes "pen")) ≡ 2 ∷ 3 ∷ 0 ∷ 0 ∷ 0 ∷ 0 ∷ 0 ∷ 0 ∷ 0 ∷ codes "pen" }
    ensures tuple { tuple_bytes (Cell.Null ∷ Cell.Int (pos 5) ∷ []) ≡ 0 ∷ 1 ∷ 5 ∷ 0 ∷ 0 ∷ 0 ∷ 0 ∷ 0 ∷ 0 ∷ 0 ∷ [] }
    ensures plain { plain_hash (Cell.Int (negsuc 1)) ≡ 0xfffffffffffffffe }
    ensures plain_text { plain_hash (Cell.Text (codes "pen")) ≡ 3 }
    ensures plain_tuple { plain_tuple_hash (Cell.Int (negsuc 1) ∷ Cell.Text (codes "pen") ∷ []) ≡ 1 }
{}
