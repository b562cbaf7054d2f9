//! The laws of accumulators of any kind, and worked examples.
ghost use Rattle.std.specs.Prelude.{◌≡◌, ◌+◌, ◌≤◌, List, [], ◌∷◌, ◌++◌, codes, length, negsuc, pos};
ghost use Rattle.std.specs.List.Sorted.{IsPermutation};
ghost use Rattle.aggs.specs.Accs.{AccsFit, acc_of, acc_together, acc_total, kind_of, value_of, values_over};
ghost use Rattle.aggs.specs.Room.{cell_limit};
ghost use Rattle.aggs.specs.Values.{greatest, least, sum};
ghost use Rattle.aggs.specs.declared.acc.Acc.{Acc};
ghost use Rattle.aggs.specs.declared.acc.Kind.{Kind};
ghost use Rattle.cells.specs.declared.cell.Cell.{Cell};
ghost use Rattle.cells.specs.declared.cell.Cell.TheVariants as cell;
ghost use Rattle.cells.specs.declared.total.Total.TheVariants as total;

use cells::{Cell, KeyHash};

/// The laws of [`Aggregate`](crate::Aggregate) for accumulators of any kind: the accumulator of two
/// lists put together is the join of theirs, that of no cells changes nothing, the order of a list
/// does not count, it finishes to the value of its aggregate, and there is room for short lists of
/// cells.
pub fn accumulators_keep_the_laws<H: KeyHash<Cell>>()
    ensures kind { (k : Kind) (xs : List Cell) → kind_of (acc_of {H = H} k xs) ≡ k }
    ensures joins { (k : Kind) (xs ys : List Cell) → acc_of {H = H} k (xs ++ ys) ≡ acc_together (acc_of k xs) (acc_of k ys) }
    ensures unit_first { (a : Acc H) → acc_together (acc_of (kind_of a) []) a ≡ a }
    ensures unit_second { (a : Acc H) → acc_together a (acc_of (kind_of a) []) ≡ a }
    ensures any_order { (k : Kind) (xs ys : List Cell) → IsPermutation xs ys → acc_of {H = H} k xs ≡ acc_of k ys }
    ensures finishes { (k : Kind) (xs : List Cell) → acc_total (acc_of {H = H} k xs) ≡ value_of k xs }
    ensures room { (k : Kind) (xs ys : List Cell) → length xs + length ys ≤ cell_limit → AccsFit (acc_of {H = H} k xs) (acc_of k ys) }
{}

/// Examples, computed by the definitions: COUNT(*), COUNT, COUNT DISTINCT, SUM, MIN and MAX over
/// nothing, over NULLs alone, and over 1, NULL, 2 and 1; MIN and MAX of texts; and sums at both ends of
/// 64 bits, taken three times.
pub fn worked_aggregates()
    ensures nothing { values_over [] ≡ total.Int (pos 0) ∷ total.Int (pos 0) ∷ total.Int (pos 0) ∷ total.Null ∷ total.Null ∷ total.Null ∷ [] }
    ensures nulls { values_over (cell.Null ∷ cell.Null ∷ [])
        ≡ total.Int (pos 2) ∷ total.Int (pos 0) ∷ total.Int (pos 0) ∷ total.Null ∷ total.Null ∷ total.Null ∷ [] }
    ensures mixed { values_over (cell.Int (pos 1) ∷ cell.Null ∷ cell.Int (pos 2) ∷ cell.Int (pos 1) ∷ [])
        ≡ total.Int (pos 4) ∷ total.Int (pos 3) ∷ total.Int (pos 2) ∷ total.Int (pos 4) ∷ total.Int (pos 1) ∷ total.Int (pos 2) ∷ [] }
    ensures least_text { least (cell.Text (codes "b") ∷ cell.Null ∷ cell.Text (codes "aa") ∷ []) ≡ total.Text (codes "aa") }
    ensures greatest_text { greatest (cell.Text (codes "aa") ∷ cell.Text (codes "b") ∷ cell.Null ∷ []) ≡ total.Text (codes "b") }
    ensures high { sum (cell.Int (pos 9223372036854775807) ∷ cell.Int (pos 9223372036854775807) ∷ cell.Int (pos 9223372036854775807) ∷ [])
        ≡ total.Int (pos 27670116110564327421) }
    ensures low { sum (cell.Int (negsuc 9223372036854775807) ∷ cell.Int (negsuc 9223372036854775807) ∷ cell.Int (negsuc 9223372036854775807) ∷ [])
        ≡ total.Int (negsuc 27670116110564327423) }
{}
