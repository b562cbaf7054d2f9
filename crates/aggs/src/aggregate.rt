//! What an aggregate is.
ghost use Rattle.std.specs.Prelude.{◌≡◌, ◌≢◌, ◌+◌, ◌≤◌, List, [], ◌∷◌, ◌++◌, length, IfOk, OnErr};
ghost use Rattle.std.specs.List.Sorted.{IsPermutation};
ghost use Rattle.aggs.specs.Room.{cell_limit};
ghost use Rattle.cells.specs.declared.cell.Cell.{Cell};
ghost use Rattle.cells.specs.declared.total.Total.{Total};

use cells::{Cell, Total};
use std::alloc::{AllocError, Global};

/// An accumulator, which stands for a list of cells: the more cells it is stepped with, the longer the
/// list. What it is depends on the list alone, and not on its order, so a list may be cut into parts
/// whose accumulators are joined. Lists of at most 4,294,967,296 cells together may be put together.
///
/// After a refusal, which is want of memory, each accumulator is as it was.
pub trait Aggregate {
    /// The accumulator of a list.
    ghost of: { List Cell → Self };

    /// The accumulator of two lists put together, from those of the lists.
    ghost together: { Self → Self → Self };

    /// The value that an accumulator gives.
    ghost total: { Self → Total };

    /// What is asked of two accumulators that are put together. The law `room` gives it.
    ghost fits: { Self → Self → Type 0 };

    /// The value of the aggregate over a list (ISO/IEC 9075-2:1999, 6.16).
    ghost value: { List Cell → Total };

    /// The accumulator of no cells.
    fn empty() -> Self
        ensures { result ≡ of [] };

    /// Makes it the accumulator of its list and the cell behind it. It takes memory only where the
    /// cell or a part of it is kept.
    fn step(&mut self, alloc: Global, cell: &Cell) -> Result<(), AllocError>
        requires { fits self.old (of (cell.now ∷ [])) }
        ensures stepped { IfOk result (λ _. self.new ≡ together self.old (of (cell.now ∷ []))) }
        ensures unchanged { OnErr result (self.new ≡ self.old) }

        // Memory is asked for only where the cell changes the accumulator.
        ensures needed { OnErr result (together self.old (of (cell.now ∷ [])) ≢ self.old) };

    /// The accumulator of both lists put together.
    fn join(&self, alloc: Global, other: &Self) -> Result<Self, AllocError>
        requires { fits self.now other.now }
        ensures { IfOk result (λ both. both ≡ together self.now other.now) };

    /// The value of the aggregate over the list.
    fn finish(&self) -> Result<Total, AllocError>
        ensures { IfOk result (λ t. t ≡ total self.now) };

    ghost joins: { (xs ys : List Cell) → of (xs ++ ys) ≡ together (of xs) (of ys) };

    ghost unit_first: { (a : Self) → together (of []) a ≡ a };

    ghost unit_second: { (a : Self) → together a (of []) ≡ a };

    ghost any_order: { (xs ys : List Cell) → IsPermutation xs ys → of xs ≡ of ys };

    ghost finishes: { (xs : List Cell) → total (of xs) ≡ value xs };

    ghost room: { (xs ys : List Cell) → length xs + length ys ≤ cell_limit → fits (of xs) (of ys) };
}
