//! What is held of a group's cells for one aggregate.
ghost use Rattle.std.specs.Prelude.{◌≡◌, ◌+◌, ◌<◌, ◌^◌, List, IfOk, true};
ghost use Rattle.aggs.specs.Accs.{AccsFit, acc_of, acc_together, acc_total, kind_of};
ghost use Rattle.aggs.specs.Keeping.{IsKept};
ghost use Rattle.aggs.specs.declared.acc.Kind.TheVariants as kind;
ghost use Rattle.cells.specs.declared.cell.Cell.{Cell};

use crate::different_cells::DifferentCells;
use aggs::{Acc, Kept};
use cells::{Cell, KeyHash, Total};
use std::alloc::{AllocError, Global};
use std::marker::Model;

/// What is held of a list of cells for one aggregate, seen as the accumulator of the list. Different cells may be in a list,
/// which costs less than a trie as long as no others come to them.
#[derive(Drop)]
pub struct Held<H: KeyHash<Cell>> {
    form: Form<H>,
}

/// Where it is held.
#[derive(Drop)]
enum Form<H: KeyHash<Cell>> {
    Accumulator(Acc<H>),
    Cells(DifferentCells),
}

impl<H: KeyHash<Cell>> Model for Held<H> {
    ghost use Rattle.aggs.specs.declared.acc.Acc.{Acc};
    ghost use Rattle.groups.specs.Codes.{coded_cells};
    ghost use Rattle.groups.specs.Holding.{accumulator_of};
    ghost use Rattle.std.specs.Coded.{codes};

    ghost Value = { Acc H };

    ghost coded = { Prim.hlevel (codes, coded_cells) };

    ghost view = { λ h. accumulator_of h.form };
}

impl<H: KeyHash<Cell>> Clone for Held<H> {
    ghost is_clone = { λ s t. t ≡ s };

    fn clone(&self) -> Result<Held<H>, AllocError> {
        match &self.form {
            Form::Accumulator(accumulator) => Ok(Held::of(accumulator.clone()?)),
            Form::Cells(cells) => Ok(Held {
                form: Form::Cells(cells.share()?),
            }),
        }
    }
}

impl<H: KeyHash<Cell>> Held<H> {
    /// The accumulator itself.
    pub fn of(accumulator: Acc<H>) -> Held<H>
        ensures { result ≡ accumulator }
    {
        Held {
            form: Form::Accumulator(accumulator),
        }
    }

    /// The different cells of a list, which COUNT DISTINCT counts: in a list where they are likely to stay alone, and else in
    /// a trie.
    pub fn of_different(alloc: Global, cells: Vec<Cell>, alone: bool) -> Result<Held<H>, AllocError>
        ensures { IfOk result (λ h. h ≡ acc_of kind.CountDistinct cells.items) }
    {
        if !alone {
            return Ok(Held::of(Acc::of_different(alloc, cells)?));
        }
        Ok(Held {
            form: Form::Cells(DifferentCells::of(alloc, cells)?),
        })
    }

    /// What is held of both lists put together.
    pub fn join(&self, alloc: Global, other: &Held<H>) -> Result<Held<H>, AllocError>
        requires { AccsFit self.now other.now }
        ensures { IfOk result (λ both. both ≡ acc_together self.now other.now) }
    {
        match &self.form {
            Form::Accumulator(first) => other.behind(alloc, first),
            Form::Cells(cells) => {
                let first = cells.accumulator(alloc)?;
                other.behind(alloc, &first)
            }
        }
    }

    /// The same, of the first list's accumulator and this one.
    fn behind(&self, alloc: Global, first: &Acc<H>) -> Result<Held<H>, AllocError>
        requires { AccsFit first.now self.now }
        ensures { IfOk result (λ both. both ≡ acc_together first.now self.now) }
    {
        match &self.form {
            Form::Accumulator(second) => Ok(Held::of(first.join(alloc, second)?)),
            Form::Cells(cells) => {
                let second = cells.accumulator(alloc)?;
                Ok(Held::of(first.join(alloc, &second)?))
            }
        }
    }

    /// What is kept of the list. It owns copies.
    pub fn kept(&self, alloc: Global) -> Result<Kept, AllocError>
        ensures { (xs : List Cell) → self.now ≡ acc_of (kind_of self.now) xs → IfOk result (IsKept (kind_of self.now) xs) }
    {
        match &self.form {
            Form::Accumulator(accumulator) => accumulator.kept(alloc),
            Form::Cells(cells) => Ok(Kept::Different(cells.list()?)),
        }
    }

    /// Whether both lists are few enough cells together, as far as both know.
    pub fn fits(&self, other: &Held<H>) -> bool
        ensures room { result ≡ true → AccsFit self.now other.now }
        ensures only { AccsFit self.now other.now → result ≡ true }
    {
        match (&self.form, &other.form) {
            (Form::Accumulator(first), Form::Accumulator(second)) => first.fits(second),
            (Form::Cells(cells), Form::Cells(others)) => has_sum(cells.len(), others.len()),
            (Form::Cells(cells), Form::Accumulator(Acc::CountDistinct(others))) => {
                has_sum(cells.len(), others.len())
            }
            (Form::Accumulator(Acc::CountDistinct(cells)), Form::Cells(others)) => {
                has_sum(cells.len(), others.len())
            }
            _ => true,
        }
    }

    /// The value of the aggregate over the list.
    pub fn finish(&self) -> Result<Total, AllocError>
        ensures { IfOk result (λ t. t ≡ acc_total self.now) }
    {
        match &self.form {
            Form::Accumulator(accumulator) => accumulator.finish(),
            Form::Cells(cells) => Ok(Total::Int(i128::from(cells.len()))),
        }
    }
}

/// Whether the sum of two counts has 64 bits.
fn has_sum(first: u64, second: u64) -> bool
    ensures room { result ≡ true → first + second < 2 ^ 64 }
    ensures only { first + second < 2 ^ 64 → result ≡ true }
{
    first.checked_add(second).is_some()
}
