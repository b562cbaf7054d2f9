//! The accumulators of a group.
ghost use Rattle.std.specs.Prelude.{◌≡◌, [], IfOk, true};
ghost use Rattle.groups.specs.Accumulators.{AllFit, accs_of, accs_together};
ghost use Rattle.groups.specs.Told.{Keep, accs_of_kept};

use crate::aggregation::Aggregation;
use crate::held::Held;
use aggs::{Acc, Kept};
use cells::{Cell, KeyHash};
use std::alloc::{AllocError, Global};
use std::marker::Model;

/// Accumulators, one for each aggregate of a select list in its order, seen as the list of them. They own what they
/// keep of the cells.
#[derive(Drop)]
pub struct Accumulators<H: KeyHash<Cell>> {
    accs: Vec<Held<H>>,
}

impl<H: KeyHash<Cell>> Model for Accumulators<H> {
    ghost use Rattle.std.specs.Prelude.{List};
    ghost use Rattle.aggs.specs.declared.acc.Acc.{Acc};

    ghost Value = { List (Acc H) };

    ghost use Rattle.groups.specs.Codes.{coded_cells};
    ghost use Rattle.std.specs.Coded.{codes};

    ghost coded = { Prim.hlevel (codes, coded_cells) };

    ghost view = { λ a. a.accs.items };
}

impl<H: KeyHash<Cell>> Clone for Accumulators<H> {
    ghost is_clone = { λ s t. t ≡ s };

    fn clone(&self) -> Result<Accumulators<H>, AllocError> {
        Ok(Accumulators {
            accs: self.accs.clone()?,
        })
    }
}

impl<H: KeyHash<Cell>> Accumulators<H> {
    /// The accumulators of no rows.
    pub fn empty(alloc: Global, aggregations: &[Aggregation]) -> Result<Accumulators<H>, AllocError>
        ensures { IfOk result (λ a. a ≡ accs_of aggregations.now []) }
    {
        let mut accs = Vec::new(alloc);
        for aggregation in aggregations {
            accs.push(Held::of(Acc::empty(aggregation.kind)))?;
        }
        Ok(Accumulators { accs })
    }

    /// Accumulators in the order of the select list.
    pub fn of(accs: Vec<Held<H>>) -> Accumulators<H>
        ensures { result ≡ accs.items }
    {
        Accumulators { accs }
    }

    /// The accumulators, in the order of the select list.
    pub fn as_slice(&self) -> &[Held<H>]
        ensures { result.now ≡ self.now }
    {
        self.accs.as_slice()
    }

    /// What they keep of their rows, in the order of the select list. It owns copies.
    pub fn kept(&self, alloc: Global) -> Result<Vec<Kept>, AllocError>
        ensures { IfOk result (λ kepts. Keep self.now kepts.items) }
    {
        let mut kepts = Vec::with_capacity(alloc, self.accs.len())?;
        for held in &self.accs {
            kepts.push(held.kept(alloc)?)?;
        }
        Ok(kepts)
    }

    /// The accumulators that keep this, one for each aggregate. None where there are none.
    pub fn of_kept(
        alloc: Global,
        aggregations: &[Aggregation],
        kepts: Vec<Kept>,
    ) -> Result<Option<Accumulators<H>>, AllocError>
        ensures { IfOk result (λ o. o ≡ accs_of_kept aggregations.now kepts.items) }
    {
        let mut accs = Vec::with_capacity(alloc, kepts.len())?;
        let mut left = aggregations.iter();
        for kept in kepts {
            let Some(aggregation) = left.next() else {
                return Ok(None);
            };
            let Some(acc) = Acc::of_kept(alloc, aggregation.kind, kept)? else {
                return Ok(None);
            };
            accs.push(Held::of(acc))?;
        }
        if left.next().is_some() {
            return Ok(None);
        }
        Ok(Some(Accumulators { accs }))
    }

    /// Whether all have room for those of the other, as far as both go.
    pub fn fit(&self, other: &Accumulators<H>) -> bool
        ensures room { result ≡ true → AllFit self.now other.now }
        ensures only { AllFit self.now other.now → result ≡ true }
    {
        for (first, second) in self.accs.iter().zip(&other.accs) {
            if !first.fits(second) {
                return false;
            }
        }
        true
    }

    /// The accumulators of both lists of rows put together, as far as both go.
    pub fn join(
        &self,
        alloc: Global,
        other: &Accumulators<H>,
    ) -> Result<Accumulators<H>, AllocError>
        requires { AllFit self.now other.now }
        ensures { IfOk result (λ both. both ≡ accs_together self.now other.now) }
    {
        let mut accs = Vec::new(alloc);
        for (first, second) in self.accs.iter().zip(&other.accs) {
            accs.push(first.join(alloc, second)?)?;
        }
        Ok(Accumulators { accs })
    }

    /// Makes them the accumulators of their rows and of the other's, as far as both go. After a refusal some of them have the
    /// other's rows and others have not: they stand for no rows.
    pub fn add(&mut self, alloc: Global, other: &Accumulators<H>) -> Result<(), AllocError>
        requires { AllFit self.old other.now }
        ensures { IfOk result (λ _. self.new ≡ accs_together self.old other.now) }
    {
        self.accs.truncate(other.accs.len());
        for (i, second) in other.accs.iter().enumerate() {
            let Some(first) = self.accs.get_mut(i) else {
                return Ok(());
            };
            *first = first.join(alloc, second)?;
        }
        Ok(())
    }
}
