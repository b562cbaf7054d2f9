//! Bags: groups of rows, found by hash.
ghost use Rattle.std.specs.Prelude.{◌≡◌, ◌<◌, ◌^◌, List, [], ◌∷◌, ◌++◌, IfOk, IfSome, length, slice_index_or};
ghost use Rattle.std.specs.List.{AllByRecursion};
ghost use Rattle.cells.specs.declared.cell.Cell.{Cell};
ghost use Rattle.groups.specs.Accumulators.{AllFit};
ghost use Rattle.groups.specs.Coarsening.{JoinsGroup, TakesGroup};
ghost use Rattle.groups.specs.Bags.{CanJoin, HasBoth, picked};

use crate::accumulators::Accumulators;
use crate::tuples::{hash_of, hash_of_all, is_tuple_of, tuple_of};
use cells::{Cell, KeyHash, Tuple};
use std::alloc::{AllocError, Global};
use std::collections::HashMap;
use std::marker::Model;

/// A list of groups, and for a hash the index of the group that it was met with last. Several groups may have one tuple: nothing rests
/// on the hashes, and a group that is not found by its hash has another one beside it.
#[derive(Drop)]
pub struct Bag<H: KeyHash<Cell>> {
    groups: Vec<(Tuple, Accumulators<H>)>,
    by_hash: HashMap<u64, usize>,
}

impl<H: KeyHash<Cell>> Model for Bag<H> {
    ghost use Rattle.std.specs.Prelude.{◌<◌, List, length};
    ghost use Rattle.std.specs.HashMap.{values};
    ghost use Rattle.std.specs.List.{All};
    ghost use Rattle.groups.specs.Bags.{Group};

    ghost Value = { List (Group H) };

    ghost use Rattle.groups.specs.Codes.{coded_cells};
    ghost use Rattle.std.specs.Coded.{codes};

    ghost coded = { Prim.hlevel (codes, coded_cells) };

    ghost view = { λ b. b.groups.items };

    // Each index that is noted is one in the list.
    ghost invariant = { λ b. All (λ index. index < length b.groups.items) (values b.by_hash) };
}

impl<H: KeyHash<Cell>> Bag<H> {
    /// No groups.
    pub fn new(alloc: Global) -> Bag<H>
        ensures { result ≡ [] }
    {
        Bag {
            groups: Vec::new(alloc),
            by_hash: HashMap::new(alloc),
        }
    }

    /// These groups, none of which is found by its hash.
    pub fn of(alloc: Global, groups: Vec<(Tuple, Accumulators<H>)>) -> Bag<H>
        ensures { result ≡ groups.items }
    {
        Bag {
            groups,
            by_hash: HashMap::new(alloc),
        }
    }

    /// The groups, in the order in which their first rows came.
    pub fn groups(&self) -> &[(Tuple, Accumulators<H>)]
        ensures all { result.now ≡ self.now }
        ensures few { length result.now < 2 ^ 63 }
    {
        self.groups.as_slice()
    }

    /// Puts a group of a finer set into a group of those of its cells that have these indexes, or adds one.
    pub fn take_group(
        &mut self,
        alloc: Global,
        tuple: &Tuple,
        accumulators: &Accumulators<H>,
        indexes: &[usize],
    ) -> Result<(), AllocError>
        requires { AllByRecursion (λ g. AllFit g.1 accumulators.now) self.old }
        ensures { IfOk result (λ _. TakesGroup (picked indexes.now tuple.now) accumulators.now self.old self.new) }
    {
        let hash = hash_of(tuple.cells(), indexes);
        if let Some(index) = self.find(hash, tuple.cells(), indexes) {
            return self.join_at(alloc, index, accumulators);
        }
        let copy = accumulators.clone()?;
        self.add(hash, tuple_of(alloc, tuple.cells(), indexes)?, copy)
    }

    /// The groups of both, those of the second behind those of the first. Groups of one tuple stay beside each other.
    pub fn with(self, more: Bag<H>) -> Result<Bag<H>, AllocError>
        ensures { IfOk result (λ both. both ≡ self ++ more) }
    {
        let Bag {
            mut groups,
            by_hash,
        } = self;
        let Bag {
            groups: mut others,
            ..
        } = more;
        groups.append(&mut others)?;
        Ok(Bag { groups, by_hash })
    }

    /// The groups of both: each of the second is put into one of its tuple, or comes after the first's. None is copied.
    pub fn join(self, alloc: Global, more: Bag<H>) -> Result<Bag<H>, AllocError>
        requires { CanJoin self more }
        ensures { IfOk result (HasBoth self more) }
    {
        let mut all = self.noted()?;
        let Bag { groups, .. } = more;
        for (tuple, accumulators) in groups {
            all.put(alloc, tuple, accumulators)?;
        }
        Ok(all)
    }

    /// The same groups, which are now found by their hashes.
    fn noted(self) -> Result<Bag<H>, AllocError>
        ensures { IfOk result (λ bag. bag ≡ self) }
    {
        if !self.by_hash.is_empty() {
            return Ok(self);
        }
        let Bag {
            groups,
            mut by_hash,
        } = self;
        for index in 0..groups.len() {
            let hash = hash_of_all(groups[index].0.cells());
            let _ = by_hash.insert(hash, index)?;
        }
        Ok(Bag { groups, by_hash })
    }

    /// Puts a group into one of its tuple, or adds it.
    fn put(
        &mut self,
        alloc: Global,
        tuple: Tuple,
        accumulators: Accumulators<H>,
    ) -> Result<(), AllocError>
        requires { AllByRecursion (λ g. AllFit g.1 accumulators) self.old }
        ensures { IfOk result (λ _. TakesGroup tuple accumulators self.old self.new) }
    {
        let hash = hash_of_all(tuple.cells());
        if let Some(index) = self.find_tuple(hash, &tuple) {
            return self.join_at(alloc, index, &accumulators);
        }
        self.add(hash, tuple, accumulators)
    }

    /// The index of a group of the tuple, if one is found.
    fn find_tuple(&self, hash: u64, tuple: &Tuple) -> Option<usize>
        ensures within { IfSome result (λ i. i < length self.now) }
        ensures found { IfSome result (λ i. (slice_index_or self.now i (tuple.now, [])).0 ≡ tuple.now) }
    {
        let index = *self.by_hash.get(&hash)?;
        if self.groups[index].0 == *tuple {
            Some(index)
        } else {
            None
        }
    }

    /// The index of a group of the cells of these indexes, if one is found.
    fn find(&self, hash: u64, cells: &[Cell], indexes: &[usize]) -> Option<usize>
        ensures within { IfSome result (λ i. i < length self.now) }
        ensures found { IfSome result (λ i. (slice_index_or self.now i (picked indexes.now cells.now, [])).0 ≡ picked indexes.now cells.now) }
    {
        let index = *self.by_hash.get(&hash)?;
        if is_tuple_of(self.groups[index].0.cells(), cells, indexes) {
            Some(index)
        } else {
            None
        }
    }

    /// Puts accumulators into the group of an index.
    fn join_at(
        &mut self,
        alloc: Global,
        index: usize,
        accumulators: &Accumulators<H>,
    ) -> Result<(), AllocError>
        requires within { index < length self.old }
        requires fit { AllByRecursion (λ g. AllFit g.1 accumulators.now) self.old }
        ensures { (tuple : List Cell) → (slice_index_or self.old index (tuple, [])).0 ≡ tuple →
            IfOk result (λ _. JoinsGroup tuple accumulators.now self.old self.new) }
    {
        self.groups[index].1.add(alloc, accumulators)?;
        Ok(())
    }

    /// Adds a group.
    fn add(
        &mut self,
        hash: u64,
        tuple: Tuple,
        accumulators: Accumulators<H>,
    ) -> Result<(), AllocError>
        ensures { IfOk result (λ _. self.new ≡ self.old ++ (tuple, accumulators) ∷ []) }
    {
        let index = self.groups.len();
        self.groups.push((tuple, accumulators))?;
        let _ = self.by_hash.insert(hash, index)?;
        Ok(())
    }
}
