//! Partial results as plain values, and back: for programs that take them elsewhere and join them there.
ghost use Rattle.std.specs.Prelude.{◌≡◌, ◌++◌, ℕ, List, IfOk, IfSome, MatchOption};
ghost use Rattle.std.specs.Option.{option_map};
ghost use Rattle.std.specs.Vec.Iter.{into_iter_items};
ghost use Rattle.cells.specs.Values.{RowValue};
ghost use Rattle.groups.specs.Partials.{Stands, StandsAt};
ghost use Rattle.groups.specs.Told.{AreTold, Tells, TellsSet, pairs_of};
ghost use Rattle.groups.specs.declared.aggregation.Aggregation.{Aggregation};
ghost use Rattle.query.specs.Plans.{PlanTree};
ghost use Rattle.trie.specs.Holding.{lent};

use crate::accumulators::Accumulators;
use crate::aggregation::{Aggregation, aggregations};
use crate::finishing::by_tuple;
use crate::joining::joined_if_room;
use crate::partial::Partial;
use aggs::Kept;
use cells::{Cell, KeyHash, Tuple};
use query::Plan;
use std::alloc::{AllocError, Global};
use std::marker::Model;
use std::vec::IntoIter;
use trie::{Trie, entries_are_a_map};

/// A group as plain values: its tuple, and what is kept of its rows for each aggregate of the plan, those of HAVING behind
/// those of the select list. It owns its cells.
#[derive(Debug, Drop)]
pub struct Group {
    pub tuple: Tuple,
    pub kept: Vec<Kept>,
}

impl Model for Group {
    ghost use Rattle.groups.specs.Told.{GroupValue};

    ghost Value = { GroupValue };

    ghost view = { λ g. record { tuple = g.tuple; kept = g.kept.items } };
}

/// The groups of a grouping set, each with a tuple of its own, by their tuples.
#[derive(Debug, Drop)]
pub struct SetGroups {
    pub groups: Vec<Group>,
}

impl Model for SetGroups {
    ghost use Rattle.std.specs.Prelude.{List};
    ghost use Rattle.groups.specs.Told.{GroupValue};

    ghost Value = { List GroupValue };

    ghost view = { λ s. s.groups.items };
}

impl<H: KeyHash<Cell> + KeyHash<Tuple>> Partial<H> {
    /// What it tells of its rows, for each grouping set of its plan, in the plan's order. The only error is that a growth was
    /// refused.
    pub fn told(&self, alloc: Global) -> Result<Vec<SetGroups>, AllocError>
        ensures { (plan : PlanTree) (rows : List RowValue) → Stands H.KeyHash-2.hash_of plan rows self.now →
            IfOk result (λ sets. Tells plan rows sets.items) }
    {
        let mut sets = Vec::with_capacity(alloc, self.tries.len())?;
        for groups in &self.tries {
            sets.push(set_groups(alloc, groups)?)?;
        }
        Ok(sets)
    }

    /// The partial result of the plan that tells this: whatever rows it is told of, it stands for them. None where nothing is
    /// told of the plan's rows so, as where what is kept is of other aggregates. The only error is that a growth was refused.
    pub fn of_told(
        alloc: Global,
        plan: &Plan,
        sets: Vec<SetGroups>,
    ) -> Result<Option<Partial<H>>, AllocError>
        ensures { (rows : List RowValue) → Tells plan.now rows sets.items →
            IfOk result (λ o. MatchOption o ⊥ (Stands H.KeyHash-2.hash_of plan.now rows)) }
    {
        if sets.len() != plan.sets().len() {
            return Ok(None);
        }
        let aggregations = aggregations(alloc, plan.items())?;
        let mut tries = Vec::with_capacity(alloc, sets.len())?;
        for set in sets {
            let Some(groups) = trie_of_told(alloc, aggregations.as_slice(), set)? else {
                return Ok(None);
            };
            tries.push(groups)?;
        }
        Ok(Some(Partial { tries }))
    }
}

impl<H: KeyHash<Cell> + KeyHash<Tuple>> Partial<H> {
    /// The partial result of both lists of rows together, as [`join`](Partial::join), of results that came from elsewhere, so
    /// that nothing is known of them. None where there is no room for both: some group would stand for more than 4,294,967,296
    /// cells. The only error is that a growth was refused.
    pub fn join_if_room(
        &self,
        alloc: Global,
        other: &Partial<H>,
    ) -> Result<Option<Partial<H>>, AllocError>
        ensures { (plan : PlanTree) (xs ys : List RowValue) → Stands H.KeyHash-2.hash_of plan xs self.now → Stands H.KeyHash-2.hash_of plan ys other.now →
            IfOk result (λ o. IfSome o (Stands H.KeyHash-2.hash_of plan (xs ++ ys))) }
    {
        let mut tries = Vec::new(alloc);
        for (first, second) in self.tries.iter().zip(&other.tries) {
            let Some(both) = joined_if_room(alloc, first, second)? else {
                return Ok(None);
            };
            tries.push(both)?;
        }
        Ok(Some(Partial { tries }))
    }
}

/// What the groups of a set tell of their rows.
fn set_groups<H: KeyHash<Cell> + KeyHash<Tuple>>(
    alloc: Global,
    groups: &Trie<Tuple, Accumulators<H>, H>,
) -> Result<SetGroups, AllocError>
    ensures { (aggregations : List Aggregation) (set : List ℕ) (rows : List RowValue) → StandsAt H.KeyHash-2.hash_of aggregations set rows groups.now →
        IfOk result (TellsSet aggregations set rows) }
{
    groups.keys_rise();
    let rising = by_tuple(alloc, groups)?;
    told_groups(alloc, rising)
}

/// The groups, one by one.
fn told_groups<H: KeyHash<Cell>>(
    alloc: Global,
    groups: IntoIter<(&Tuple, &Accumulators<H>)>,
) -> Result<SetGroups, AllocError>
    ensures { IfOk result (AreTold (lent (into_iter_items groups.entry))) }
{
    let mut told = Vec::new(alloc);
    for group in groups {
        let tuple = group.0.clone()?;
        let kept = group.1.kept(alloc)?;
        told.push(Group { tuple, kept })?;
    }
    Ok(SetGroups { groups: told })
}

/// The trie of groups of which this is told. None where some group keeps what the aggregates don't.
fn trie_of_told<H: KeyHash<Cell> + KeyHash<Tuple>>(
    alloc: Global,
    aggregations: &[Aggregation],
    set: SetGroups,
) -> Result<Option<Trie<Tuple, Accumulators<H>, H>>, AllocError>
    ensures { (columns : List ℕ) (rows : List RowValue) → TellsSet aggregations.now columns rows set →
        IfOk result (λ o. MatchOption o ⊥ (StandsAt H.KeyHash-2.hash_of aggregations.now columns rows)) }
{
    // It does nothing: it is the trie's law, by which pairs put one after another are a map.
    entries_are_a_map::<Tuple, Accumulators<H>, H>();
    let Some(pairs) = pairs_of(alloc, aggregations, set.groups)? else {
        return Ok(None);
    };
    Ok(Some(Trie::from_pairs(alloc, pairs)?))
}

/// The groups with the accumulators that keep what they tell. None where some group has none.
fn pairs_of<H: KeyHash<Cell>>(
    alloc: Global,
    aggregations: &[Aggregation],
    groups: Vec<Group>,
) -> Result<Option<Vec<(Tuple, Accumulators<H>)>>, AllocError>
    ensures { IfOk result (λ o. option_map (λ v. v.items) o ≡ pairs_of aggregations.now groups.items) }
{
    let mut pairs = Vec::with_capacity(alloc, groups.len())?;
    for group in groups {
        let Group { tuple, kept } = group;
        let Some(accumulators) = Accumulators::of_kept(alloc, aggregations, kept)? else {
            return Ok(None);
        };
        pairs.push((tuple, accumulators))?;
    }
    Ok(Some(pairs))
}
