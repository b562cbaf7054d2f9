//! How the groups of two partial results are put together.
ghost use Rattle.std.specs.Prelude.{◌≡◌, IfOk, IfSome, true};
ghost use Rattle.std.specs.Option.{option_copied};
ghost use Rattle.cells.specs.TupleOrder.{tuple_cmp};
ghost use Rattle.groups.specs.Accumulators.{AllFit};
ghost use Rattle.groups.specs.Joining.{Joins, MeetsAt};
ghost use Rattle.trie.specs.Digits.{digit_order};
ghost use Rattle.trie.specs.Merging.{CanBlend};

use crate::accumulators::Accumulators;
use cells::{Cell, KeyHash, Tuple};
use std::alloc::{AllocError, Global};
use trie::{Blend, Ticks, Trie};

/// Puts the accumulators of one tuple's two groups together.
#[derive(Clone, Copy, Debug, Drop)]
struct BothGroups;

impl<H: KeyHash<Cell>> Blend<Accumulators<H>> for BothGroups {
    ghost use Rattle.groups.specs.Accumulators.{AllFit, accs_together};

    ghost asks = { λ _ first second. AllFit first second };

    ghost blend_of = { λ _ first second. accs_together first second };

    fn blend(
        &self,
        alloc: Global,
        first: &Accumulators<H>,
        second: &Accumulators<H>,
    ) -> Result<Accumulators<H>, AllocError> {
        first.join(alloc, second)
    }
}

/// The groups of two lists of rows together, in one grouping set. None where there is no room for them: some group would stand
/// for more cells than an accumulator may.
pub(crate) fn joined_if_room<H: KeyHash<Cell> + KeyHash<Tuple>>(
    alloc: Global,
    first: &Trie<Tuple, Accumulators<H>, H>,
    second: &Trie<Tuple, Accumulators<H>, H>,
) -> Result<Option<Trie<Tuple, Accumulators<H>, H>>, AllocError>
    ensures { IfOk result (λ o. IfSome o (Joins H.KeyHash-2.hash_of first.now second.now)) }
{
    if first.len().checked_add(second.len()).is_none() {
        return Ok(None);
    }
    if !fit(alloc, first, second)? {
        return Ok(None);
    }
    let both = first.merge(alloc, second, &BothGroups, &mut Ticks::new())?;
    Ok(Some(both))
}

/// Whether the groups fit that both have of one tuple.
fn fit<H: KeyHash<Cell> + KeyHash<Tuple>>(
    alloc: Global,
    first: &Trie<Tuple, Accumulators<H>, H>,
    second: &Trie<Tuple, Accumulators<H>, H>,
) -> Result<bool, AllocError>
    ensures { IfOk result (λ b. b ≡ true → CanBlend (digit_order H.KeyHash-2.hash_of tuple_cmp) AllFit first.now second.now) }
{
    for group in first.entries(alloc)? {
        if !fits(group.1, second.get(group.0)) {
            return Ok(false);
        }
    }
    Ok(true)
}

/// Whether a group fits the other one of its tuple, if there is one.
fn fits<H: KeyHash<Cell>>(first: &Accumulators<H>, second: Option<&Accumulators<H>>) -> bool
    ensures { result ≡ true → IfSome (option_copied second.entry) (AllFit first.now) }
{
    match second {
        None => true,
        Some(second) => first.fit(second),
    }
}

/// The groups of two lists of rows together, in one grouping set.
pub(crate) fn join_groups<H: KeyHash<Cell> + KeyHash<Tuple>>(
    alloc: Global,
    first: &Trie<Tuple, Accumulators<H>, H>,
    second: &Trie<Tuple, Accumulators<H>, H>,
) -> Result<Trie<Tuple, Accumulators<H>, H>, AllocError>
    requires { MeetsAt H.KeyHash-2.hash_of first.now second.now }
    ensures { IfOk result (λ t. Joins H.KeyHash-2.hash_of first.now second.now t) }
{
    first.keys_rise();
    second.keys_rise();
    first.merge(alloc, second, &BothGroups, &mut Ticks::new())
}
