//! What two shards tell of the lines of a script, put together.
ghost use Rattle.std.specs.Prelude.{◌≡◌, ◌||◌, ◌++◌, ◌≤◌, ℕ, Bool, true, false, [], List, IfOk, IfSome, Some, length};
ghost use Rattle.std.specs.Str.Lines.{lines};
ghost use Rattle.cells.specs.Values.{RowValue, Table};
ghost use Rattle.groups.specs.Groups.{kept};
ghost use Rattle.groups.specs.Partials.{Stands};
ghost use Rattle.groups.specs.Told.{Tells};
ghost use Rattle.script.specs.Givens.{Givens};
ghost use Rattle.script.specs.Joining.{AreAlike, AreTogether, Joins};
ghost use Rattle.script.specs.Limits.{script_limit};
ghost use Rattle.script.specs.Retelling.{TellsKept};
ghost use Rattle.script.specs.Told.{AreTold, IsKeptFor, IsToldReport};

use crate::limits::MAX_SCRIPT_BYTES;
use crate::lines::lines_of;
use crate::reporting::read_plan;
use crate::told::Told;
use crate::walk::{Doing, Walk};
use cells::{Cell, KeyHash, Refused, Tuple};
use groups::{Partial, SetGroups, any_order};
use query::{Plan, a_text_has_one_answer};
use std::alloc::{AllocError, Global};

/// What is told of the lines of a script of the rows of both shards together, by what is told of those of each. No key belongs to
/// both. So what many shards tell is joined two by two, in any order, until one list is left, of which
/// [`output_of_told`](crate::output_of_told) makes the output.
///
/// None where the two don't belong together: where either is not of as many lines as the script has, where one tells of a line what
/// the other can't tell of it, as another fault of a load, where a report's groups are not those of its plan, or where there is no
/// room for both, since some group would stand for more than 4,294,967,296 cells; and where the script has a `shape` line or more
/// than 1,048,576 bytes. Both lists are let go of, and what is joined is the caller's. The only error is that a growth was refused.
pub fn join_told<H: KeyHash<Cell> + KeyHash<Tuple>>(
    alloc: Global,
    script: &[u8],
    first: Vec<Told>,
    second: Vec<Told>,
) -> Result<Option<Vec<Told>>, AllocError>
    ensures { (givens : Givens) (one two : Cell → Bool) → ((key : Cell) → one key ≡ true → two key ≡ false) →
        AreTold givens one [] (lines script.now) first.items → AreTold givens two [] (lines script.now) second.items →
        IfOk result (λ o. IfSome o (λ both. AreTold givens (λ key. one key || two key) [] (lines script.now) both.items)) }
{
    if script.len() > MAX_SCRIPT_BYTES {
        return Ok(None);
    }
    joined_lines::<H>(alloc, script, first, second)
}

/// The same of a script that is not too long.
fn joined_lines<H: KeyHash<Cell> + KeyHash<Tuple>>(
    alloc: Global,
    script: &[u8],
    first: Vec<Told>,
    second: Vec<Told>,
) -> Result<Option<Vec<Told>>, AllocError>
    requires { length script.now ≤ script_limit }
    ensures { (givens : Givens) (one two : Cell → Bool) → ((key : Cell) → one key ≡ true → two key ≡ false) →
        AreTold givens one [] (lines script.now) first.items → AreTold givens two [] (lines script.now) second.items →
        IfOk result (λ o. IfSome o (λ both. AreTold givens (λ key. one key || two key) [] (lines script.now) both.items)) }
{
    let mut both = Vec::new(alloc);
    let mut walk = Walk::new();
    let mut firsts = first.into_iter();
    let mut seconds = second.into_iter();
    for line in lines_of(script) {
        let doing = walk.go_over(alloc, line)?;
        let Some(one) = firsts.next() else {
            return Ok(None);
        };
        let Some(two) = seconds.next() else {
            return Ok(None);
        };
        let Some(joined) = joined_line::<H>(alloc, &walk, doing, one, two)? else {
            return Ok(None);
        };
        both.push(joined)?;
    }
    if firsts.len() > 0 || seconds.len() > 0 {
        return Ok(None);
    }
    Ok(Some(both))
}

/// What both tell of a line that is gone over and does this. None where they don't belong together.
fn joined_line<H: KeyHash<Cell> + KeyHash<Tuple>>(
    alloc: Global,
    walk: &Walk,
    doing: Doing<'_>,
    first: Told,
    second: Told,
) -> Result<Option<Told>, AllocError>
    ensures { IfOk result (λ o. IfSome o (Joins walk.now doing.entry first second)) }
{
    match doing {
        Doing::Quiet => Ok(agreed(first, second)),
        Doing::Puts => Ok(agreed(first, second)),
        Doing::Loads => Ok(agreed(first, second)),
        Doing::Reports(query) => joined_report::<H>(alloc, walk, query, first, second),
        Doing::Shape => Ok(None),
        Doing::Refused(_) => Ok(agreed(first, second)),
    }
}

/// What both tell alike, but for groups.
fn agreed(first: Told, second: Told) -> Option<Told>
    ensures { IfSome result (AreAlike first second) }
{
    match first {
        Told::Nothing => match second {
            Told::Nothing => Some(Told::Nothing),
            _ => None,
        },
        Told::Refused(fault) => match second {
            Told::Refused(other) if other == fault => Some(Told::Refused(fault)),
            _ => None,
        },
        Told::Kept(_) => None,
    }
}

/// What both tell of a report: the groups of both, or that its text is refused.
fn joined_report<H: KeyHash<Cell> + KeyHash<Tuple>>(
    alloc: Global,
    walk: &Walk,
    query: &str,
    first: Told,
    second: Told,
) -> Result<Option<Told>, AllocError>
    ensures { (t : Table) (xs ys zs : List RowValue) → AreTogether xs ys zs → walk.now.schema ≡ Some t →
        IsToldReport t xs query.now first → IsToldReport t ys query.now second → IfOk result (λ o. IfSome o (IsToldReport t zs query.now)) }
{
    match first {
        Told::Nothing => Ok(agreed(Told::Nothing, second)),
        Told::Refused(_) => Ok(None),
        Told::Kept(firsts) => match second {
            Told::Kept(seconds) => joined_groups::<H>(alloc, walk, query, firsts, seconds),
            _ => Ok(None),
        },
    }
}

/// The groups of both for the plan that the text asks for.
fn joined_groups<H: KeyHash<Cell> + KeyHash<Tuple>>(
    alloc: Global,
    walk: &Walk,
    query: &str,
    firsts: Vec<SetGroups>,
    seconds: Vec<SetGroups>,
) -> Result<Option<Told>, AllocError>
    ensures { (t : Table) (xs ys zs : List RowValue) → AreTogether xs ys zs → walk.now.schema ≡ Some t →
        IsKeptFor t xs query.now firsts.items → IsKeptFor t ys query.now seconds.items → IfOk result (λ o. IfSome o (IsToldReport t zs query.now)) }
{
    // The law by which both are of the plan that is read here; it does nothing.
    a_text_has_one_answer();
    let Some(schema) = &walk.schema else {
        return Ok(None);
    };
    match read_plan(alloc, query, schema) {
        Ok(plan) => {
            let joined = kept_of_both::<H>(alloc, &plan, firsts, seconds);
            drop(plan);
            joined
        }
        Err(Refused::OutOfMemory) => Err(AllocError),
        Err(_) => Ok(None),
    }
}

/// The groups of both for the plan.
fn kept_of_both<H: KeyHash<Cell> + KeyHash<Tuple>>(
    alloc: Global,
    plan: &Plan,
    firsts: Vec<SetGroups>,
    seconds: Vec<SetGroups>,
) -> Result<Option<Told>, AllocError>
    ensures { (xs ys zs : List RowValue) → AreTogether xs ys zs →
        Tells plan.now (kept plan.now.condition xs) firsts.items → Tells plan.now (kept plan.now.condition ys) seconds.items →
        IfOk result (λ o. IfSome o (TellsKept plan.now zs)) }
{
    // The law by which the order of the rows does not count; it does nothing.
    any_order::<H>();
    match partial_of_both::<H>(alloc, plan, firsts, seconds)? {
        Some(both) => {
            let sets = both.told(alloc)?;
            Ok(Some(Told::Kept(sets)))
        }
        None => Ok(None),
    }
}

/// The partial result of the rows of both.
fn partial_of_both<H: KeyHash<Cell> + KeyHash<Tuple>>(
    alloc: Global,
    plan: &Plan,
    firsts: Vec<SetGroups>,
    seconds: Vec<SetGroups>,
) -> Result<Option<Partial<H>>, AllocError>
    ensures { (xs ys : List RowValue) → Tells plan.now xs firsts.items → Tells plan.now ys seconds.items →
        IfOk result (λ o. IfSome o (Stands H.KeyHash-2.hash_of plan.now (xs ++ ys))) }
{
    let Some(first) = Partial::<H>::of_told(alloc, plan, firsts)? else {
        return Ok(None);
    };
    let Some(second) = Partial::<H>::of_told(alloc, plan, seconds)? else {
        return Ok(None);
    };
    first.join_if_room(alloc, &second)
}
