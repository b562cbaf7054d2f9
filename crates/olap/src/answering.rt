//! Whether a table answers a query.
ghost use Rattle.std.specs.Prelude.{◌≡◌, ℕ, List, IfOk, MatchResult, Some, option_map, true};
ghost use Rattle.query.specs.Queries.{IsQuery};
ghost use Rattle.olap.specs.Answering.{Answers, SaysNo};

use cells::{Refused, Schema};
use query::{Query, check, read};
use std::alloc::{AllocError, Global};

/// Whether a table answers the query of a text; where there is none, it does not. The only error is that a growth was refused.
pub fn answers(alloc: Global, text: &str, schema: Option<&Schema>) -> Result<bool, AllocError>
    ensures { IfOk result (Answers (option_map (λ s. s.now) schema.entry) text.now) }
{
    match schema {
        Some(schema) => is_answered(alloc, text, schema),
        None => Ok(false),
    }
}

/// The same of a table that is there.
fn is_answered(alloc: Global, text: &str, schema: &Schema) -> Result<bool, AllocError>
    ensures { IfOk result (Answers (Some schema.now) text.now) }
{
    match read(alloc, text) {
        Ok(query) => has_plan(alloc, query, schema),
        Err(fault) => no_answer(fault),
    }
}

/// Whether a table answers this query.
fn has_plan(alloc: Global, query: Query, schema: &Schema) -> Result<bool, AllocError>
    ensures { (text : List ℕ) → IsQuery text query → IfOk result (Answers (Some schema.now) text) }
{
    is_found(check(alloc, query, schema))
}

/// Whether what was asked for was found, which is let go of.
fn is_found<T: Drop>(found: Result<T, Refused>) -> Result<bool, AllocError>
    ensures { MatchResult found (λ _. IfOk result (λ answer. answer ≡ true)) (λ fault. IfOk result (SaysNo fault)) }
{
    match found {
        Ok(_) => Ok(true),
        Err(fault) => no_answer(fault),
    }
}

/// That there is no answer, where that is told by a fault and memory was not refused.
fn no_answer(fault: Refused) -> Result<bool, AllocError>
    ensures { IfOk result (SaysNo fault) }
{
    if fault == Refused::OutOfMemory {
        return Err(AllocError);
    }
    Ok(false)
}
