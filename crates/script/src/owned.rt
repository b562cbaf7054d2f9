//! Values that are handed on, or let go where something fails. It stands over any value, so that letting go of a snapshot
//! with its question is one call.
ghost use Rattle.std.specs.Prelude.{◌≡◌, Err, MatchResult, Ok};

/// The value and what was made, if it was.
pub fn beside<T: Drop, S: Drop, E: Drop>(made: Result<S, E>, value: T) -> Result<(T, S), E>
    ensures { MatchResult result (λ x. (made ≡ Ok x.1) × (x.0 ≡ value)) (λ e. made ≡ Err e) }
{
    match made {
        Ok(other) => Ok((value, other)),
        Err(fault) => Err(fault),
    }
}
