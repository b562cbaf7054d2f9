//! A value that is handed on, or let go where the call before it failed.
ghost use Rattle.std.specs.Prelude.{◌≡◌, Err, IsOk, MatchResult, Ok};

/// The value, where the call before it was no error. It stands over any value, so that letting go of one is one call.
pub(crate) fn handed_on<T: Drop, E: Drop>(made: Result<(), E>, value: T) -> Result<T, E>
    ensures { MatchResult result (λ x. (x ≡ value) × IsOk made) (λ e. made ≡ Err e) }
{
    match made {
        Ok(()) => Ok(value),
        Err(why) => Err(why),
    }
}

/// The value and what was made, if it was. It stands over any value, too.
pub(crate) fn beside<T: Drop, S: Drop, E: Drop>(made: Result<S, E>, value: T) -> Result<(T, S), E>
    ensures { MatchResult result (λ x. (made ≡ Ok x.1) × (x.0 ≡ value)) (λ e. made ≡ Err e) }
{
    match made {
        Ok(other) => Ok((value, other)),
        Err(fault) => Err(fault),
    }
}
