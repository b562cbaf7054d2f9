//! Numbers of shards.
ghost use Rattle.std.specs.Prelude.{◌≡◌, ◌==◌, ◌≤◌, ℕ, IfNone, IfSome, false, true};
ghost use Rattle.std.specs.List.{find, list_any};

/// Whether the number is one of these.
fn is_in(numbers: &[u64], number: u64) -> bool
    ensures { result ≡ list_any (λ n. number == n) numbers.now }
{
    numbers.iter().any(|n| number == *n)
}

/// The first number that is in both lists.
pub(crate) fn in_both(first: &[u64], second: &[u64]) -> Option<u64>
    ensures { result ≡ find (λ number. list_any (λ n. number == n) second.now) first.now }
{
    first.iter().copied().find(|number| is_in(second, *number))
}

/// The first number from 1 up to the count that is missing.
pub(crate) fn missing(numbers: &[u64], count: u64) -> Option<u64>
    ensures none { IfNone result ((number : ℕ) → 1 ≤ number → number ≤ count → list_any (λ n. number == n) numbers.now ≡ true) }
    ensures some { IfSome result (λ number. (1 ≤ number) × (number ≤ count) × (list_any (λ n. number == n) numbers.now ≡ false)) }
{
    let mut number = 0;
    while number < count {
        number += 1;
        if !is_in(numbers, number) {
            return Some(number);
        }
    }
    None
}
