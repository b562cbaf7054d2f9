//! Sums as strings of their digits.
ghost use Rattle.std.specs.Prelude.{◌≡◌, ◌<◌, ◌^◌, ℕ, suc, ℤ, pos, negsuc, decimal, IfOk, IfSome, Some, true};
ghost use Rattle.std.specs.Option.{is_some, option_map};
ghost use Rattle.serde_json.specs.View.{view};
ghost use Rattle.partials.specs.Spelling.{SpellsSum, behind_minus};

use itoa::Buffer;
use serde_json::Value;
use std::alloc::{AllocError, Global};

/// The string of the sum's digits.
pub(crate) fn sum_value(alloc: Global, sum: i128) -> Result<Value, AllocError>
    ensures { IfOk result (λ v. SpellsSum sum (view v)) }
{
    let mut buffer = Buffer::new();
    Value::try_from_str(alloc, buffer.format(sum))
}

/// The sum of a string of its digits.
pub(crate) fn sum_of(value: &Value) -> Option<i128>
    ensures { (sum : ℤ) → SpellsSum sum (view value.now) → result ≡ Some sum }
{
    let Some(text) = value.as_str() else {
        return None;
    };
    match behind_minus(text) {
        Some(digits) => below_zero(digits),
        None => positive(text),
    }
}

/// What stands behind a minus.
fn behind_minus(text: &str) -> Option<&str>
    ensures { option_map (λ s. s.now) result ≡ behind_minus text.now }
{
    text.strip_prefix('-')
}

/// The number of these digits.
fn positive(digits: &str) -> Option<i128>
    ensures { (n : ℕ) → n < 2 ^ 127 → digits.now ≡ decimal n → result ≡ Some (pos n) }
{
    let Some(number) = magnitude(digits) else {
        return None;
    };
    signed(number)
}

/// What is as much below 0 as the number of these digits is above it.
fn below_zero(digits: &str) -> Option<i128>
    ensures { (n : ℕ) → n < 2 ^ 127 → digits.now ≡ decimal (suc n) → result ≡ Some (negsuc n) }
{
    let Some(number) = magnitude(digits) else {
        return None;
    };
    let Some(less) = number.checked_sub(1) else {
        return None;
    };
    let Some(less) = signed(less) else {
        return None;
    };
    Some(-1 - less)
}

/// The number of these digits, of 128 bits.
fn magnitude(digits: &str) -> Option<u128>
    ensures { (n : ℕ) → n < 2 ^ 128 → digits.now ≡ decimal n → result ≡ Some n }
{
    digits.parse::<u128>().ok()
}

/// The same number, where it has 127 bits.
fn signed(number: u128) -> Option<i128>
    ensures above { IfSome result (λ n. n ≡ pos number) }
    ensures small { number < 2 ^ 127 → is_some result ≡ true }
{
    i128::try_from(number).ok()
}
