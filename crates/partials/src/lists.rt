//! Arrays: of what is spelt, and of two values.
ghost use Rattle.std.specs.Prelude.{◌≡◌, ◌∷◌, [], List, IfOk, MatchOption, Some, map};
ghost use Rattle.std.specs.List.{AllZip};
ghost use Rattle.std.specs.Option.{option_map};
ghost use Rattle.serde_json.specs.Data.{Data, array};
ghost use Rattle.serde_json.specs.View.{items_of, view};
ghost use Rattle.partials.specs.Spelling.{SpellsList};

use crate::spelt::Spelt;
use serde_json::Value;
use std::alloc::{AllocError, Global};

/// The array of what these spell, in their order. The only error is that a growth was refused.
pub fn values_of<T: Spelt>(alloc: Global, items: &[T]) -> Result<Value, AllocError>
    ensures { IfOk result (λ v. SpellsList T.spells items.now (view v)) }
{
    let mut values = Vec::with_capacity(alloc, items.len())?;
    for item in items {
        values.push(item.value(alloc)?)?;
    }
    Ok(Value::from(values))
}

/// What the array's values spell, in their order. Mostly None where it is no array, or one of its values spells nothing. The
/// only error is that a growth was refused.
pub fn list_of<T: Spelt>(alloc: Global, value: &Value) -> Result<Option<Vec<T>>, AllocError>
    ensures { (xs : List T) → SpellsList T.spells xs (view value.now) → IfOk result (λ o. option_map (λ v. v.items) o ≡ Some xs) }
{
    let Some(values) = value.as_array() else {
        return Ok(None);
    };
    all_of(alloc, values.as_slice())
}

/// What the values spell, in their order.
fn all_of<T: Spelt>(alloc: Global, values: &[Value]) -> Result<Option<Vec<T>>, AllocError>
    ensures { (xs : List T) → AllZip T.spells xs (map view values.now) → IfOk result (λ o. option_map (λ v. v.items) o ≡ Some xs) }
{
    let mut items = Vec::with_capacity(alloc, values.len())?;
    for value in values {
        let Some(item) = T::of_value(alloc, value)? else {
            return Ok(None);
        };
        items.push(item)?;
    }
    Ok(Some(items))
}

/// The array of two values. The only error is that a growth was refused.
pub fn pair(alloc: Global, first: Value, second: Value) -> Result<Value, AllocError>
    ensures { IfOk result (λ v. view v ≡ array (items_of (view first ∷ view second ∷ []))) }
{
    let mut values = Vec::with_capacity(alloc, 2)?;
    values.push(first)?;
    values.push(second)?;
    Ok(Value::from(values))
}

/// The two values of an array of two. None exactly where it is no such array.
pub fn both_of(value: &Value) -> Option<(&Value, &Value)>
    ensures { (a b : Data) → view value.now ≡ array (items_of (a ∷ b ∷ [])) →
        MatchOption result ⊥ (λ both. (view both.0.now ≡ a) × (view both.1.now ≡ b)) }
{
    let Some(values) = value.as_array() else {
        return None;
    };
    if values.len() != 2 {
        return None;
    }
    Some((&values[0], &values[1]))
}
