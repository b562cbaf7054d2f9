//! Counts as numbers.

use crate::spelt::Spelt;
use serde_json::Value;
use std::alloc::{AllocError, Global};

impl Spelt for u64 {
    ghost use Rattle.partials.specs.Spelling.{SpellsCount};

    ghost spells = { SpellsCount };

    fn value(&self, _alloc: Global) -> Result<Value, AllocError> {
        Ok(Value::from(*self))
    }

    fn of_value(_alloc: Global, value: &Value) -> Result<Option<u64>, AllocError> {
        Ok(value.as_u64())
    }
}
