//! Cells and tuples.
ghost use Rattle.std.specs.Prelude.{◌≡◌, IfOk, Some};

use crate::spelt::Spelt;
use cells::{Cell, Text};
use serde_json::Value;
use std::alloc::{AllocError, Global};

impl Spelt for Cell {
    ghost use Rattle.partials.specs.Spelling.{SpellsCell};

    ghost spells = { SpellsCell };

    fn value(&self, alloc: Global) -> Result<Value, AllocError> {
        match self {
            Cell::Null => Ok(Value::Null),
            Cell::Int(number) => Ok(Value::from(*number)),
            Cell::Text(text) => Value::try_from_str(alloc, text.as_str()),
        }
    }

    fn of_value(alloc: Global, value: &Value) -> Result<Option<Cell>, AllocError> {
        match value {
            Value::Null => Ok(Some(Cell::Null)),
            Value::Number(number) => Ok(number.as_i64().map(Cell::Int)),
            Value::String(text) => Ok(Some(Cell::Text(Text::copied(alloc, text.as_str())?))),
            _ => Ok(None),
        }
    }
}
