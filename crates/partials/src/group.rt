//! Groups, and those of a grouping set.
ghost use Rattle.std.specs.Prelude.{◌≡◌, IfOk, Some};

use crate::lists::{both_of, list_of, pair, values_of};
use crate::spelt::Spelt;
use cells::Tuple;
use groups::{Group, SetGroups};
use serde_json::Value;
use std::alloc::{AllocError, Global};

impl Spelt for Group {
    ghost use Rattle.partials.specs.Spelling.{SpellsGroup};

    ghost spells = { SpellsGroup };

    fn value(&self, alloc: Global) -> Result<Value, AllocError> {
        let tuple = values_of(alloc, self.tuple.cells())?;
        let kept = values_of(alloc, self.kept.as_slice())?;
        pair(alloc, tuple, kept)
    }

    fn of_value(alloc: Global, value: &Value) -> Result<Option<Group>, AllocError> {
        let Some((tuple, kept)) = both_of(value) else {
            return Ok(None);
        };
        let Some(tuple) = list_of(alloc, tuple)? else {
            return Ok(None);
        };
        let Some(kept) = list_of(alloc, kept)? else {
            return Ok(None);
        };
        let tuple = Tuple::new(tuple);
        Ok(Some(Group { tuple, kept }))
    }
}

impl Spelt for SetGroups {
    ghost use Rattle.partials.specs.Spelling.{SpellsSet};

    ghost spells = { SpellsSet };

    fn value(&self, alloc: Global) -> Result<Value, AllocError> {
        values_of(alloc, self.groups.as_slice())
    }

    fn of_value(alloc: Global, value: &Value) -> Result<Option<SetGroups>, AllocError> {
        let Some(groups) = list_of(alloc, value)? else {
            return Ok(None);
        };
        Ok(Some(SetGroups { groups }))
    }
}
