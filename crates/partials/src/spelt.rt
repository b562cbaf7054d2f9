//! What is spelt as a value of JSON.
ghost use Rattle.std.specs.Prelude.{◌≡◌, IfOk, Some};
ghost use Rattle.serde_json.specs.Data.{Data};
ghost use Rattle.serde_json.specs.View.{view};

use serde_json::Value;
use std::alloc::{AllocError, Global};

/// What is spelt as a value of JSON (RFC 8259), and read back from it.
pub trait Spelt: Drop {
    /// What a value of JSON spells.
    ghost spells: { Self → Data → Type 0 };

    /// The value that spells it. The only error is that a growth was refused.
    fn value(&self, alloc: Global) -> Result<Value, AllocError>
        ensures { IfOk result (λ v. spells self.now (view v)) };

    /// What the value spells: where it spells something, just that, and else mostly nothing. The only error is that a growth
    /// was refused.
    fn of_value(alloc: Global, value: &Value) -> Result<Option<Self>, AllocError>
        ensures { (x : Self) → spells x (view value.now) → IfOk result (λ o. o ≡ Some x) };
}
