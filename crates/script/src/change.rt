//! The step of a line that puts, deletes or publishes, without the text of its block.
ghost use Rattle.std.specs.Prelude.{◌≡◌, ◌⊎◌, ◌+◌, ◌<◌, ◌^◌, ℕ, Err, IfOk, None, Result, Some};
ghost use Rattle.board.specs.Editions as editions;
ghost use Rattle.script.specs.Changes.{IsChange, IsChangeLine, Refuses, change_text};
ghost use Rattle.script.specs.Deeds.{Deed};
ghost use Rattle.script.specs.Desks.{Executes, Publishable};
ghost use Rattle.script.specs.Givens.{givens_of};
ghost use Rattle.script.specs.declared.fault.Fault.{Fault};
ghost use Rattle.script.specs.declared.fault.Fault.TheVariants.{Line};

use crate::fault::Fault;
use crate::setup::SpeltSetup;
use crate::statement::{Statement, read_first, read_statement};
use crate::step::{delete, lay, publish};
use board::Keeper;
use cells::{Cell, KeyHash, Refused};
use crew::Gate;
use std::alloc::AllocError;
use std::sync::Wait;

/// Does what a line says that puts, deletes or publishes. It gives the rule by which the line is refused, where it is; that did
/// nothing. The gate is told of a publish, and not of a refusal.
pub fn change<H: KeyHash<Cell>, G: Gate, R: Wait>(
    setup: &SpeltSetup<'_, R, G>,
    desk: &mut Option<Keeper<H>>,
    line: &[u8],
) -> Result<Option<Refused>, AllocError>
    requires publishable { Publishable desk.old }
    requires changes { IsChangeLine line.now }
    ensures { IfOk result (λ rule. (number : ℕ) →
        Executes H.hash_of (givens_of setup.now) line.now number desk.old desk.new (change_text setup.now.manner.now.form number rule)) }
{
    if let Some(keeper) = desk {
        return change_kept(setup, keeper, line);
    }
    change_first(setup, line)
}

/// The same before there is a table.
fn change_first<G: Gate, R: Wait>(
    setup: &SpeltSetup<'_, R, G>,
    line: &[u8],
) -> Result<Option<Refused>, AllocError>
    requires changes { IsChangeLine line.now }
    ensures { IfOk result (λ rule. (hash : Cell → ℕ) (number : ℕ) →
        Executes hash (givens_of setup.now) line.now number None None (change_text setup.now.manner.now.form number rule)) }
{
    match read_first(setup.alloc, line) {
        // Such a line declares nothing, and asks for something.
        Ok(_first) => Ok(None),
        Err(fault) => rule_of(fault),
    }
}

/// The same once there is a table.
fn change_kept<H: KeyHash<Cell>, G: Gate, R: Wait>(
    setup: &SpeltSetup<'_, R, G>,
    keeper: &mut Keeper<H>,
    line: &[u8],
) -> Result<Option<Refused>, AllocError>
    requires publishable { editions.edition keeper.old + 1 < 2 ^ 64 }
    requires changes { IsChangeLine line.now }
    ensures { IfOk result (λ rule. (number : ℕ) →
        Executes H.hash_of (givens_of setup.now) line.now number (Some keeper.old) (Some keeper.new) (change_text setup.now.manner.now.form number rule)) }
{
    match read_statement(setup.alloc, keeper.schema(), line) {
        Ok(Statement::Put(row)) => lay(keeper, row),
        Ok(Statement::Delete(key)) => {
            delete(setup.alloc, keeper, key)?;
            Ok(None)
        }
        Ok(Statement::Publish) => {
            publish(setup, keeper)?;
            Ok(None)
        }
        // Such a line asks for nothing else.
        Ok(Statement::Nothing | Statement::Load(_) | Statement::Report(_) | Statement::Shape) => Ok(
            None,
        ),
        Err(fault) => rule_of(fault),
    }
}

/// The rule that a line breaks which changes the table, and no other fault; memory may be wanting.
fn rule_of(fault: Fault) -> Result<Option<Refused>, AllocError>
    ensures { IfOk result (λ rule. (said : Result Deed Fault) → IsChange said → (fault ≡ Line Refused.OutOfMemory) ⊎ (said ≡ Err fault) → Refuses said rule) }
{
    if fault == Fault::Line(Refused::OutOfMemory) {
        return Err(AllocError);
    }
    match fault {
        Fault::Line(rule) => Ok(Some(rule)),
        Fault::Part { .. } => Ok(Some(Refused::BadPart)),
    }
}
