//! The columns that a predicate names.
ghost use Rattle.std.specs.Prelude.{◌≡◌, IfOk, OnOk, nat_eq};
ghost use Rattle.std.specs.List.{fold};
ghost use Rattle.query.specs.Different.{with_new};
ghost use Rattle.query.specs.Names.{leaves_of, operand_leaves, test_leaves};
ghost use Rattle.query.specs.Naming.{columns_named};

use crate::predicate::{Predicate, PredicateForm};
use crate::test::{Operand, Test};
use std::alloc::{AllocError, Global};

impl Predicate<usize> {
    /// The indexes of the columns that the predicate names, each once, in the order in which the text first names them. The
    /// one error is want of memory: the list was not allowed to grow.
    pub fn columns(&self, alloc: Global) -> Result<Vec<usize>, AllocError>
        ensures { IfOk result (λ v. v.items ≡ columns_named self.now) }
    {
        let mut columns = Vec::new(alloc);
        add_columns(&mut columns, self)?;
        Ok(columns)
    }
}

/// Adds the columns of the predicate behind those that are there, unless they are among them.
fn add_columns(columns: &mut Vec<usize>, predicate: &Predicate<usize>) -> Result<(), AllocError>
    ensures { OnOk result (columns.new.items ≡ fold (with_new nat_eq) columns.old.items (leaves_of predicate.now)) }
{
    match &predicate.form {
        PredicateForm::Or(inners) | PredicateForm::And(inners) => {
            for inner in inners {
                add_columns(columns, inner)?;
            }
            Ok(())
        }
        PredicateForm::Not(inner) => add_columns(columns, &**inner),
        PredicateForm::Test(test) => add_test_columns(columns, test),
    }
}

/// Adds the columns of the test likewise.
fn add_test_columns(columns: &mut Vec<usize>, test: &Test<usize>) -> Result<(), AllocError>
    ensures { OnOk result (columns.new.items ≡ fold (with_new nat_eq) columns.old.items (test_leaves test.now)) }
{
    match test {
        Test::Compare(a, _, b) => {
            add_operand_column(columns, a)?;
            add_operand_column(columns, b)
        }
        Test::IsNull { operand, .. } | Test::In { operand, .. } => {
            add_operand_column(columns, operand)
        }
        Test::Between {
            operand,
            low,
            high,
            ..
        } => {
            add_operand_column(columns, operand)?;
            add_operand_column(columns, low)?;
            add_operand_column(columns, high)
        }
    }
}

/// Adds the column of the operand likewise, where it is one.
fn add_operand_column(columns: &mut Vec<usize>, operand: &Operand<usize>) -> Result<(), AllocError>
    ensures { OnOk result (columns.new.items ≡ fold (with_new nat_eq) columns.old.items (operand_leaves operand.now)) }
{
    match operand {
        Operand::Column(column) => add_column(columns, *column),
        Operand::Literal(_) => Ok(()),
    }
}

/// Adds the column behind those that are there, unless it is among them.
fn add_column(columns: &mut Vec<usize>, column: usize) -> Result<(), AllocError>
    ensures { OnOk result (columns.new.items ≡ with_new nat_eq columns.old.items column) }
{
    if columns.contains(&column) {
        return Ok(());
    }
    Ok(columns.push(column)?)
}
