//! What a report is asked.
ghost use Rattle.std.specs.Prelude.{◌≡◌, IfOk};
ghost use Rattle.report.specs.Reports.{asked_in, plan_in};

use crate::arranging::Arrangement;
use forms::Form;
use query::Plan;
use std::alloc::{AllocError, Global};

/// What a report is asked: the form in which its answer is spelt, the plan of the rows that this form spells, and how these are
/// arranged.
#[derive(Drop)]
pub struct Question {
    pub form: Form,
    pub plan: Plan,
    pub arrangement: Arrangement,
}

impl Question {
    /// What asks for the report of a plan in a form, and so arranged. The only error is that a growth was refused.
    pub fn new(
        alloc: Global,
        form: Form,
        plan: Plan,
        arrangement: Arrangement,
    ) -> Result<Question, AllocError>
        ensures { IfOk result (λ question. question ≡ asked_in form plan arrangement) }
    {
        let plan = plan_in(alloc, form, plan)?;
        Ok(Question {
            form,
            plan,
            arrangement,
        })
    }
}

/// The plan whose rows a form spells: in a table each value has a mark, by which a subtotal's NULL is told from one of the data.
fn plan_in(alloc: Global, form: Form, plan: Plan) -> Result<Plan, AllocError>
    ensures { IfOk result (λ spelt. spelt ≡ plan_in form plan) }
{
    match form {
        Form::Classic | Form::Csv | Form::Json => Ok(plan),
        Form::Table => plan.marked(alloc),
    }
}
