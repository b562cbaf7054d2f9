//! The way in which a run tells its answers.
ghost use Rattle.std.specs.Prelude.{◌≡◌, IfOk};
ghost use Rattle.script.specs.Manners.{in_form, question_in};

use crate::owned::beside;
use forms::Form;
use query::Plan;
use report::{Arrangement, Question};
use std::alloc::{AllocError, Global};

/// The way in which a run tells its answers: the form of all that it writes, whether the blocks of reports and shapes have
/// headings, and how the rows of each report are arranged. A block without its heading has what stands after it alone; in JSON
/// it is an object all the same. Refusals, and the headings of viewers, are as they are.
#[derive(Drop)]
pub struct Manner {
    pub form: Form,
    pub heads: bool,
    pub arrangement: Arrangement,
}

impl Manner {
    /// That of a run in a form, with headings; rows stand as they come.
    pub fn of(alloc: Global, form: Form) -> Manner
        ensures { result ≡ in_form form }
    {
        Manner {
            form,
            heads: true,
            arrangement: Arrangement::none(alloc),
        }
    }

    /// What is asked of a plan, so that its answer is told in this way.
    pub(crate) fn question(&self, alloc: Global, plan: Plan) -> Result<Question, AllocError>
        ensures { IfOk result (λ question. question ≡ question_in self.now plan) }
    {
        let (plan, arrangement) = beside(self.arrangement.clone(), plan)?;
        Question::new(alloc, self.form, plan, arrangement)
    }
}
