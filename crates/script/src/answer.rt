//! What a query answers, as values.
ghost use Rattle.std.specs.Prelude.{◌≡◌};

use cells::Text;
use groups::ReportRow;
use query::Plan;
use std::marker::Model;

/// What a query answers: a heading for each column, and rows, of which each has a value for each column. It owns them, and is
/// seen as both.
#[derive(Drop)]
pub struct Answer {
    pub(crate) plan: Plan,
    pub(crate) rows: Vec<ReportRow>,
}

impl Model for Answer {
    ghost use Rattle.script.specs.Says.{Values};

    ghost Value = { Values };

    ghost view = { λ a. record { headings = a.plan.headings; rows = a.rows.items } };
}

impl Answer {
    /// The headings, as a report prints them: the name of a column, or an aggregate as `SUM(UNITS)`.
    pub fn headings(&self) -> &[Text]
        ensures { result.now ≡ self.now.headings }
    {
        self.plan.headings()
    }

    /// The rows, in the order in which a report shows them.
    pub fn rows(&self) -> &[ReportRow]
        ensures { result.now ≡ self.now.rows }
    {
        self.rows.as_slice()
    }
}
