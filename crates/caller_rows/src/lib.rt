//! A caller of the engine that has values and wants values: cells go in as rows, and a query with a parameter is answered by rows.
#![tactic(auto)]

ghost use Rattle.std.specs.Prelude.{◌≡◌, ◌∷◌, [], IfOk, None, OnOk};
ghost use Rattle.cells.specs.Hashes.{fnv_hash};
ghost use Rattle.script.specs.Parameters.{filled};
ghost use Rattle.script.specs.Sessions.{AnswersFilled, IsReply, with_line};
ghost use Rattle.script.specs.ValueLines.{publish_line, put_line};

use cells::{Cell, Fnv, Refused};
use crew::Open;
use report::Pour;
use script::{Answer, Session, Undone};
use std::alloc::Global;
use std::sync::Wait;
use std::thread::Threads;

/// The reply of the session to a line, as one that declares its table.
pub fn reply<R: Threads + Wait + Sync>(
    session: &mut Session<'_, Fnv, R, Open>,
    alloc: Global,
    line: &[u8],
) -> Result<Vec<u8>, Refused>
    ensures { session.old.ended ≡ None → IfOk result (λ bytes. IsReply fnv_hash session.old.givens session.old.lines line.now bytes.items) }
{
    let mut out = Pour::new(Vec::new(alloc));
    session.line(line, &mut out)?;
    Ok(out.into_inner())
}

/// Puts a row of these cells, and makes the rows the next edition, whose number it gives.
pub fn put_and_publish<R: Wait>(
    session: &mut Session<'_, Fnv, R, Open>,
    cells: &[Cell],
) -> Result<u64, Undone>
    ensures { OnOk result (session.new ≡ with_line (with_line session.old (put_line cells.now)) publish_line) }
{
    session.put(cells)?;
    session.publish()
}

/// What a query with one parameter answers over the rows that stand published, where the parameter is this number: with
/// `SELECT REGION, SUM(UNITS) FROM SALES WHERE UNITS > ? GROUP BY REGION` a row for each region.
pub fn answer_for<R: Threads + Wait + Sync>(
    session: &Session<'_, Fnv, R, Open>,
    query: &str,
    number: i64,
) -> Result<Answer, Refused>
    ensures { session.now.ended ≡ None → AnswersFilled session.now.givens session.now.lines (filled (Cell.Int number ∷ []) query.now) result }
{
    session.report_with(query, &[Cell::Int(number)])
}
