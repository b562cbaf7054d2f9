//! The answer of a plan on a snapshot.
ghost use Rattle.std.specs.Prelude.{◌≡◌, ◌≤◌, ◌⊎◌, IfErr, IfOk, length};
ghost use Rattle.aggs.specs.Room.{cell_limit};
ghost use Rattle.cells.specs.declared.refused.Refused.TheVariants as Refused;
ghost use Rattle.crew.specs.Gathering.{rows_in};
ghost use Rattle.crew.specs.Limits.{piece_limit};
ghost use Rattle.groups.specs.Groups.{report_rows};
ghost use Rattle.report.specs.Reports.{classic, question_of};
ghost use Rattle.report.specs.Standing.{AreRowsFor, AreShown};
ghost use Rattle.report.specs.Waiting.{IsReportText};

use crate::arranging::Arrangement;
use crate::here::arranged;
use crate::pieces::{cutting_of, pieces_of};
use crate::printing::text_in;
use crate::question::Question;
use crate::want::Want;
use board::Snapshot;
use cells::{Cell, KeyHash, Refused, Tuple};
use columns::RowPiece;
use crew::{Gate, gather_pieces};
use forms::Form;
use groups::ReportRow;
use query::Plan;
use std::alloc::{AllocError, Global};
use std::sync::Wait;
use std::thread::Threads;
use trie::Cutting;

/// The text of the plan's report over the rows of the snapshot, in the classic form, in whatever order they came and however they are cut
/// into pieces. As many workers as the smaller of `workers`, taken as 1 at least and
/// [`MAX_WORKERS`](crate::MAX_WORKERS) at most, and the number of pieces lay out columns of the pieces, each in a thread of its
/// own, and others fold these; all are joined before this returns. The gate is told of each piece, and of the report as of
/// the line 0.
///
/// [`Refused::NoWorker`] where a thread could not be started; otherwise [`Refused::OutOfMemory`] where a growth was
/// refused, here or for a worker.
#[tactic(auto, using(crate::proofs::WantsLemmas::refused_so))]
pub fn answer<H: KeyHash<Cell> + KeyHash<Tuple> + Send + Sync, G: Gate, R: Threads + Wait + Sync>(
    rt: &R,
    alloc: Global,
    snapshot: &Snapshot<H>,
    plan: &Plan,
    workers: u64,
    cutting: &Cutting,
    gate: &G,
) -> Result<Vec<u8>, Refused>
    ensures text { IfOk result (λ text. IsReportText snapshot.now.rows (classic plan.now) text.items) }
    ensures refused { IfErr result (λ e. (e ≡ Refused.NoWorker) ⊎ (e ≡ Refused.OutOfMemory)) }
{
    let answering = Answering {
        rt,
        alloc,
        workers,
        cutting: *cutting,
        gate,
    };
    let arrangement = Arrangement::none(alloc);
    Ok(answering.text_in(0, snapshot, Form::Classic, plan, &arrangement)?)
}

/// What reports are answered with: where threads and memory come from, how many workers answer a report, how rows are cut
/// into pieces, and who is told of the pieces.
///
/// No text depends on these. A report puts the columns that its plan needs together from those beside the pieces, by as many
/// workers, and lays out those that are not there yet. These stay beside the piece, for all editions that share it, where it has
/// 64 rows or more. At most 2,560 rows are cut as `cutting` says; more are cut by their number, into pieces that keep their columns.
#[derive(Drop)]
pub struct Answering<'a, R, G> {
    pub rt: &'a R,
    pub alloc: Global,
    pub workers: u64,
    pub cutting: Cutting,
    pub gate: &'a G,
}

impl<R, G> Clone for Answering<'_, R, G> {
    ghost is_clone = { λ one copy. copy ≡ one };

    ghost is_infallible = { λ _. Unit };

    fn clone(&self) -> Result<Self, AllocError> {
        Ok(*self)
    }
}

impl<R, G> Copy for Answering<'_, R, G> {}

impl<'a, R: Threads + Wait + Sync, G: Gate> Answering<'a, R, G> {
    /// The text of what is asked of the rows of the snapshot, for the line of this number, or 0 where no line asks. The gate is
    /// told of it.
    pub(crate) fn text<H: KeyHash<Cell> + KeyHash<Tuple> + Send + Sync>(
        &self,
        line: u64,
        snapshot: &Snapshot<H>,
        question: &Question,
    ) -> Result<Vec<u8>, Want>
        ensures { IfOk result (λ text. IsReportText snapshot.now.rows question.now text.items) }
    {
        self.text_in(
            line,
            snapshot,
            question.form,
            &question.plan,
            &question.arrangement,
        )
    }

    /// The same of the plan's report in this form, of so arranged rows.
    fn text_in<H: KeyHash<Cell> + KeyHash<Tuple> + Send + Sync>(
        &self,
        line: u64,
        snapshot: &Snapshot<H>,
        form: Form,
        plan: &Plan,
        arrangement: &Arrangement,
    ) -> Result<Vec<u8>, Want>
        ensures { IfOk result (λ text. IsReportText snapshot.now.rows (question_of form plan.now arrangement.now) text.items) }
    {
        let rows = self.arranged(snapshot, plan, arrangement)?;
        let groups = rows.len();
        let text = text_in(self.alloc, form, plan.headings(), rows)?;
        self.tell(line, snapshot, groups);
        Ok(text)
    }

    /// The rows of the plan's report over those of the snapshot, so arranged, for a caller that wants values. The gate is told
    /// of the pieces, and of the report as of the line 0.
    ///
    /// [`Want::Worker`] where a thread could not be started; otherwise [`Want::Memory`] where a growth was refused, here or
    /// for a worker.
    pub fn rows<H: KeyHash<Cell> + KeyHash<Tuple> + Send + Sync>(
        &self,
        snapshot: &Snapshot<H>,
        plan: &Plan,
        arrangement: &Arrangement,
    ) -> Result<Vec<ReportRow>, Want>
        ensures { IfOk result (λ v. AreShown snapshot.now.rows plan.now arrangement.now v.items) }
    {
        let rows = self.arranged(snapshot, plan, arrangement)?;
        self.tell(0, snapshot, rows.len());
        Ok(rows)
    }

    /// Tells the gate of the report of a line, which has so many groups.
    fn tell<H: KeyHash<Cell>>(&self, line: u64, snapshot: &Snapshot<H>, groups: usize) {
        self.gate.reported(
            line,
            snapshot.edition(),
            snapshot.root().len(),
            groups as u64,
        );
    }

    /// The same rows, of which the gate is told nothing but their pieces.
    fn arranged<H: KeyHash<Cell> + KeyHash<Tuple> + Send + Sync>(
        &self,
        snapshot: &Snapshot<H>,
        plan: &Plan,
        arrangement: &Arrangement,
    ) -> Result<Vec<ReportRow>, Want>
        ensures { IfOk result (λ v. AreShown snapshot.now.rows plan.now arrangement.now v.items) }
    {
        let rows = self.unarranged(snapshot, plan)?;
        Ok(arranged(self.alloc, snapshot.root(), plan, arrangement, rows)?)
    }

    /// The rows of the plan's report over those of the snapshot, by the columns of the pieces that its rows are cut into.
    fn unarranged<H: KeyHash<Cell> + KeyHash<Tuple> + Send + Sync>(
        &self,
        snapshot: &Snapshot<H>,
        plan: &Plan,
    ) -> Result<Vec<ReportRow>, Want>
        ensures { IfOk result (λ v. AreRowsFor snapshot.now.rows plan.now v.items) }
    {
        let root = snapshot.root();
        let cutting = cutting_of(root.len(), self.cutting);
        let pieces = pieces_of(self.alloc, root, &cutting)?;
        self.rows_by_pieces(plan, pieces.as_slice())
    }

    /// The rows of the plan's report over those of the pieces.
    fn rows_by_pieces<H: KeyHash<Cell> + KeyHash<Tuple> + Send + Sync>(
        &self,
        plan: &Plan,
        pieces: &[RowPiece<H>],
    ) -> Result<Vec<ReportRow>, Want>
        requires rows { length (rows_in pieces.now) ≤ cell_limit }
        requires pieces { length pieces.now ≤ piece_limit }
        ensures { IfOk result (λ v. v.items ≡ report_rows plan.now (rows_in pieces.now)) }
    {
        let folding = gather_pieces(self.rt, self.alloc, plan, pieces, self.workers, self.gate)?;
        Ok(folding.into_rows(self.alloc)?)
    }
}
