//! Reports that are answered in threads of their own.
ghost use Rattle.std.specs.Prelude.{◌≡◌, IfOk};
ghost use Rattle.report.specs.Waiting.{IsReportText};

use crate::answering::Answering;
use crate::question::Question;
use crate::want::Want;
use board::{Snapshot, viewers_cross_threads};
use cells::{Cell, KeyHash, Tuple};
use crew::Gate;
use std::alloc::{AllocError, Global};
use std::snapshot;
use std::sync::atomic::AtomicBool;
use std::sync::atomic::Ordering::SeqCst;
use std::sync::{Arc, Wait};
use std::thread::{Promise, PromisedHandle, Scope, Threads};

/// What a report's thread promises: the question's answer on the edition.
#[derive(Drop)]
pub(crate) struct AnswerOf<H: KeyHash<Cell>> {
    edition: snapshot::Snapshot<Snapshot<H>>,
    question: snapshot::Snapshot<Question>,
}

impl<H: KeyHash<Cell>> AnswerOf<H> {
    /// The answer of the question on the edition.
    fn new(edition: &Snapshot<H>, question: &Question) -> AnswerOf<H>
        ensures edition { result.edition.value ≡ edition.now }
        ensures question { result.question.value ≡ question.now }
    {
        AnswerOf {
            edition: snapshot::Snapshot::of(edition),
            question: snapshot::Snapshot::of(question),
        }
    }
}

impl<H: KeyHash<Cell>> Promise<Result<Vec<u8>, Want>> for AnswerOf<H> {
    ghost use Rattle.std.specs.Prelude.{IfOk};
    ghost use Rattle.report.specs.Waiting.{IsReportText};

    ghost kept_by = { λ promise result. IfOk result (λ text. IsReportText promise.edition.value.rows promise.question.value text.items) };
}

/// A report that was started: what its thread promises, and whether it has ended.
#[derive(Drop)]
pub(crate) struct Started<H: KeyHash<Cell>> {
    pub(crate) handle: PromisedHandle<Result<Vec<u8>, Want>, AnswerOf<H>>,
    // no more than a hint: that the report ends is told by its handle
    has_ended: Arc<AtomicBool>,
}

impl<H: KeyHash<Cell>> Started<H> {
    /// Whether the report has ended, so that it is hardly waited for. It does not wait.
    pub(crate) fn has_ended(&self) -> bool {
        self.has_ended.load(SeqCst)
    }

    /// Waits for the report, and gives its text.
    pub(crate) fn join<R: Threads>(self, rt: &R) -> Result<Vec<u8>, Want>
        ensures { IfOk result (λ text. IsReportText self.handle.promise.edition.value.rows self.handle.promise.question.value text.items) }
    {
        let Started {
            handle,
            has_ended: _,
        } = self;
        handle.join(rt)
    }
}

/// Where reports and viewers are started, and what they are answered with.
#[derive(Drop)]
pub struct Starter<'a, 's, 'e, R, G> {
    pub scope: &'a Scope<'s, &'e ()>,
    pub answering: Answering<'s, R, G>,
}

impl<'a, 's, 'e: 's, R: Threads + Wait + Sync, G: Gate> Starter<'a, 's, 'e, R, G> {
    /// Starts the report of the line of this number in a thread of its own.
    pub(crate) fn start<H: KeyHash<Cell> + KeyHash<Tuple> + Send + Sync + 's>(
        &self,
        line: u64,
        snapshot: Snapshot<H>,
        question: Question,
    ) -> Result<Started<H>, Want>
        ensures edition { IfOk result (λ started. started.handle.promise.edition.value ≡ snapshot) }
        ensures question { IfOk result (λ started. started.handle.promise.question.value ≡ question) }
    {
        let flagged = with_flag(self.answering.alloc, (snapshot, question))?;
        let ((snapshot, question), has_ended, ended) = flagged;
        let handle = self.start_ending(line, snapshot, question, ended)?;
        Ok(Started { handle, has_ended })
    }

    /// The same; once the report is answered, and its part of the edition let go, the flag is set.
    fn start_ending<H: KeyHash<Cell> + KeyHash<Tuple> + Send + Sync + 's>(
        &self,
        line: u64,
        snapshot: Snapshot<H>,
        question: Question,
        ended: Arc<AtomicBool>,
    ) -> Result<PromisedHandle<Result<Vec<u8>, Want>, AnswerOf<H>>, Want>
        ensures edition { IfOk result (λ handle. handle.promise.edition.value ≡ snapshot) }
        ensures question { IfOk result (λ handle. handle.promise.question.value ≡ question) }
    {
        // The law by which a snapshot may be moved to the thread; it does nothing.
        viewers_cross_threads::<H>();
        let promise = AnswerOf::new(&snapshot, &question);
        let answering = self.answering;
        let job = move || -> Result<Vec<u8>, Want>
            ensures { IfOk result (λ text. IsReportText snapshot.rows question text.items) }
        { answering.answered(line, snapshot, question, ended) };
        in_thread(self.scope, promise, job)
    }
}

impl<'a, R: Threads + Wait + Sync, G: Gate> Answering<'a, R, G> {
    /// The text of the report of a line. Then, once what it was asked of is let go, the flag is set.
    fn answered<H: KeyHash<Cell> + KeyHash<Tuple> + Send + Sync>(
        &self,
        line: u64,
        snapshot: Snapshot<H>,
        question: Question,
        ended: Arc<AtomicBool>,
    ) -> Result<Vec<u8>, Want>
        ensures { IfOk result (λ text. IsReportText snapshot.rows question text.items) }
    {
        let text = self.text(line, &snapshot, &question);
        drop(snapshot);
        drop(question);
        ended.store(true, SeqCst);
        text
    }
}

/// The value, and a flag that is not set, for two owners. It stands over any value, so that letting go of it is one call.
pub(crate) fn with_flag<T: Drop>(
    alloc: Global,
    value: T,
) -> Result<(T, Arc<AtomicBool>, Arc<AtomicBool>), AllocError>
    ensures { IfOk result (λ x. x.0 ≡ value) }
{
    let flag = Arc::new(alloc, AtomicBool::new(false))?;
    let same = Arc::try_clone(&flag)?;
    Ok((value, flag, same))
}

/// Starts a thread of the scope for a job that keeps the promise; [`Want::Worker`] where it can't be started. It stands over
/// any job, so that letting go of what a job owns is one call.
pub(crate) fn in_thread<
    's,
    'e: 's,
    T: Send + Drop + 's,
    P: Promise<T> + Drop,
    F: FnOnce() -> T + Send + Drop + 's,
>(scope: &Scope<'s, &'e ()>, promise: P, job: F) -> Result<PromisedHandle<T, P>, Want>
    requires runs { F.pre job }
    requires keeps { (made : T) → F.post job made → P.kept_by promise made }
    ensures { IfOk result (λ handle. handle.promise ≡ promise) }
{
    match scope.spawn_with(promise, job) {
        Ok(handle) => Ok(handle),
        Err(_) => Err(Want::Worker),
    }
}
