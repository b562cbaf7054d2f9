//! The viewers beside a run: they are started once a table is declared, and their blocks come after those of all lines, or as
//! they are made.
ghost use Rattle.std.specs.Prelude.{◌≡◌, ◌+◌, ◌<◌, ◌^◌, ℕ, [], List, length, IfErr, IfOk, OnOk};
ghost use Rattle.std.specs.List.{AllByRecursion};
ghost use Rattle.board.specs.Editions.{IsNewViewer, edition, schema as schema_of};
ghost use Rattle.cells.specs.declared.cell.Cell.{Cell as CellValue};
ghost use Rattle.report.specs.Watching.{IsOf};
ghost use Rattle.script.specs.Desks.{IsBehind, Keeps};
ghost use Rattle.script.specs.Endings.{Delivers, Ends};
ghost use Rattle.script.specs.Givens.{Givens, givens_of};
ghost use Rattle.script.specs.Output.{editions};
ghost use Rattle.script.specs.Says.{IsRefused};
ghost use Rattle.script.specs.Spelling.{viewers_refused};
ghost use Rattle.script.specs.Tails.{AreViewers, AreViews};
ghost use Rattle.script.specs.declared.manner.Manner.{Manner as MannerValue};
ghost use Rattle.script.specs.Turns.{first_turns};
ghost use Rattle.script.specs.Viewers.{AreAsked, Attend, HasAttended, HasViewers, IsAskedSo, IsRest, IsStarted, MayAttend, MayShow};
ghost use Rattle.script.specs.Viewers.{asked_of, nobody, turns_by, turns_of, viewing_of};
ghost use Rattle.script.specs.declared.finish.Finish.TheVariants.{Through};
ghost use Rattle.script.specs.declared.on_refusal.OnRefusal.{OnRefusal};

use crate::block::{view_text, viewers_refused_block};
use crate::coming::{come, send_all, write_turns};
use crate::ended::Ended;
use crate::manner::Manner;
use crate::owned::beside;
use crate::reporting::read_plan;
use crate::setup::SpeltSetup;
use crate::stage::Stage;
use crate::unstarted::Unstarted;
use crate::viewing::{Showing, Viewing};
use board::{Keeper, Viewer};
use cells::{Cell, KeyHash, Refused, Schema, Tuple};
use crew::Gate;
use forms::Form;
use report::{Answering, Audience, Onlookers, Out, Question, Starter, Want, Watcher, write_whole};
use std::alloc::Global;
use std::sync::Wait;
use std::thread::Threads;

/// The viewers beside a run, and how far they are: those whose blocks come last, and those who show theirs as they come. A run
/// that asks for none has nobody here.
#[derive(Drop)]
pub struct Gallery<H: KeyHash<Cell>> {
    pub stage: Stage,
    pub audience: Audience<H>,
    pub onlookers: Onlookers<H>,
}

impl<H: KeyHash<Cell>> Gallery<H> {
    /// Nobody was started.
    pub fn new(alloc: Global) -> Gallery<H>
        ensures stage { result.stage ≡ Stage.Expected }
        ensures nobody { (result.audience.watches ≡ []) × (result.onlookers ≡ nobody) }
    {
        Gallery {
            stage: Stage::Expected,
            audience: Audience::new(alloc),
            onlookers: Onlookers::new(alloc),
        }
    }

    /// Whether a viewer whose blocks come as they are made has come back, as far as it is known. It does not wait.
    pub fn has_come(&self) -> bool {
        self.onlookers.has_ended_one()
    }

    /// Waits for all viewers that were started, and forgets what they reported.
    pub fn join<R: Threads>(self, rt: &R) {
        let Gallery {
            stage: _,
            audience,
            onlookers,
        } = self;
        audience.join(rt);
        onlookers.join(rt);
    }
}

impl<H: KeyHash<Cell> + KeyHash<Tuple> + Send + Sync> Gallery<H> {
    /// Starts the viewers that a run asks for, where a table is declared and they were not started.
    pub fn attend<'s, 'e: 's, G: Gate, R: Threads + Wait + Sync>(
        &mut self,
        setup: &SpeltSetup<'_, R, G>,
        starter: &Starter<'_, 's, 'e, R, G>,
        desk: &mut Option<Keeper<H>>,
    ) -> Result<(), Unstarted>
    where
        H: 's,
        requires attend { MayAttend setup.now.manner.now (asked_of setup.now.viewing) desk.old self.old.stage self.old.audience.watches self.old.onlookers }
        ensures same { desk.new ≡ desk.old }
        ensures attended { OnOk result
            (HasAttended setup.now.manner.now (asked_of setup.now.viewing) desk.new self.new.stage self.new.audience.watches self.new.onlookers) }
        ensures turns { OnOk result
            (turns_of (asked_of setup.now.viewing) self.new.stage self.new.onlookers
            ≡ turns_of (asked_of setup.now.viewing) self.old.stage self.old.onlookers) }
        ensures asked { IfErr result (λ _. HasViewers (asked_of setup.now.viewing)) }
    {
        let Some(viewing) = setup.viewing else {
            return Ok(());
        };
        let Stage::Expected = self.stage else {
            return Ok(());
        };
        let Some(keeper) = desk else {
            return Ok(());
        };
        self.begin(setup.alloc, setup.manner, starter, viewing, keeper)
    }

    /// Starts the viewers of the keeper's table, or turns them away where their query is refused.
    fn begin<'s, 'e: 's, G: Gate, R: Threads + Wait + Sync>(
        &mut self,
        alloc: Global,
        manner: &Manner,
        starter: &Starter<'_, 's, 'e, R, G>,
        viewing: Viewing<&str>,
        keeper: &mut Keeper<H>,
    ) -> Result<(), Unstarted>
    where
        H: 's,
        requires nobody { (self.old.audience.watches ≡ []) × (self.old.onlookers ≡ nobody) }
        ensures same { keeper.new ≡ keeper.old }
        ensures attend { OnOk result
            (Attend manner.now (viewing_of viewing.entry) (Some keeper.old) self.new.stage self.new.audience.watches self.new.onlookers) }
        ensures stage { OnOk result (self.new.stage ≡ Stage.Expected → ⊥) }
        ensures turns { OnOk result
            (turns_by viewing.entry.showing (viewing_of viewing.entry) self.new.stage self.new.onlookers ≡ first_turns (viewing_of viewing.entry)) }
    {
        match questions_of(alloc, manner, viewing, keeper.schema()) {
            Ok(questions) => {
                self.seat(starter, viewing, keeper, questions)?;
                self.stage = Stage::Begun;
                Ok(())
            }
            Err(Refused::OutOfMemory) => Err(Unstarted::Want(Want::Memory)),
            Err(fault) => {
                self.stage = Stage::Turned(fault);
                Ok(())
            }
        }
    }

    /// Starts a viewer for each question, by when their blocks are written.
    fn seat<'s, 'e: 's, G: Gate, R: Threads + Wait + Sync>(
        &mut self,
        starter: &Starter<'_, 's, 'e, R, G>,
        viewing: Viewing<&str>,
        keeper: &mut Keeper<H>,
        questions: Vec<Question>,
    ) -> Result<(), Unstarted>
    where
        H: 's,
        requires nobody { (self.old.audience.watches ≡ []) × (self.old.onlookers ≡ nobody) }
        requires many { length questions.items ≡ viewing.viewers }
        ensures same { keeper.new ≡ keeper.old }
        ensures attend { (manner : MannerValue) → AreAsked manner (schema_of keeper.old) viewing.entry.query.now questions.items →
            OnOk result (Attend manner (viewing_of viewing.entry) (Some keeper.old) Stage.Begun self.new.audience.watches self.new.onlookers) }
        ensures turns { OnOk result
            (turns_by viewing.entry.showing (viewing_of viewing.entry) Stage.Begun self.new.onlookers ≡ first_turns (viewing_of viewing.entry)) }
    {
        match viewing.showing {
            Showing::Last => self.start_all(starter, viewing, keeper, questions),
            Showing::AsTheyCome => {
                send_all(starter, viewing, keeper, questions, &mut self.onlookers)
            }
        }
    }

    /// Starts a viewer for each question.
    fn start_all<'s, 'e: 's, G: Gate, R: Threads + Wait + Sync>(
        &mut self,
        starter: &Starter<'_, 's, 'e, R, G>,
        viewing: Viewing<&str>,
        keeper: &mut Keeper<H>,
        questions: Vec<Question>,
    ) -> Result<(), Unstarted>
    where
        H: 's,
        requires nobody { self.old.audience.watches ≡ [] }
        ensures same { keeper.new ≡ keeper.old }
        ensures others { self.new.onlookers ≡ self.old.onlookers }
        ensures many { OnOk result (length self.new.audience.watches ≡ length questions.items) }
        ensures started { (manner : MannerValue) → AreAsked manner (schema_of keeper.old) viewing.entry.query.now questions.items →
            OnOk result (AllByRecursion (IsStarted manner (viewing_of viewing.entry) keeper.old) self.new.audience.watches) }
    {
        for question in questions {
            let (question, viewer) = beside(viewer_of(keeper), question)?;
            self.audience
                .begin(starter, viewer, question, viewing.shots)?;
        }
        Ok(())
    }

    /// The blocks of viewers that came meanwhile, where they are shown as they come; else nothing. It waits for no report that goes
    /// on.
    pub fn come<'s, 'e: 's, G: Gate, R: Threads + Wait + Sync>(
        &mut self,
        setup: &SpeltSetup<'_, R, G>,
        starter: &Starter<'_, 's, 'e, R, G>,
        desk: &mut Option<Keeper<H>>,
    ) -> Result<Vec<u8>, Want>
    where
        H: 's,
        requires attended { HasAttended setup.now.manner.now (asked_of setup.now.viewing) desk.old self.old.stage self.old.audience.watches self.old.onlookers }
        ensures same { desk.new ≡ desk.old }
        ensures attended { OnOk result
            (HasAttended setup.now.manner.now (asked_of setup.now.viewing) desk.new self.new.stage self.new.audience.watches self.new.onlookers) }
        ensures came { (before : List (List ℕ)) → IsBehind (givens_of setup.now) before desk.old →
            IfOk result (λ text. MayShow (givens_of setup.now) (asked_of setup.now.viewing) before
            (turns_of (asked_of setup.now.viewing) self.old.stage self.old.onlookers)
            (turns_of (asked_of setup.now.viewing) self.new.stage self.new.onlookers) text.items) }
        ensures asked { IfErr result (λ _. HasViewers (asked_of setup.now.viewing)) }
    {
        let Some(viewing) = setup.viewing else {
            return Ok(Vec::new(setup.alloc));
        };
        let Showing::AsTheyCome = viewing.showing else {
            return Ok(Vec::new(setup.alloc));
        };
        let Stage::Begun = self.stage else {
            return Ok(Vec::new(setup.alloc));
        };
        let Some(keeper) = desk else {
            return Ok(Vec::new(setup.alloc));
        };
        come(setup, starter, viewing, keeper, &mut self.onlookers)
    }

    /// Writes what comes after the blocks of all lines: nothing, where a run asks for no viewers; else their blocks that are still
    /// to come, or what stands in place of all.
    pub fn write_tail<'s, 'e: 's, O: Out, G: Gate, R: Threads + Wait + Sync>(
        &mut self,
        setup: &SpeltSetup<'_, R, G>,
        starter: &Starter<'_, 's, 'e, R, G>,
        desk: &mut Option<Keeper<H>>,
        out: &mut O,
    ) -> Result<(), Ended>
    where
        H: 's,
        requires attended { HasAttended setup.now.manner.now (asked_of setup.now.viewing) desk.old self.old.stage self.old.audience.watches self.old.onlookers }
        requires faults { O.faults out.old + 1 < 2 ^ 64 }
        ensures tail { (hash : CellValue → ℕ) (on : OnRefusal) (before : List (List ℕ)) → IsBehind (givens_of setup.now) before desk.old →
            Delivers O.taken O.faults out.old out.new (IsRest hash (givens_of setup.now) on (asked_of setup.now.viewing) before []
            (turns_of (asked_of setup.now.viewing) self.old.stage self.old.onlookers) Through) result }
        ensures asked { IfErr result (λ _. HasViewers (asked_of setup.now.viewing)) }
    {
        let Some(viewing) = setup.viewing else {
            return Ok(());
        };
        let Some(keeper) = desk else {
            return write_refused(setup, out, Refused::NoTable);
        };
        match self.stage {
            Stage::Begun => self.write_begun(setup, starter, viewing, keeper, out),
            Stage::Turned(fault) => write_refused(setup, out, fault),
            Stage::Expected => unreachable!(),
        }
    }

    /// Waits for the viewers that were started, and writes their blocks that are still to come.
    fn write_begun<'s, 'e: 's, O: Out, G: Gate, R: Threads + Wait + Sync>(
        &mut self,
        setup: &SpeltSetup<'_, R, G>,
        starter: &Starter<'_, 's, 'e, R, G>,
        viewing: Viewing<&str>,
        keeper: &mut Keeper<H>,
        out: &mut O,
    ) -> Result<(), Ended>
    where
        H: 's,
        requires attended { HasAttended setup.now.manner.now (Some (viewing_of viewing)) (Some keeper.old)
            Stage.Begun self.old.audience.watches self.old.onlookers }
        requires faults { O.faults out.old + 1 < 2 ^ 64 }
        ensures tail { (hash : CellValue → ℕ) (on : OnRefusal) (before : List (List ℕ)) → Keeps (givens_of setup.now) before keeper.old →
            Delivers O.taken O.faults out.old out.new (IsRest hash (givens_of setup.now) on (Some (viewing_of viewing.entry)) before []
            (turns_of (Some (viewing_of viewing.entry)) Stage.Begun self.old.onlookers) Through) result }
    {
        match viewing.showing {
            Showing::Last => self.write_viewers(setup, viewing, keeper, out),
            Showing::AsTheyCome => {
                write_turns(setup, starter, viewing, keeper, &mut self.onlookers, out)
            }
        }
    }

    /// Waits for the viewers, one after another, and writes the blocks of each.
    fn write_viewers<O: Out, G: Gate, R: Threads + Wait + Sync>(
        &mut self,
        setup: &SpeltSetup<'_, R, G>,
        viewing: Viewing<&str>,
        keeper: &mut Keeper<H>,
        out: &mut O,
    ) -> Result<(), Ended>
        requires started { AllByRecursion (IsStarted setup.now.manner.now (viewing_of viewing) keeper.old) self.old.audience.watches }
        requires many { length self.old.audience.watches ≡ viewing.viewers }
        requires faults { O.faults out.old + 1 < 2 ^ 64 }
        ensures views { (givens : Givens) (before : List (List ℕ)) → Keeps givens before keeper.old →
            Delivers O.taken O.faults out.old out.new
            (AreViewers setup.now.manner.now (schema_of keeper.old) (editions givens before) (edition keeper.old)
            (viewing_of viewing.entry) 1 (length self.old.audience.watches)) result }
    {
        let answering = setup.answering();
        let mut number = 0u64;
        while let Some(watched) = self.audience.next(setup.rt) {
            let watcher = watched?;
            number += 1;
            write_viewer(
                &answering,
                setup.manner,
                viewing,
                keeper,
                watcher,
                number,
                out,
            )?;
        }
        Ok(())
    }
}

/// A viewer of the keeper's table.
pub(crate) fn viewer_of<H: KeyHash<Cell>>(keeper: &mut Keeper<H>) -> Result<Viewer<H>, Unstarted>
    ensures same { keeper.new ≡ keeper.old }
    ensures viewer { IfOk result (IsNewViewer keeper.old) }
{
    match keeper.viewer() {
        Ok(viewer) => Ok(viewer),
        Err(_) => Err(Unstarted::NotShown),
    }
}

/// The query's question for each viewer, or its first fault.
fn questions_of(
    alloc: Global,
    manner: &Manner,
    viewing: Viewing<&str>,
    schema: &Schema,
) -> Result<Vec<Question>, Refused>
    ensures many { IfOk result (λ questions. length questions.items ≡ viewing.entry.viewers) }
    ensures asked { IfOk result (λ questions. AreAsked manner.now schema.now viewing.entry.query.now questions.items) }
    ensures refused { IfErr result (IsRefused schema.now viewing.entry.query.now) }
{
    let mut questions = Vec::new(alloc);
    for _ in 0..viewing.viewers {
        questions.push(question_of(alloc, manner, viewing.query, schema)?)?;
    }
    Ok(questions)
}

/// The query's question, or its first fault.
fn question_of(
    alloc: Global,
    manner: &Manner,
    query: &str,
    schema: &Schema,
) -> Result<Question, Refused>
    ensures asked { IfOk result (IsAskedSo manner.now schema.now query.now) }
    ensures refused { IfErr result (IsRefused schema.now query.now) }
{
    let plan = read_plan(alloc, query, schema)?;
    Ok(manner.question(alloc, plan)?)
}

/// Tells the gate that the viewers are refused, and writes what stands in place of all their blocks.
fn write_refused<O: Out, R, G: Gate>(
    setup: &SpeltSetup<'_, R, G>,
    out: &mut O,
    fault: Refused,
) -> Result<(), Ended>
    requires { O.faults out.old + 1 < 2 ^ 64 }
    ensures { Ends O.taken O.faults out.old out.new (λ bytes. bytes ≡ viewers_refused setup.now.manner.now.form fault) ⊥ ⊥ result }
{
    setup.gate.refused_viewers(fault);
    write_refused_block(setup.alloc, setup.manner.form, out, fault)
}

/// Writes what stands in place of all blocks of viewers. It starts no thread and wants no viewer's place.
#[tactic(auto, using(report::specs::Laws::takes_nothing))]
fn write_refused_block<O: Out>(
    alloc: Global,
    form: Form,
    out: &mut O,
    fault: Refused,
) -> Result<(), Ended>
    requires { O.faults out.old + 1 < 2 ^ 64 }
    ensures { Ends O.taken O.faults out.old out.new (λ bytes. bytes ≡ viewers_refused form fault) ⊥ ⊥ result }
{
    let block = viewers_refused_block(alloc, form, fault)?;
    let Ok(()) = write_whole(out, block.as_slice()) else {
        return Err(Ended::WriteFailed);
    };
    Ok(())
}

/// Makes the last report of a viewer, and writes its blocks.
fn write_viewer<
    H: KeyHash<Cell> + KeyHash<Tuple> + Send + Sync,
    O: Out,
    G: Gate,
    R: Threads + Wait + Sync,
>(
    answering: &Answering<'_, R, G>,
    manner: &Manner,
    viewing: Viewing<&str>,
    keeper: &mut Keeper<H>,
    watcher: Watcher<H>,
    number: u64,
    out: &mut O,
) -> Result<(), Ended>
    requires own { IsOf keeper.old watcher.viewer }
    requires asked { IsAskedSo manner.now (schema_of keeper.old) viewing.query.now watcher.question }
    requires shots { length watcher.shots ≡ viewing.shots }
    requires faults { O.faults out.old + 1 < 2 ^ 64 }
    ensures same { keeper.new ≡ keeper.old }
    ensures sound { OnOk result (O.faults out.new ≡ O.faults out.old) }
    ensures views { (givens : Givens) (before : List (List ℕ)) → Keeps givens before keeper.old →
        Delivers O.taken O.faults out.old out.new
        (AreViews manner.now (schema_of keeper.old) (editions givens before) viewing.entry.query.now
        (edition keeper.old) number 0 viewing.entry.shots) result }
{
    let shots = watcher.finish(answering, keeper)?;
    let text = view_text(answering.alloc, manner.form, number, shots.as_slice())?;
    let Ok(()) = write_whole(out, text.as_slice()) else {
        return Err(Ended::WriteFailed);
    };
    Ok(())
}
