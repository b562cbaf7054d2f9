//! Runs a script: one keeper, line after line, and a block of output for each line that has one.
ghost use Rattle.std.specs.Prelude.{◌≡◌, ◌⊎◌, ◌+◌, ◌<◌, ◌≤◌, ◌^◌, [], length, Err, IfErr, IfOk, IsErrOf, MatchResult, Ok, OnOk};
ghost use Rattle.std.specs.Str.Lines.{lines};
ghost use Rattle.report.specs.Waiting.{AwaitsThen, WritesOn};
ghost use Rattle.report.specs.declared.unwritten.Unwritten.TheVariants as unwritten;
ghost use Rattle.report.specs.declared.want.Want.TheVariants as want;
ghost use Rattle.script.specs.Blocks.{IsAsked, WillBe};
ghost use Rattle.script.specs.Endings.{AsksForWorkers, Delivers};
ghost use Rattle.script.specs.Givens.{givens, givens_in, givens_of};
ghost use Rattle.script.specs.Hows.{hash_of_choice};
ghost use Rattle.script.specs.Limits.{script_limit};
ghost use Rattle.script.specs.Output.{IsOutput};
ghost use Rattle.script.specs.Desks.{IsFresh};
ghost use Rattle.script.specs.Tails.{IsLive};
ghost use Rattle.script.specs.Viewers.{EndsBy, EndsEarly, EndsLines, EndsRun, GoesOverBeside, asked_of, nobody};
ghost use Rattle.script.specs.declared.stage.Stage.TheVariants as Stage;

use crate::block::{Asked, Block};
use crate::closing::Closing;
use crate::ended::Ended;
use crate::finish::Finish;
use crate::gallery::Gallery;
use crate::hash_choice::HashChoice;
use crate::how::How;
use crate::limits::{MAX_PARTS, MAX_SCRIPT_BYTES};
use crate::lines::lines_of;
use crate::manner::Manner;
use crate::on_refusal::OnRefusal;
use crate::owned::beside;
use crate::setup::{Setup, SpeltSetup};
use crate::step::{Line, execute};
use crate::too_much::refuse_whole;
use crate::viewing::{Showing, Viewing};
use board::Keeper;
use cells::{Cell, Fnv, KeyHash, Plain, Tuple};
use crew::Gate;
use forms::Form;
use query::{a_text_has_one_answer, each_text_has_an_answer};
use report::{Backlog, Out, Starter, Unwritten};
use std::alloc::Global;
use std::sync::Wait;
use std::thread::{self, Threads};

/// Runs a script. Where it answers Ok, the bytes that the writer took in the call are the script's output:
/// each report is that of the rows that stood published at its line, whatever later lines change.
///
/// Where it ends early, a beginning of its output was taken: [`Ended::OutOfMemory`] where a growth was
/// refused, [`Ended::NoWorker`] where the thread of a report or of a worker could not be started, which a script that
/// asks for no report and loads no part does not meet, and [`Ended::WriteFailed`] where the writer failed in the call. A
/// script of more than 1,048,576 bytes and more than 64 parts are refused as a whole: the output is
/// `line 0 refused 15`. The parts are numbered from 1, in their order, for the `load` lines of the script.
///
/// `rt` starts a thread for each report, which is answered beside the lines that follow it, with at most
/// [`MAX_REPORTS`](report::MAX_REPORTS) under way at a time, and one for each worker of a report or a load. All of them
/// are joined before this returns, however the run ends. A report that has ended is written with the block of the next line at
/// the latest, once those before it are. `gate` is told of each publish, refusal and load by the thread that calls, of each
/// report by its own, of each piece of a report and of each listed part by the worker that drew it, and of runs of a load's rows
/// by the threads that make their tries.
///
/// What the table holds at the end is given back.
pub fn run<
    'a,
    H: KeyHash<Cell> + KeyHash<Tuple> + Send + Sync,
    O: Out,
    G: Gate,
    R: Threads + Wait + Sync,
>(
    rt: &'a R,
    alloc: Global,
    script: &[u8],
    parts: &'a [Vec<u8>],
    how: &'a How,
    gate: &'a G,
    out: &mut O,
) -> Result<(), Ended>
    requires { O.faults out.old + 1 < 2 ^ 64 }
    ensures delivered { Delivers O.taken O.faults out.old out.new (IsOutput H.KeyHash-1.hash_of (givens how.now.rows parts.now) script.now) result }
    ensures worker { IsErrOf result Ended.NoWorker → AsksForWorkers (givens how.now.rows parts.now) (lines script.now) }
    ensures place { IsErrOf result Ended.NotShown → ⊥ }
{
    let setup = Setup {
        rt,
        alloc,
        how,
        parts,
        viewing: None,
        on_refusal: OnRefusal::GoesOn,
        gate,
    };
    let manner = Manner::of(alloc, Form::Classic);
    run_through::<H, O, G, R>(&setup, &manner, script, out)
}

/// Runs a script with viewers beside it. Once a table is declared, `viewers` threads start, of which each takes a snapshot
/// and reports on it, `shots` times, while the script goes on. Where it answers Ok, the bytes that the writer took in the
/// call are the script's output, as of [`run`], and then a live tail: for each viewer the blocks of its reports, whose
/// editions never fall, and one more on the last edition. Where no table was declared or the query is refused, the tail is
/// the one line `viewers refused N`.
///
/// Where it ends early, a beginning of such bytes was taken: [`Ended::OutOfMemory`] where a growth was refused,
/// [`Ended::NoWorker`] where a thread could not be started, [`Ended::NotShown`] where a viewer's place was refused, and
/// [`Ended::WriteFailed`] where the writer failed in the call.
///
/// A table has places for 16 viewers, so a run with more of them ends with [`Ended::NotShown`] once a table is declared. All
/// threads are joined before this returns, however the run ends. The gate is told of each snapshot of a viewer by the
/// viewer's thread, and of all else as by [`run`].
pub fn live<
    'a,
    H: KeyHash<Cell> + KeyHash<Tuple> + Send + Sync,
    O: Out,
    G: Gate,
    R: Threads + Wait + Sync,
>(
    rt: &'a R,
    alloc: Global,
    script: &[u8],
    parts: &'a [Vec<u8>],
    how: &'a How,
    viewers: u64,
    shots: u64,
    query: &'a str,
    gate: &'a G,
    out: &mut O,
) -> Result<(), Ended>
    requires { O.faults out.old + 1 < 2 ^ 64 }
    ensures delivered { Delivers O.taken O.faults out.old out.new
        (IsLive H.KeyHash-1.hash_of (givens how.now.rows parts.now)
        (record { query = query.now; viewers = viewers; shots = shots; showing = Showing.Last }) script.now) result }
{
    let viewing = Viewing {
        query,
        viewers,
        shots,
        showing: Showing::Last,
    };
    let setup = Setup {
        rt,
        alloc,
        how,
        parts,
        viewing: Some(viewing),
        on_refusal: OnRefusal::GoesOn,
        gate,
    };
    let manner = Manner::of(alloc, Form::Classic);
    run_through::<H, O, G, R>(&setup, &manner, script, out)
}

/// [`run`] or [`live`], by what viewers are asked, with the hash of this choice, for a program that ends after it, however the
/// run ends: the table's memory is left to the system.
///
/// A run that stops at refusals ([`OnRefusal::Stops`]) is strict. Its last line is the first refused one: where it answers
/// [`Finish::Stopped`], the bytes that the writer took are the blocks of the lines up to that one, and nothing of viewers.
/// A script that is refused as a whole stops it, too. Where it answers [`Finish::Through`], no line was refused. Where it
/// ends early, a beginning of such bytes was taken.
///
/// Answers are told in the manner that is given. Its form is that of all that the run writes: what a report answers,
/// the headings of blocks, refusals, shapes, and what viewers report. Reports and shapes have headings where these are wanted,
/// and the rows of each report, of viewers, too, are so arranged; they are those of [`run`].
pub fn run_in<'a, O: Out, G: Gate, R: Threads + Wait + Sync>(
    setup: &Setup<'a, R, G>,
    manner: &'a Manner,
    hash: HashChoice,
    script: &[u8],
    out: &mut O,
) -> Result<Finish, Ended>
    requires { O.faults out.old + 1 < 2 ^ 64 }
    ensures by { EndsBy setup.now.on_refusal (hash_of_choice hash) O.taken O.faults out.old out.new
        (givens_in manner.now setup.now.how.now.rows setup.now.parts.now) (asked_of setup.now.viewing) script.now result }
    ensures goes_on { setup.now.on_refusal ≡ OnRefusal.GoesOn → EndsRun (hash_of_choice hash) O.taken O.faults out.old out.new
        (givens_in manner.now setup.now.how.now.rows setup.now.parts.now) (asked_of setup.now.viewing) script.now result }
{
    let closing = Closing::LeavesToSystem;
    match hash {
        HashChoice::Fnv => run_whole::<Fnv, O, G, R>(setup, manner, script, out, closing),
        HashChoice::Plain => run_whole::<Plain, O, G, R>(setup, manner, script, out, closing),
    }
}

/// [`run`] or [`live`], by what viewers are asked.
fn run_through<
    'a,
    H: KeyHash<Cell> + KeyHash<Tuple> + Send + Sync,
    O: Out,
    G: Gate,
    R: Threads + Wait + Sync,
>(setup: &Setup<'a, R, G>, manner: &'a Manner, script: &[u8], out: &mut O) -> Result<(), Ended>
    requires faults { O.faults out.old + 1 < 2 ^ 64 }
    requires goes_on { setup.now.on_refusal ≡ OnRefusal.GoesOn }
    ensures { EndsRun H.KeyHash-1.hash_of O.taken O.faults out.old out.new
        (givens_in manner.now setup.now.how.now.rows setup.now.parts.now) (asked_of setup.now.viewing) script.now result }
{
    match run_whole::<H, O, G, R>(setup, manner, script, out, Closing::GivesBack) {
        Ok(_) => Ok(()),
        Err(why) => Err(why),
    }
}

/// [`run_in`], with what becomes of the table at the end.
fn run_whole<
    'a,
    H: KeyHash<Cell> + KeyHash<Tuple> + Send + Sync,
    O: Out,
    G: Gate,
    R: Threads + Wait + Sync,
>(
    setup: &Setup<'a, R, G>,
    manner: &'a Manner,
    script: &[u8],
    out: &mut O,
    closing: Closing,
) -> Result<Finish, Ended>
    requires { O.faults out.old + 1 < 2 ^ 64 }
    ensures { EndsBy setup.now.on_refusal H.KeyHash-1.hash_of O.taken O.faults out.old out.new
        (givens_in manner.now setup.now.how.now.rows setup.now.parts.now) (asked_of setup.now.viewing) script.now result }
{
    let spelt = SpeltSetup {
        rt: setup.rt,
        alloc: setup.alloc,
        how: setup.how,
        parts: setup.parts,
        viewing: setup.viewing,
        on_refusal: setup.on_refusal,
        manner,
        gate: setup.gate,
    };
    if script.len() > MAX_SCRIPT_BYTES || setup.parts.len() > MAX_PARTS {
        return refuse_whole(&spelt, out);
    }
    run_lines::<H, O, G, R>(&spelt, script, out, closing)
}

/// Runs the lines of a script that is not too long. Reports and viewers run beside the lines: however the lines
/// end, those that are under way are joined here, and the keeper ends here.
fn run_lines<
    H: KeyHash<Cell> + KeyHash<Tuple> + Send + Sync,
    O: Out,
    G: Gate,
    R: Threads + Wait + Sync,
>(
    setup: &SpeltSetup<'_, R, G>,
    script: &[u8],
    out: &mut O,
    closing: Closing,
) -> Result<Finish, Ended>
    requires faults { O.faults out.old + 1 < 2 ^ 64 }
    requires short { length script.now ≤ script_limit }
    ensures { EndsLines setup.now.on_refusal H.KeyHash-1.hash_of O.taken O.faults out.old out.new
        (givens_of setup.now) (asked_of setup.now.viewing) (lines script.now) result }
{
    let (ended, _out) = thread::scope(
        thread::scope_env(),
        setup.rt,
        move |scope| -> (Result<Finish, Ended>, &mut O)
            requires { (O.faults out.now + 1 < 2 ^ 64) × (length script.now ≤ script_limit) }
            ensures same { result.1.ghost_name ≡ out.entry.ghost_name }
            ensures ends { EndsLines setup.entry.now.on_refusal H.KeyHash-1.hash_of O.taken O.faults out.entry.now result.1.now
                (givens_of setup.entry.now) (asked_of setup.entry.now.viewing) (lines script.entry.now) result.0 }
        {
            let starter = Starter {
                scope,
                answering: setup.answering(),
            };
            let mut desk: Option<Keeper<H>> = None;
            let mut backlog = Backlog::new(setup.alloc);
            let mut gallery = Gallery::new(setup.alloc);
            let ended = run_beside(
                setup,
                &starter,
                script,
                &mut desk,
                &mut backlog,
                &mut gallery,
                out,
            );
            backlog.join(setup.rt);
            gallery.join(setup.rt);
            closing.close(desk);
            (ended, out)
        },
    );
    ended
}

/// The same at a desk where there is no keeper yet. At an early end reports and viewers may still be under way.
fn run_beside<
    's,
    'e: 's,
    H: KeyHash<Cell> + KeyHash<Tuple> + Send + Sync + 's,
    O: Out,
    G: Gate,
    R: Threads + Wait + Sync,
>(
    setup: &SpeltSetup<'_, R, G>,
    starter: &Starter<'_, 's, 'e, R, G>,
    script: &[u8],
    desk: &mut Option<Keeper<H>>,
    backlog: &mut Backlog<H>,
    gallery: &mut Gallery<H>,
    out: &mut O,
) -> Result<Finish, Ended>
    requires faults { O.faults out.old + 1 < 2 ^ 64 }
    requires short { length script.now ≤ script_limit }
    requires fresh { IsFresh desk.old × (backlog.old ≡ record { reports = []; after = [] }) }
    requires nobody { (gallery.old.stage ≡ Stage.Expected) × (gallery.old.audience.watches ≡ []) × (gallery.old.onlookers ≡ nobody) }
    ensures { EndsLines setup.now.on_refusal H.KeyHash-1.hash_of O.taken O.faults out.old out.new
        (givens_of setup.now) (asked_of setup.now.viewing) (lines script.now) result }
{
    // The law by which what was written is a beginning of an output, where a report ends the run; it does
    // nothing.
    each_text_has_an_answer();
    let gone = go_over(setup, starter, script, desk, backlog, gallery, out)?;
    backlog.finish(setup.rt, out)?;
    match gone {
        Finish::Through => through(gallery.write_tail(setup, starter, desk, out)),
        Finish::Stopped => Ok(Finish::Stopped),
    }
}

/// Goes over the lines: does what each says, and adds what it gives to what is written or waits. A refused line is the last
/// where the run is strict.
fn go_over<
    's,
    'e: 's,
    H: KeyHash<Cell> + KeyHash<Tuple> + Send + Sync + 's,
    O: Out,
    G: Gate,
    R: Threads + Wait + Sync,
>(
    setup: &SpeltSetup<'_, R, G>,
    starter: &Starter<'_, 's, 'e, R, G>,
    script: &[u8],
    desk: &mut Option<Keeper<H>>,
    backlog: &mut Backlog<H>,
    gallery: &mut Gallery<H>,
    out: &mut O,
) -> Result<Finish, Ended>
    requires faults { O.faults out.old + 1 < 2 ^ 64 }
    requires short { length script.now ≤ script_limit }
    requires fresh { IsFresh desk.old × (backlog.old ≡ record { reports = []; after = [] }) }
    requires nobody { (gallery.old.stage ≡ Stage.Expected) × (gallery.old.audience.watches ≡ []) × (gallery.old.onlookers ≡ nobody) }
    ensures { MatchResult result
        (GoesOverBeside O.taken O.faults out.old out.new H.KeyHash-1.hash_of (givens_of setup.now) setup.now.on_refusal
        (asked_of setup.now.viewing) (lines script.now) desk.new backlog.new gallery.new.stage gallery.new.audience.watches gallery.new.onlookers)
        (EndsEarly setup.now.on_refusal H.KeyHash-1.hash_of O.taken O.faults out.old out.new
        (givens_of setup.now) (asked_of setup.now.viewing) (lines script.now)) }
{
    // The laws by which what was written is a beginning of an output, where a line ends the run; they do
    // nothing.
    a_text_has_one_answer();
    each_text_has_an_answer();
    let mut number = 0u64;
    for bytes in lines_of(script) {
        number += 1;
        let block = execute(setup, desk, Line { number, bytes })?;
        let (given, _attended) = beside(gallery.attend(setup, starter, desk), block)?;
        let stops = setup.on_refusal.stops(given.is_refused());
        add(starter, backlog, out, number, given)?;
        if stops {
            return Ok(Finish::Stopped);
        }
        if gallery.has_come() {
            let came = gallery.come(setup, starter, desk)?;
            backlog.say(out, came.as_slice())?;
        }
    }
    Ok(Finish::Through)
}

/// The finish of a run that went through, and then wrote its tail.
fn through(tail: Result<(), Ended>) -> Result<Finish, Ended>
    ensures ok { IfOk tail (λ _. result ≡ Ok Finish.Through) }
    ensures early { IfErr tail (λ e. result ≡ Err e) }
{
    match tail {
        Ok(()) => Ok(Finish::Through),
        Err(why) => Err(why),
    }
}

/// What a line gave comes behind all that waits, and what need not wait any more is written.
fn add<
    's,
    'e: 's,
    H: KeyHash<Cell> + KeyHash<Tuple> + Send + Sync + 's,
    O: Out,
    G: Gate,
    R: Threads + Wait + Sync,
>(
    starter: &Starter<'_, 's, 'e, R, G>,
    backlog: &mut Backlog<H>,
    out: &mut O,
    number: u64,
    block: Block<H>,
) -> Result<(), Unwritten>
    requires faults { O.faults out.old + 1 < 2 ^ 64 }
    ensures goes_on { WritesOn O.taken O.faults out.old out.new backlog.new (AwaitsThen backlog.old (WillBe block)) result }
    ensures asked { OnOk result (0 < length backlog.new.reports → (0 < length backlog.old.reports) ⊎ IsAsked block) }
    ensures worker { IsErrOf result (unwritten.Want want.Worker) → (0 < length backlog.old.reports) ⊎ IsAsked block }
{
    add_block(starter, backlog, out, number, block)?;
    backlog.write_ended(starter.answering.rt, out)
}

/// What a line gave comes behind all that waits: its text, or the report that it asks for, which is started.
fn add_block<
    's,
    'e: 's,
    H: KeyHash<Cell> + KeyHash<Tuple> + Send + Sync + 's,
    O: Out,
    G: Gate,
    R: Threads + Wait + Sync,
>(
    starter: &Starter<'_, 's, 'e, R, G>,
    backlog: &mut Backlog<H>,
    out: &mut O,
    number: u64,
    block: Block<H>,
) -> Result<(), Unwritten>
    requires faults { O.faults out.old + 1 < 2 ^ 64 }
    ensures goes_on { WritesOn O.taken O.faults out.old out.new backlog.new (AwaitsThen backlog.old (WillBe block)) result }
    ensures asked { OnOk result (0 < length backlog.new.reports → (0 < length backlog.old.reports) ⊎ IsAsked block) }
    ensures worker { IsErrOf result (unwritten.Want want.Worker) → IsAsked block }
{
    match block {
        Block::Text(text) => backlog.say(out, text.as_slice()),
        Block::Refusal(text) => backlog.say(out, text.as_slice()),
        Block::Report(asked) => {
            let Asked {
                opening,
                snapshot,
                question,
            } = asked;
            backlog.begin(starter, out, number, opening.as_slice(), snapshot, question)
        }
    }
}
