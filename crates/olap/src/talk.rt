//! A session over the lines of a reader, each of which is answered before the next one is asked for.
ghost use Rattle.std.specs.Prelude.{◌≡◌, ◌⊎◌, ◌≤◌, [], IfOk, IfSome, Ok, OnErr, length};
ghost use Rattle.std.specs.Io.Buffered.{reader_remaining, writer_buffer, writer_contents};
ghost use Rattle.std.specs.Io.KnownBytes.{Keeps};
ghost use Rattle.script.specs.Endings.{BeginsToWrite, Writes};
ghost use Rattle.script.specs.Givens.{givens_in};
ghost use Rattle.script.specs.Hows.{hash_of_choice};
ghost use Rattle.script.specs.Limits.{part_limit, script_limit};
ghost use Rattle.script.specs.Output.{IsOutput};
ghost use Rattle.script.specs.Sessions.{unheard, was_refused};
ghost use Rattle.script.specs.Stops.{stops};
ghost use Rattle.olap.specs.Talks.{IsTalk, IsTalkSoFar};

use crate::close::{ENDED_EARLY, close_finished};
use crate::hearing::Hearing;
use crate::input::Unread;
use crate::replies::Replies;
use cells::{Cell, Fnv, KeyHash, Plain, Tuple};
use crew::Gate;
use script::{
    Ended, Finish, HashChoice, Heard, How, Manner, OnRefusal, Session,
    a_session_writes_the_output_of_its_lines,
};
use std::alloc::Global;
use std::io::{self, BufRead, BufReader, BufWriter, ErrorKind, Read, Write};
use std::mem;
use std::sync::Wait;
use std::thread::Threads;

/// A gate that is told, too, when a line is about to be asked for.
pub trait Prompt: Gate {
    /// All lines that came are answered, and the next one is asked for.
    fn ask(&self) {}
}

/// What a session is held with.
#[derive(Drop)]
pub struct Holding<'a, R, G> {
    /// What starts the threads of workers.
    pub rt: &'a R,
    /// Where memory comes from.
    pub alloc: Global,
    /// How reports are answered and parts are loaded.
    pub how: &'a How,
    /// The parts, which `load` lines number from 1.
    pub parts: &'a [Vec<u8>],
    /// The way in which answers are told.
    pub manner: &'a Manner,
    /// What the session does after a refused line.
    pub on_refusal: OnRefusal,
    /// What is told of its steps.
    pub gate: &'a G,
}

/// Why a session did not go on.
#[derive(Clone, Copy, Drop)]
enum Broken {
    /// A line ended it early, or what it wrote was not taken.
    Ended(Ended),
    /// The next line could not be read.
    Unread(Unread),
}

impl From<Ended> for Broken {
    fn from(why: Ended) -> Broken {
        Broken::Ended(why)
    }
}

impl From<io::Error> for Broken {
    fn from(error: io::Error) -> Broken {
        match Unread::from(error) {
            Unread::Memory => Broken::Ended(Ended::OutOfMemory),
            why => Broken::Unread(why),
        }
    }
}

/// Holds a session over the lines of the input, flushes what it wrote, and gives the program's status and the writer back: 0
/// where the input has ended and all its lines were answered, 1 where a strict session has ended after a refused line, and 3
/// where it ended early, which `err` tells: then the replies to its first lines were written, the last of which may be a
/// beginning. Each reply is handed on before the next line is asked for. The memory of its table is left to the system.
pub fn hold<I: Read + Drop, W: Write + Drop, E: Write, G: Prompt, R: Threads + Wait + Sync>(
    holding: &Holding<'_, R, G>,
    hash: HashChoice,
    input: I,
    out: BufWriter<W>,
    err: &mut E,
) -> (u8, BufWriter<W>)
    ensures status { (result.0 ≡ 0) ⊎ ((result.0 ≡ 1) ⊎ (result.0 ≡ 3)) }
    ensures written { result.0 ≡ 0 → Writes (IsTalk (I.remaining input) Finish.Through (hash_of_choice hash)
        (givens_in holding.now.manner.now holding.now.how.now.rows holding.now.parts.now) holding.now.on_refusal)
        (writer_contents W.contents out) (writer_contents W.contents result.1) }
    ensures stopped { result.0 ≡ 1 → Writes (IsTalk (I.remaining input) Finish.Stopped (hash_of_choice hash)
        (givens_in holding.now.manner.now holding.now.how.now.rows holding.now.parts.now) holding.now.on_refusal)
        (writer_contents W.contents out) (writer_contents W.contents result.1) }
    ensures output { result.0 ≡ 0 → length holding.now.parts.now ≤ part_limit → IfSome (I.remaining input) (λ script. length script ≤ script_limit
        → Writes (IsOutput (hash_of_choice hash) (givens_in holding.now.manner.now holding.now.how.now.rows holding.now.parts.now) script)
        (writer_contents W.contents out) (writer_contents W.contents result.1)) }
    ensures flushed { (result.0 ≡ 0) ⊎ (result.0 ≡ 1) → writer_buffer result.1 ≡ [] }
    ensures beginning { result.0 ≡ 3 → BeginsToWrite (IsTalkSoFar (I.remaining input) (hash_of_choice hash)
        (givens_in holding.now.manner.now holding.now.how.now.rows holding.now.parts.now) holding.now.on_refusal)
        (writer_contents W.contents out) (writer_contents W.contents result.1) }
{
    // The law by which what was written is the output of a script of the same lines; it does nothing.
    a_session_writes_the_output_of_its_lines();
    let mut replies = Replies::new(out);
    let talked = talk_by(holding, hash, input, &mut replies);
    let mut out = replies.into_inner();
    let status = close(talked, &mut out, err);
    (status, out)
}

/// Holds a session with the hash of this choice.
fn talk_by<I: Read + Drop, W: Write + Drop, G: Prompt, R: Threads + Wait + Sync>(
    holding: &Holding<'_, R, G>,
    hash: HashChoice,
    input: I,
    replies: &mut Replies<W>,
) -> Result<Finish, Broken>
    requires { replies.old.faults ≡ 0 }
    ensures finished { IfOk result (λ finish. Writes (IsTalk (I.remaining input) finish (hash_of_choice hash)
        (givens_in holding.now.manner.now holding.now.how.now.rows holding.now.parts.now) holding.now.on_refusal)
        (writer_contents W.contents replies.old.writer) (writer_contents W.contents replies.new.writer)) }
    ensures beginning { OnErr result (BeginsToWrite (IsTalkSoFar (I.remaining input) (hash_of_choice hash)
        (givens_in holding.now.manner.now holding.now.how.now.rows holding.now.parts.now) holding.now.on_refusal)
        (writer_contents W.contents replies.old.writer) (writer_contents W.contents replies.new.writer)) }
{
    match hash {
        HashChoice::Fnv => talk_over::<Fnv, I, W, G, R>(holding, input, replies),
        HashChoice::Plain => talk_over::<Plain, I, W, G, R>(holding, input, replies),
    }
}

/// Holds a session with keys of this hash. Where there is no memory for the reader, no line is heard.
fn talk_over<
    H: KeyHash<Cell> + KeyHash<Tuple> + Send + Sync,
    I: Read + Drop,
    W: Write + Drop,
    G: Prompt,
    R: Threads + Wait + Sync,
>(holding: &Holding<'_, R, G>, input: I, replies: &mut Replies<W>) -> Result<Finish, Broken>
    requires { replies.old.faults ≡ 0 }
    ensures finished { IfOk result (λ finish. Writes (IsTalk (I.remaining input) finish H.KeyHash-1.hash_of
        (givens_in holding.now.manner.now holding.now.how.now.rows holding.now.parts.now) holding.now.on_refusal)
        (writer_contents W.contents replies.old.writer) (writer_contents W.contents replies.new.writer)) }
    ensures beginning { OnErr result (BeginsToWrite (IsTalkSoFar (I.remaining input) H.KeyHash-1.hash_of
        (givens_in holding.now.manner.now holding.now.how.now.rows holding.now.parts.now) holding.now.on_refusal)
        (writer_contents W.contents replies.old.writer) (writer_contents W.contents replies.new.writer)) }
{
    let reader = buffered(holding.alloc, input)?;
    let mut hearing = Hearing::new(holding.alloc, reader);
    let mut session: Session<'_, H, R, G> = Session::new(
        holding.rt,
        holding.alloc,
        holding.parts,
        holding.how,
        holding.manner,
        holding.gate,
    );
    let talked = talk(
        &mut session,
        &mut hearing,
        replies,
        holding.on_refusal,
        holding.gate,
    );
    mem::forget(session);
    talked
}

/// The input, of which more than a byte is read at once.
fn buffered<I: Read + Drop>(alloc: Global, input: I) -> io::Result<BufReader<I>>
    ensures { IfOk result (λ reader. reader_remaining I.remaining reader ≡ I.remaining input) }
{
    Ok(BufReader::new(alloc, input)?)
}

/// Hears line after line, and answers each before the next one is asked for.
fn talk<
    'a,
    H: KeyHash<Cell> + KeyHash<Tuple> + Send + Sync,
    B: BufRead,
    W: Write + Drop,
    G: Prompt,
    R: Threads + Wait + Sync,
>(
    session: &mut Session<'a, H, R, G>,
    hearing: &mut Hearing<B>,
    replies: &mut Replies<W>,
    on_refusal: OnRefusal,
    gate: &G,
) -> Result<Finish, Broken>
    requires fresh { session.old ≡ unheard session.old.givens }
    requires sound { replies.old.faults ≡ 0 }
    ensures finished { IfOk result (λ finish. Writes (IsTalk
        (B.remaining hearing.old.reader) finish H.KeyHash-1.hash_of session.old.givens on_refusal) (writer_contents W.contents replies.old.writer)
        (writer_contents W.contents replies.new.writer)) }
    ensures beginning { OnErr result (BeginsToWrite (IsTalkSoFar (B.remaining hearing.old.reader) H.KeyHash-1.hash_of session.old.givens on_refusal)
        (writer_contents W.contents replies.old.writer) (writer_contents W.contents replies.new.writer)) }
{
    for _ in 0..u64::MAX {
        let Ok(()) = replies.flush() else {
            return Err(Broken::Ended(Ended::WriteFailed));
        };
        gate.ask();
        let is_line = hearing.next_line(replies)?;
        if !is_line {
            return Ok(Finish::Through);
        }
        let heard = session.line(hearing.line(), replies)?;
        if stops_after(on_refusal, heard) {
            return Ok(Finish::Stopped);
        }
    }
    // (No input has so many lines.)
    Err(Broken::from(io::Error::from(ErrorKind::Other)))
}

/// Whether a session stops after a line of which this became.
fn stops_after(on_refusal: OnRefusal, heard: Heard) -> bool
    ensures { result ≡ stops on_refusal (was_refused heard) }
{
    on_refusal == OnRefusal::Stops && heard == Heard::Refused
}

/// Flushes what a session wrote, however it ended, and gives the program's status: that of [`close_finished`], and 3 where a line
/// could not be read, which `err` tells.
fn close<W: Write + Drop, E: Write>(
    talked: Result<Finish, Broken>,
    out: &mut BufWriter<W>,
    err: &mut E,
) -> u8
    ensures status { (result ≡ 0) ⊎ ((result ≡ 1) ⊎ (result ≡ 3)) }
    ensures through { result ≡ 0 → talked ≡ Ok Finish.Through }
    ensures stopped { result ≡ 1 → talked ≡ Ok Finish.Stopped }
    ensures flushed { (result ≡ 0) ⊎ (result ≡ 1) → writer_buffer out.new ≡ [] }
    ensures kept { Keeps (writer_contents W.contents out.old) (writer_contents W.contents out.new) }
{
    match talked {
        Ok(finish) => close_finished(Ok(finish), out, err),
        Err(Broken::Ended(why)) => close_finished(Err(why), out, err),
        Err(Broken::Unread(why)) => {
            // All that was heard is answered: nothing waits.
            let _ = out.flush();
            let _ = writeln!(err, "olap: cannot read -: {why}");
            ENDED_EARLY
        }
    }
}
