//! Viewers whose blocks are written as they come.
ghost use Rattle.std.specs.Prelude.{◌≡◌, ◌+◌, ◌<◌, ◌^◌, ℕ, [], List, length, IfOk, IfSome, IsNone, OnOk};
ghost use Rattle.cells.specs.declared.cell.Cell.{Cell as CellValue};
ghost use Rattle.board.specs.Editions.{schema as schema_of};
ghost use Rattle.script.specs.Coming.{IsLastViewOf, TakesTurn, blocks_left};
ghost use Rattle.script.specs.Desks.{Keeps};
ghost use Rattle.script.specs.Endings.{Delivers};
ghost use Rattle.script.specs.Givens.{givens_of};
ghost use Rattle.script.specs.Turns.{AreBlocksBeside, ShowsNext, turns_from};
ghost use Rattle.script.specs.Viewers.{AreAsked, AreOnlooking, IsWaiting, ShowAll, nobody, turns_in, viewing_of};
ghost use Rattle.script.specs.declared.finish.Finish.TheVariants.{Through};
ghost use Rattle.script.specs.declared.manner.Manner.{Manner as MannerValue};
ghost use Rattle.script.specs.declared.on_refusal.OnRefusal.{OnRefusal};

use crate::block::view_text_of;
use crate::ended::Ended;
use crate::gallery::viewer_of;
use crate::owned::beside;
use crate::setup::SpeltSetup;
use crate::unstarted::Unstarted;
use crate::viewing::Viewing;
use board::Keeper;
use cells::{Cell, KeyHash, Tuple};
use crew::Gate;
use report::{Onlooker, Onlookers, Out, Question, Starter, Want, write_whole};
use std::sync::Wait;
use std::thread::Threads;

/// Sends a viewer of the keeper's table for each question. Their numbers count from 1.
pub(crate) fn send_all<
    's,
    'e: 's,
    H: KeyHash<Cell> + KeyHash<Tuple> + Send + Sync + 's,
    G: Gate,
    R: Threads + Wait + Sync,
>(
    starter: &Starter<'_, 's, 'e, R, G>,
    viewing: Viewing<&str>,
    keeper: &mut Keeper<H>,
    questions: Vec<Question>,
    onlookers: &mut Onlookers<H>,
) -> Result<(), Unstarted>
    requires nobody { onlookers.old ≡ nobody }
    ensures same { keeper.new ≡ keeper.old }
    ensures turns { OnOk result (turns_in onlookers.new ≡ turns_from 1 viewing.entry.shots (length questions.items)) }
    ensures sent { (manner : MannerValue) → AreAsked manner (schema_of keeper.old) viewing.entry.query.now questions.items →
        OnOk result (AreOnlooking manner (viewing_of viewing.entry) keeper.old onlookers.new) }
{
    let mut number = 0u64;
    for question in questions {
        number += 1;
        let (question, viewer) = beside(viewer_of(keeper), question)?;
        onlookers.send(
            starter,
            Onlooker::new(number, viewer, question, viewing.shots),
        )?;
    }
    Ok(())
}

/// The blocks of viewers that came back meanwhile. Who came back goes for its next report. It waits for no report that goes
/// on.
pub(crate) fn come<
    's,
    'e: 's,
    H: KeyHash<Cell> + KeyHash<Tuple> + Send + Sync + 's,
    G: Gate,
    R: Threads + Wait + Sync,
>(
    setup: &SpeltSetup<'_, R, G>,
    starter: &Starter<'_, 's, 'e, R, G>,
    viewing: Viewing<&str>,
    keeper: &mut Keeper<H>,
    onlookers: &mut Onlookers<H>,
) -> Result<Vec<u8>, Want>
    requires looking { AreOnlooking setup.now.manner.now (viewing_of viewing) keeper.old onlookers.old }
    ensures same { keeper.new ≡ keeper.old }
    ensures looking { OnOk result (AreOnlooking setup.now.manner.now (viewing_of viewing.entry) keeper.old onlookers.new) }
    ensures came { (before : List (List ℕ)) → Keeps (givens_of setup.now) before keeper.old →
        IfOk result (λ text. ShowAll (givens_of setup.now) (viewing_of viewing.entry) before (turns_in onlookers.old) (turns_in onlookers.new) text.items) }
{
    let mut text = Vec::new(setup.alloc);
    for _ in 0..onlookers.count() {
        if !onlookers.has_ended_one() {
            return Ok(text);
        }
        let block = next_block(setup, starter, viewing, keeper, onlookers)?;
        text.extend_from_slice(block.as_slice())?;
    }
    Ok(text)
}

/// Waits for the viewer that was sent first, and gives its block. It goes for its next report.
fn next_block<
    's,
    'e: 's,
    H: KeyHash<Cell> + KeyHash<Tuple> + Send + Sync + 's,
    G: Gate,
    R: Threads + Wait + Sync,
>(
    setup: &SpeltSetup<'_, R, G>,
    starter: &Starter<'_, 's, 'e, R, G>,
    viewing: Viewing<&str>,
    keeper: &mut Keeper<H>,
    onlookers: &mut Onlookers<H>,
) -> Result<Vec<u8>, Want>
    requires some { 0 < length onlookers.old.going }
    requires looking { AreOnlooking setup.now.manner.now (viewing_of viewing) keeper.old onlookers.old }
    ensures same { keeper.new ≡ keeper.old }
    ensures looking { OnOk result (AreOnlooking setup.now.manner.now (viewing_of viewing.entry) keeper.old onlookers.new) }
    ensures fewer { OnOk result (blocks_left (turns_in onlookers.new) + 1 ≡ blocks_left (turns_in onlookers.old)) }
    ensures next { (before : List (List ℕ)) → Keeps (givens_of setup.now) before keeper.old →
        IfOk result (λ text. ShowsNext (givens_of setup.now) (viewing_of viewing.entry) before (turns_in onlookers.old) (turns_in onlookers.new) text.items) }
{
    let Some(came) = onlookers.next(setup.rt) else {
        unreachable!();
    };
    let (onlooker, shot) = came?.shown(&setup.answering(), keeper)?;
    let text = view_text_of(setup.alloc, setup.manner.form, onlooker.number(), &shot);
    let (onlooker, block) = beside(text, onlooker)?;
    onlookers.send(starter, onlooker)?;
    Ok(block)
}

/// The last block of the viewer that waits first.
fn last_block<H: KeyHash<Cell> + KeyHash<Tuple> + Send + Sync, G: Gate, R: Threads + Wait + Sync>(
    setup: &SpeltSetup<'_, R, G>,
    viewing: Viewing<&str>,
    keeper: &mut Keeper<H>,
    onlooker: Onlooker<H>,
) -> Result<Vec<u8>, Want>
    requires waiting { IsWaiting setup.now.manner.now (viewing_of viewing) keeper.old onlooker }
    ensures same { keeper.new ≡ keeper.old }
    ensures last { (before : List (List ℕ)) → Keeps (givens_of setup.now) before keeper.old →
        IfOk result (λ text. IsLastViewOf (givens_of setup.now) (viewing_of viewing.entry) before onlooker text.items) }
{
    let number = onlooker.number();
    let shot = onlooker.finish(&setup.answering(), keeper)?;
    Ok(view_text_of(setup.alloc, setup.manner.form, number, &shot)?)
}

/// The next block of a viewer: of one that goes, which is waited for, or else the last block of one that waits. None where
/// nobody is left.
fn next_turn<
    's,
    'e: 's,
    H: KeyHash<Cell> + KeyHash<Tuple> + Send + Sync + 's,
    G: Gate,
    R: Threads + Wait + Sync,
>(
    setup: &SpeltSetup<'_, R, G>,
    starter: &Starter<'_, 's, 'e, R, G>,
    viewing: Viewing<&str>,
    keeper: &mut Keeper<H>,
    onlookers: &mut Onlookers<H>,
) -> Result<Option<Vec<u8>>, Want>
    requires looking { AreOnlooking setup.now.manner.now (viewing_of viewing) keeper.old onlookers.old }
    ensures same { keeper.new ≡ keeper.old }
    ensures looking { OnOk result (AreOnlooking setup.now.manner.now (viewing_of viewing.entry) keeper.old onlookers.new) }
    ensures fewer { IfOk result (λ block. IfSome block (λ _. blocks_left (turns_in onlookers.new) + 1 ≡ blocks_left (turns_in onlookers.old))) }
    ensures nobody { IfOk result (λ block. IsNone block → turns_in onlookers.old ≡ []) }
    ensures turn { (before : List (List ℕ)) → Keeps (givens_of setup.now) before keeper.old →
        IfOk result (λ block. IfSome block (λ text.
        TakesTurn (givens_of setup.now) (viewing_of viewing.entry) before (turns_in onlookers.old) (turns_in onlookers.new) text.items)) }
{
    if onlookers.count() > 0 {
        let block = next_block(setup, starter, viewing, keeper, onlookers)?;
        return Ok(Some(block));
    }
    let Some(onlooker) = onlookers.next_waiting() else {
        return Ok(None);
    };
    let block = last_block(setup, viewing, keeper, onlooker)?;
    Ok(Some(block))
}

/// Waits for the viewers, and writes the blocks that are still to come.
pub(crate) fn write_turns<
    's,
    'e: 's,
    H: KeyHash<Cell> + KeyHash<Tuple> + Send + Sync + 's,
    O: Out,
    G: Gate,
    R: Threads + Wait + Sync,
>(
    setup: &SpeltSetup<'_, R, G>,
    starter: &Starter<'_, 's, 'e, R, G>,
    viewing: Viewing<&str>,
    keeper: &mut Keeper<H>,
    onlookers: &mut Onlookers<H>,
    out: &mut O,
) -> Result<(), Ended>
    requires looking { AreOnlooking setup.now.manner.now (viewing_of viewing) keeper.old onlookers.old }
    requires faults { O.faults out.old + 1 < 2 ^ 64 }
    ensures views { (hash : CellValue → ℕ) (on : OnRefusal) (before : List (List ℕ)) → Keeps (givens_of setup.now) before keeper.old →
        Delivers O.taken O.faults out.old out.new
        (AreBlocksBeside hash (givens_of setup.now) on (viewing_of viewing.entry) before [] (turns_in onlookers.old) Through) result }
{
    while let Some(block) = next_turn(setup, starter, viewing, keeper, onlookers)? {
        let Ok(()) = write_whole(out, block.as_slice()) else {
            return Err(Ended::WriteFailed);
        };
    }
    Ok(())
}
