//! The blocks of lines: shapes, refusals, and reports, whose answers are still to come.
ghost use Rattle.std.specs.Prelude.{◌≡◌, ◌++◌, IfOk, IsErr, OnOk};
ghost use Rattle.std.specs.FinMap.{keys};
ghost use Rattle.std.specs.List.{flat_map};
ghost use Rattle.trie.specs.Shapes.{shape_of};
ghost use Rattle.script.specs.Blocks.{is_refused, quiet};
ghost use Rattle.script.specs.Spelling.{opening, refusal, shape_text, viewers_refused};
ghost use Rattle.script.specs.Viewers.{view_block};
ghost use Rattle.script.specs.declared.fault.Fault.TheVariants.{Line};

use crate::fault::Fault;
use crate::manner::Manner;
use crate::setup::SpeltSetup;
use crate::spelling;
use board::Snapshot;
use cells::{Cell, KeyHash, Refused};
use crew::Gate;
use forms::Form;
use report::{Question, Shot};
use std::alloc::{AllocError, Global};
use trie::Prefix;

/// What a line gives: its block, or what its report asks.
#[derive(Drop)]
pub enum Block<H: KeyHash<Cell>> {
    /// The block of an accepted line, which may be no text at all.
    Text(Vec<u8>),
    /// That of a refused one.
    Refusal(Vec<u8>),
    Report(Asked<H>),
}

impl<H: KeyHash<Cell>> Block<H> {
    /// What a line gives that writes nothing where it is accepted.
    pub fn quiet(text: Vec<u8>) -> Block<H>
        ensures { result ≡ quiet text }
    {
        if text.is_empty() {
            return Block::Text(text);
        }
        Block::Refusal(text)
    }

    /// Whether the line is refused.
    pub fn is_refused(&self) -> bool
        ensures { result ≡ is_refused self.now }
    {
        match self {
            Block::Text(_) => false,
            Block::Refusal(_) => true,
            Block::Report(_) => false,
        }
    }
}

/// A report that is still to be answered: how its block begins, the edition that stood published at its line, and
/// what is asked of it, whose plan was checked for its table.
#[derive(Drop)]
pub struct Asked<H: KeyHash<Cell>> {
    pub opening: Vec<u8>,
    pub snapshot: Snapshot<H>,
    pub question: Question,
}

/// The block of a shape of the edition.
pub fn shape_block<H: KeyHash<Cell>>(
    alloc: Global,
    manner: &Manner,
    last: &Snapshot<H>,
    number: u64,
) -> Result<Vec<u8>, AllocError>
    ensures { IfOk result (λ block. block.items ≡ shape_text manner.now number last.now.number (shape_of H.hash_of (keys last.now.rows))) }
{
    let shape = last.root().shape()?;
    let block = shape_lines(alloc, manner, number, last.edition(), shape.as_slice());
    drop(shape);
    block
}

/// The text of a shape: its opening, and what is said of each prefix.
fn shape_lines(
    alloc: Global,
    manner: &Manner,
    number: u64,
    edition: u64,
    shape: &[(Prefix, u64)],
) -> Result<Vec<u8>, AllocError>
    ensures { IfOk result (λ text. text.items ≡ shape_text manner.now number edition shape.now) }
{
    let mut text = spelling::opening(alloc, manner, number, edition)?;
    spelling::push_shape(manner.form, &mut text, shape)?;
    Ok(text.into_bytes())
}

/// The block of a refused line. Want of memory is no refusal of a line: it ends the run.
pub fn refusal_block(
    alloc: Global,
    form: Form,
    number: u64,
    fault: Fault,
) -> Result<Vec<u8>, AllocError>
    ensures block { IfOk result (λ block. block.items ≡ refusal form number fault) }
    ensures memory { fault ≡ Line Refused.OutOfMemory → IsErr result }
{
    if fault == Fault::Line(Refused::OutOfMemory) {
        return Err(AllocError);
    }
    let text = spelling::refusal(alloc, form, number, fault)?;
    Ok(text.into_bytes())
}

/// The block of a refused line, as [`refusal_block`] makes it. The gate is told of the refusal once the block is made.
pub fn refuse<R, G: Gate>(
    setup: &SpeltSetup<'_, R, G>,
    number: u64,
    fault: Fault,
) -> Result<Vec<u8>, AllocError>
    ensures block { IfOk result (λ block. block.items ≡ refusal setup.now.manner.now.form number fault) }
    ensures memory { fault ≡ Line Refused.OutOfMemory → IsErr result }
{
    let block = refusal_block(setup.alloc, setup.manner.form, number, fault)?;
    fault.tell(number, setup.gate);
    Ok(block)
}

/// How a report's block begins.
pub fn report_opening(
    alloc: Global,
    manner: &Manner,
    number: u64,
    edition: u64,
) -> Result<Vec<u8>, AllocError>
    ensures { IfOk result (λ text. text.items ≡ opening manner.now number edition) }
{
    let text = spelling::opening(alloc, manner, number, edition)?;
    Ok(text.into_bytes())
}

/// What stands in place of all blocks of viewers.
pub fn viewers_refused_block(
    alloc: Global,
    form: Form,
    fault: Refused,
) -> Result<Vec<u8>, AllocError>
    ensures { IfOk result (λ text. text.items ≡ viewers_refused form fault) }
{
    let text = spelling::viewers_refused(alloc, form, fault)?;
    Ok(text.into_bytes())
}

/// The blocks of a viewer: for each of its reports the heading, and then the text.
pub fn view_text(
    alloc: Global,
    form: Form,
    viewer: u64,
    shots: &[Shot],
) -> Result<Vec<u8>, AllocError>
    ensures { IfOk result (λ text. text.items ≡ flat_map (view_block form viewer) shots.now) }
{
    let mut text = Vec::new(alloc);
    for shot in shots {
        push_view(alloc, form, &mut text, viewer, shot)?;
    }
    Ok(text)
}

/// The block of a viewer with one of its reports: its heading, and then the text.
pub fn view_text_of(
    alloc: Global,
    form: Form,
    viewer: u64,
    shot: &Shot,
) -> Result<Vec<u8>, AllocError>
    ensures { IfOk result (λ text. text.items ≡ view_block form viewer shot.now) }
{
    let mut text = Vec::new(alloc);
    push_view(alloc, form, &mut text, viewer, shot)?;
    Ok(text)
}

/// The text with a report of the viewer behind it, under its heading.
fn push_view(
    alloc: Global,
    form: Form,
    text: &mut Vec<u8>,
    viewer: u64,
    shot: &Shot,
) -> Result<(), AllocError>
    ensures { OnOk result (text.new.items ≡ text.old.items ++ view_block form viewer shot.now) }
{
    let heading = spelling::view_heading(alloc, form, viewer, shot.edition)?;
    text.extend_from_slice(heading.as_bytes())?;
    text.extend_from_slice(shot.text.as_slice())
}
