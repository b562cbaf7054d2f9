//! Gates, by which tests hold and watch a run, and by which a program tells of it.

use cells::Refused;

/// What a run tells of its steps, from any of its threads, which share the gate. A gate may wait before
/// it returns, and so holds the thread that called it there; what a run writes does not depend on its
/// gate. Each method does nothing unless an implementation says otherwise.
pub trait Gate: Sync {
    /// The work on the piece of this number, counted from 0, is about to begin: its rows are folded, or laid out as
    /// columns. Called by the worker that drew the piece, before it reads it.
    fn entered(&self, _piece: u64) {}

    /// The work on the piece of this number is done, or was given up for want of memory. Called by the worker
    /// that entered it.
    fn left(&self, _piece: u64) {}

    /// So many columns of the piece of this number were laid out, in one walk over its rows or one for each: none where they lay
    /// beside it. Called by each worker before it draws its first piece, for the pieces at which something is wanting and no other
    /// thread is found, and by the worker that has left the piece.
    fn laid_out(&self, _piece: u64, _columns: u64) {}

    /// The edition of this number, counted from 1, is the last published one now, and has so many rows. Called after each
    /// publish that is accepted, by the thread of the keeper.
    fn published(&self, _edition: u64, _rows: u64) {}

    /// The viewer of this number, counted from 1, has taken a snapshot of the edition and is about to report on it. Called
    /// by the viewer's thread.
    fn viewing(&self, _viewer: u64, _edition: u64) {}

    /// A list of so many parts is about to be loaded. Called by the thread of the keeper, before a part is read.
    fn loading(&self, _parts: u64) {}

    /// The part at this place of a list of parts, counted from 0, is about to be read. Called by the worker that
    /// drew the place.
    fn reading(&self, _place: u64) {}

    /// The part at this place was read: it has so many records after its header, up to the first faulty one. Called by the
    /// worker that drew the place.
    fn read(&self, _place: u64, _records: u64) {}

    /// A trie is about to be made of a run of the rows of a list of parts: of the first one, whose place is 0, or of the one in
    /// the middle, whose place is that of the middle of the list. Called by the thread that makes it.
    fn merging(&self, _place: u64) {}

    /// The report of the line of this number, counted from 1, has its text: it is on the edition of that number, which has so
    /// many rows, and has so many groups, which are its own rows. A report that no line asks for, as one of a viewer, has the
    /// line 0. Called by the thread that answers the report.
    fn reported(&self, _line: u64, _edition: u64, _rows: u64, _groups: u64) {}

    /// The line of this number, counted from 1, is refused for this fault; the line 0 is the script as a whole. Called once
    /// for each refused line, in their order, by the thread of the keeper, once the line's block is made and before it is
    /// handed on.
    fn refused(&self, _line: u64, _fault: Refused) {}

    /// The load of this line is refused, since the part of this number, counted from 1, has a faulty record: its number,
    /// counted from 1 after the header, which is record 0. Called in place of `refused`, and like it.
    fn refused_record(&self, _line: u64, _part: u64, _record: u64) {}

    /// What the viewers are asked is refused for this fault, so none of their reports is written. Called by the thread of
    /// the keeper after all lines, before the line that says so is handed on.
    fn refused_viewers(&self, _fault: Refused) {}
}

/// A gate that always stands open: it does nothing.
#[derive(Clone, Copy, Debug, PartialEq, Eq, Drop)]
pub struct Open;

impl Gate for Open {}
