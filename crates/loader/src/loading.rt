//! Lists of parts, which workers read side by side.
ghost use Rattle.std.specs.Prelude.{◌≡◌, ◌<◌, ◌≤◌, ◌+◌, IfOk, IsErrOf, length, map, slice_index_or, sum_by};
ghost use Rattle.std.specs.List.{AllZip};
ghost use Rattle.cells.specs.CellOrder.{cell_cmp};
ghost use Rattle.crew.specs.Limits.{piece_limit};
ghost use Rattle.crew.specs.Shares.{AreShared};
ghost use Rattle.trie.specs.Maps.{map_of};
ghost use Rattle.loader.specs.Limits.{listed_limit};
ghost use Rattle.loader.specs.Listed.{AreRead, IsFound, Lists};
ghost use Rattle.loader.specs.Loads.{Loads, LoadsTaken};
ghost use Rattle.loader.specs.Parts.{part_len, part_of, rows_of_parts};
ghost use Rattle.loader.specs.Pieces.{records_before, rows_of_pieces};
ghost use Rattle.loader.specs.Shards.{takes};
ghost use Rattle.loader.specs.declared.pieces.Piece.{Piece};
ghost use Rattle.cells.specs.Tables.{AreRowsOf};

use crate::fault::PartFault;
use crate::part::{Content, Counted, read_piece};
use crate::pieces::{Piece, piece_size, pieces_of};
use crate::shard::Shard;
use crate::shares::Shares;
use crate::tries::{Sources, trie_here, trie_of_shares};
use cells::{Cell, KeyHash, Schema};
use columns::RowTrie;
use crew::{Gate, Task, share_out};
use std::alloc::{AllocError, Global};
use std::marker::PhantomData;
use std::sync::Wait;
use std::thread::Threads;

/// Loads a list of parts: the rows of their records by their keys, as if all records were put one after another in
/// listed order, so that of a key's rows the last one stands.
///
/// A part is a CSV text, with its number. Its first record is the header, the names of the schema's columns in their
/// order and in whatever case; each record behind it spells a row. A part may be listed more than once. There are at
/// most [`MAX_PIECES`](crew::MAX_PIECES) places in the list, with at most [`MAX_LISTED_BYTES`](crate::MAX_LISTED_BYTES)
/// bytes together.
///
/// Several workers read a part in pieces where it has more than 2 MiB, and more than half of what is each worker's
/// share of all bytes. Pieces end where records do, wherever quotes stand. Any other part is one piece, as each is for
/// one worker. As many workers as the smaller of `workers`, taken as 1 at least and [`MAX_SEATS`](crew::MAX_SEATS) at
/// most, and the number of pieces read these, each worker in a thread of its own; what is read depends neither on their
/// number nor on which worker reads which piece. The gate is told of the list, and for each piece of the place of its
/// part, before the piece is read and after that. Where no record is faulty, a trie is then made of the rows, in two
/// runs where there are two pieces or more, or in as many as there are workers, if these are more. One worker makes one
/// run after another; more of them make a run each, in threads of their own. The gate is told of the first run before
/// it is made, as of place 0, and of the one in the middle, as of the middle of the list. This waits for all threads
/// that it starts, however it ends.
///
/// [`PartFault::NoWorker`] where a thread could not be started; otherwise [`PartFault::OutOfMemory`] where there was no
/// memory, here or for a worker; otherwise [`PartFault::Bad`] where a part has a faulty record, with the first listed
/// part that has one. All parts are read before that is looked at.
pub fn load<H: KeyHash<Cell> + Send + Sync, G: Gate, R: Threads + Wait>(
    rt: &R,
    alloc: Global,
    parts: &[(u64, &[u8])],
    schema: &Schema,
    workers: u64,
    gate: &G,
) -> Result<RowTrie<H>, PartFault>
    requires many { length parts.now ≤ piece_limit }
    requires bytes { sum_by part_len (map part_of parts.now) ≤ listed_limit }
    ensures loaded { Loads (rows_of_parts schema.now (map part_of parts.now)) result }
    ensures fits { IfOk result (λ trie. AreRowsOf schema.now (map_of cell_cmp trie)) }
{
    gate.loading(parts.len() as u64);
    let pieces = pieces_of(alloc, parts, piece_size(parts, workers))?;
    let shard = Shard::whole();
    load_pieces(
        rt,
        alloc,
        parts.len(),
        pieces.as_slice(),
        schema,
        &shard,
        workers,
        gate,
    )
}

/// [`load`] in the thread that calls: it reads one part after another, and then makes the trie. Nobody is told of that.
///
/// [`PartFault::OutOfMemory`] where there was no memory; otherwise [`PartFault::Bad`] where a part has a faulty record, with the
/// first listed part that has one. No thread is wanted.
pub fn load_here<H: KeyHash<Cell>>(
    alloc: Global,
    parts: &[(u64, &[u8])],
    schema: &Schema,
) -> Result<RowTrie<H>, PartFault>
    requires many { length parts.now ≤ piece_limit }
    ensures loaded { Loads (rows_of_parts schema.now (map part_of parts.now)) result }
    ensures fits { IfOk result (λ trie. AreRowsOf schema.now (map_of cell_cmp trie)) }
    ensures alone { IsErrOf result PartFault.NoWorker → ⊥ }
{
    let shard = Shard::whole();
    load_shard_here(alloc, parts, schema, &shard)
}

/// [`load_here`] of those rows alone whose keys belong to the shard. Any other row is let go as soon as its record is read. All
/// records are judged, so a faulty one is found and told as ever, whatever shard its row would be in.
///
/// [`PartFault::OutOfMemory`] where there was no memory; otherwise [`PartFault::Bad`] where a part has a faulty record, with the
/// first listed part that has one. No thread is wanted.
pub fn load_shard_here<H: KeyHash<Cell>>(
    alloc: Global,
    parts: &[(u64, &[u8])],
    schema: &Schema,
    shard: &Shard,
) -> Result<RowTrie<H>, PartFault>
    requires many { length parts.now ≤ piece_limit }
    ensures loaded { LoadsTaken (takes H.hash_of shard.now) (rows_of_parts schema.now (map part_of parts.now)) result }
    ensures fits { IfOk result (λ trie. AreRowsOf schema.now (map_of cell_cmp trie)) }
    ensures alone { IsErrOf result PartFault.NoWorker → ⊥ }
{
    let pieces = pieces_of(alloc, parts, piece_size(parts, 1))?;
    load_pieces_here(alloc, pieces.as_slice(), schema, shard)
}

/// The same of the pieces of the parts.
fn load_pieces_here<H: KeyHash<Cell>>(
    alloc: Global,
    pieces: &[Piece<'_>],
    schema: &Schema,
    shard: &Shard,
) -> Result<RowTrie<H>, PartFault>
    ensures loaded { LoadsTaken (takes H.hash_of shard.now) (rows_of_pieces schema.now 0 pieces.now) result }
    ensures fits { IfOk result (λ trie. AreRowsOf schema.now (map_of cell_cmp trie)) }
    ensures alone { IsErrOf result PartFault.NoWorker → ⊥ }
{
    let found = read_here::<H>(alloc, pieces, schema, shard)?;
    let shares = rows_of::<H>(alloc, pieces, schema, shard, found)?;
    Ok(trie_here(alloc, shares)?)
}

/// What the pieces hold of the shard, read one after another.
fn read_here<H: KeyHash<Cell>>(
    alloc: Global,
    pieces: &[Piece<'_>],
    schema: &Schema,
    shard: &Shard,
) -> Result<Vec<Found>, AllocError>
    ensures { IfOk result (λ all. AreRead H.hash_of (takes H.hash_of shard.now) schema.now pieces.now all.items) }
{
    let mut all = Vec::with_capacity(alloc, pieces.len())?;
    for piece in pieces {
        let place = all.len() as u64;
        let content = read_piece::<H>(alloc, piece, schema, shard)?;
        all.push(Found { place, content })?;
    }
    Ok(all)
}

/// Loads the rows of the shard from the pieces of so many parts.
///
/// [`PartFault::NoWorker`] where a thread could not be started, otherwise [`PartFault::OutOfMemory`] where there was no
/// memory, otherwise [`PartFault::Bad`] with the first listed part that has a faulty record.
fn load_pieces<'a, H: KeyHash<Cell> + Send + Sync, G: Gate, R: Threads + Wait>(
    rt: &R,
    alloc: Global,
    parts: usize,
    pieces: &'a [Piece<'a>],
    schema: &'a Schema,
    shard: &'a Shard,
    workers: u64,
    gate: &'a G,
) -> Result<RowTrie<H>, PartFault>
    requires { length pieces.now ≤ piece_limit }
    ensures loaded { LoadsTaken (takes H.hash_of shard.now) (rows_of_pieces schema.now 0 pieces.now) result }
    ensures fits { IfOk result (λ trie. AreRowsOf schema.now (map_of cell_cmp trie)) }
{
    let reading = Reading {
        pieces,
        schema,
        shard,
        gate,
        hash: PhantomData::<H>,
    };
    let given = share_out(rt, alloc, pieces.len() as u64, workers, &reading)?;
    let found = in_order::<H>(alloc, pieces, schema, shard, given)?;
    let shares = rows_of::<H>(alloc, pieces, schema, shard, found)?;
    let sources = Sources {
        parts,
        pieces: pieces.len(),
    };
    trie_of_shares(rt, alloc, shares, sources, workers, gate)
}

/// The work on pieces of parts: each worker reads those whose places it draws.
#[derive(Drop)]
struct Reading<'a, G, H> {
    pieces: &'a [Piece<'a>],
    schema: &'a Schema,
    shard: &'a Shard,
    gate: &'a G,
    hash: PhantomData<H>,
}

impl<'a, G, H> Reading<'a, G, H> {
    /// The piece at the place.
    fn piece(&self, place: u64) -> &'a Piece<'a>
        requires { place < length self.now.pieces.now }
        ensures { (other : Piece) → result.now ≡ slice_index_or self.now.pieces.now place other }
    {
        &self.pieces[place as usize]
    }
}

/// What was found at a place of the pieces.
#[derive(Drop)]
struct Found {
    place: u64,
    content: Content,
}

impl<'a, G: Gate, H: KeyHash<Cell> + Send + Sync> Task for Reading<'a, G, H> {
    ghost use Rattle.std.specs.Prelude.{length};
    ghost use Rattle.std.specs.List.{AllZip};
    ghost use Rattle.loader.specs.Listed.{IsFound};
    ghost use Rattle.loader.specs.Shards.{takes};

    type Made = Vec<Found>;

    ghost count = { λ task. length task.pieces.now };

    ghost makes = { λ task places made. AllZip (IsFound H.hash_of (takes H.hash_of task.shard.now) task.schema.now task.pieces.now) places made.items };

    fn begin(&self, alloc: Global) -> Result<Vec<Found>, AllocError> {
        Ok(Vec::new(alloc))
    }

    fn take(&self, alloc: Global, made: &mut Vec<Found>, place: u64) -> Result<(), AllocError> {
        let piece = self.piece(place);
        self.gate.reading(piece.place);
        // A faulty record is a result as any other, so that the pieces at all places are read.
        let content = read_piece::<H>(alloc, piece, self.schema, self.shard)?;
        self.gate.read(piece.place, records_in(&content));
        Ok(made.push(Found { place, content })?)
    }
}

/// How many records of a piece were read that are not faulty.
fn records_in(content: &Content) -> u64 {
    match content {
        Ok(rows) => rows.count,
        Err(number) => number.saturating_sub(1),
    }
}

/// What all workers found, in the order of the places.
fn in_order<H: KeyHash<Cell>>(
    alloc: Global,
    pieces: &[Piece<'_>],
    schema: &Schema,
    shard: &Shard,
    given: Vec<Vec<Found>>,
) -> Result<Vec<Found>, AllocError>
    requires { AreShared (λ places found. AllZip (IsFound H.hash_of
        (takes H.hash_of shard.now) schema.now pieces.now) places found.items) (length pieces.now) given.items }
    ensures { IfOk result (λ all. AreRead H.hash_of (takes H.hash_of shard.now) schema.now pieces.now all.items) }
{
    let mut all = Vec::new(alloc);
    for mut found in given {
        all.append(&mut found)?;
    }
    all.sort_by_key(|found| found.place)?;
    Ok(all)
}

/// The rows of all pieces that the shard takes, those of one piece behind those of another, or the first listed part that has
/// a faulty record.
fn rows_of<H: KeyHash<Cell>>(
    alloc: Global,
    pieces: &[Piece<'_>],
    schema: &Schema,
    shard: &Shard,
    found: Vec<Found>,
) -> Result<Shares, PartFault>
    requires { AreRead H.hash_of (takes H.hash_of shard.now) schema.now pieces.now found.items }
    ensures { Lists H.hash_of (takes H.hash_of shard.now) schema.now (rows_of_pieces schema.now 0 pieces.now) result }
{
    let mut rows = Shares::new(alloc)?;
    let mut count = 0;
    for (piece, found) in pieces.iter().zip(found) {
        let Found { content, .. } = found;
        let before = records_before(piece, count);
        match content {
            Ok(own) => {
                count = sum_of(before, own.count)?;
                rows.append(own.rows)?;
            }
            Err(number) => {
                return Err(PartFault::Bad {
                    part: piece.part,
                    entry: sum_of(before, number)?,
                });
            }
        }
    }
    Ok(rows)
}

/// How many records stand behind the header of its part and before this piece, where so many stand there before the end
/// of the piece in front of it.
fn records_before(piece: &Piece<'_>, count: u64) -> u64
    ensures { result ≡ records_before piece.now count }
{
    if piece.first { 0 } else { count }
}

/// The sum of two counts of records. No memory holds so many that they have none.
fn sum_of(before: u64, own: u64) -> Result<u64, AllocError>
    ensures { IfOk result (λ sum. sum ≡ before + own) }
{
    let Some(sum) = before.checked_add(own) else {
        return Err(AllocError);
    };
    Ok(sum)
}
