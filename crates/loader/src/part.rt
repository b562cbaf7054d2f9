//! One part, or a piece of one: a header, if it is the first piece, and a row for each record behind it.
ghost use Rattle.std.specs.Prelude.{◌+◌, ◌<◌, ◌^◌, length, IfOk};
ghost use Rattle.loader.specs.Loads.{IsContent, ReadsPart};
ghost use Rattle.loader.specs.Parts.{rows_from};
ghost use Rattle.loader.specs.Pieces.{rows_of_piece};
ghost use Rattle.loader.specs.Records.{records_of};
ghost use Rattle.loader.specs.Shards.{takes};

use crate::header::is_header;
use crate::pieces::Piece;
use crate::record::read_row;
use crate::shard::Shard;
use crate::shares::Spread;
use cells::{Cell, KeyHash, Refused, Schema};
use csv::ByteRecord;
use records::{Records, fields};
use std::alloc::{AllocError, Global};

/// The rows of records that a shard takes, each beside its key, spread over shares, and how many the records are.
#[derive(Drop)]
pub(crate) struct Counted {
    pub rows: Spread,
    pub count: u64,
}

/// What a piece of a part holds: the rows of its records that a shard takes, or the number of its first faulty record. Records
/// are numbered from 1 on, and the header, which stands in the first piece alone, is record 0.
pub(crate) type Content = Result<Counted, u64>;

/// Reads a piece of a part: the first one as a part, and a later one as records with no header before them.
///
/// The only error is that a growth was refused.
pub(crate) fn read_piece<H: KeyHash<Cell>>(
    alloc: Global,
    piece: &Piece<'_>,
    schema: &Schema,
    shard: &Shard,
) -> Result<Content, AllocError>
    ensures { IfOk result (IsContent H.hash_of (takes H.hash_of shard.now) schema.now (rows_of_piece schema.now piece.now)) }
{
    if piece.first {
        read_part::<H>(alloc, piece.bytes, schema, shard)
    } else {
        read_later::<H>(alloc, piece.bytes, schema, shard)
    }
}

/// Reads a part, or the first piece of one. Its first faulty record is record 0 where it has no record at all, or its first
/// one is not the header; and else the first record behind it that spells no row of the schema.
///
/// The only error is that a growth was refused.
fn read_part<H: KeyHash<Cell>>(
    alloc: Global,
    bytes: &[u8],
    schema: &Schema,
    shard: &Shard,
) -> Result<Content, AllocError>
    ensures { IfOk result (ReadsPart H.hash_of (takes H.hash_of shard.now) schema.now bytes.now) }
{
    let mut records = Records::new(alloc, bytes, b',');
    let mut record = ByteRecord::new(alloc);
    if !records.next(&mut record)? {
        return Ok(Err(0));
    }
    let header = fields(alloc, &record)?;
    if !is_header(schema.columns(), header.as_slice()) {
        return Ok(Err(0));
    }
    read_rows::<H>(alloc, records, schema, shard)
}

/// Reads records that stand behind others of their part, from 1 on.
fn read_later<H: KeyHash<Cell>>(
    alloc: Global,
    bytes: &[u8],
    schema: &Schema,
    shard: &Shard,
) -> Result<Content, AllocError>
    ensures { IfOk result (IsContent H.hash_of (takes H.hash_of shard.now) schema.now (rows_from schema.now 1 (records_of bytes.now))) }
{
    read_rows::<H>(alloc, Records::new(alloc, bytes, b','), schema, shard)
}

/// The rows of the records that are left and that the shard takes, or the number of the first faulty one, whatever shard its
/// row would be in. The records are numbered from 1 on, those of other shards too.
fn read_rows<H: KeyHash<Cell>>(
    alloc: Global,
    mut records: Records<'_>,
    schema: &Schema,
    shard: &Shard,
) -> Result<Content, AllocError>
    requires { length records + 1 < 2 ^ 64 }
    ensures { IfOk result (IsContent H.hash_of (takes H.hash_of shard.now) schema.now (rows_from schema.now 1 records.entry)) }
{
    let mut rows = Spread::new(alloc)?;
    let mut record = ByteRecord::new(alloc);
    let mut number = 1;
    while records.next(&mut record)? {
        let row = match read_row(alloc, &record, schema) {
            Ok(row) => row,
            Err(Refused::OutOfMemory) => return Err(AllocError),
            Err(_) => return Ok(Err(number)),
        };
        rows.put_taken::<H>(alloc, shard, row)?;
        number += 1;
    }
    Ok(Ok(Counted {
        rows,
        count: number - 1,
    }))
}
