//! The rows of a table, and how they are read.
ghost use Rattle.std.specs.Prelude.{◌≡◌, ◌++◌, ◌∷◌, ◌⊎◌, ℕ, List, [], None, IfErr, IfOk, IfSome, IsErrOf, OnOk, length, map, option_map, slice_index_or};
ghost use Rattle.cells.specs.Fitting.{IsRowOf};
ghost use Rattle.cells.specs.Lent.{lent_cell};
ghost use Rattle.cells.specs.Packing.{IsShort};
ghost use Rattle.cells.specs.Refusals.{Answers};
ghost use Rattle.cells.specs.Records.{cell_of, row_of, text_cell};
ghost use Rattle.cells.specs.RowBytes.{row_bytes};
ghost use Rattle.cells.specs.RowForms.{form_bytes, form_count, form_key};
ghost use Rattle.cells.specs.RowReading.{HasRead};
ghost use Rattle.cells.specs.declared.cell.Cell.TheVariants.{Null};

use crate::integers::integer_of;
use crate::lent::LentCell;
use crate::lent_text::LentText;
use crate::limits::MAX_TEXT_BYTES;
use crate::near_bytes::NearBytes;
use crate::packing::{behind_first, cell_at, first_cell, pack};
use crate::refused::Refused;
use crate::row_bytes::RowBytes;
use crate::row_walk::RowWalk;
use crate::schema::{ColumnType, Schema};
use std::alloc::{AllocError, Global};
use std::marker::Model;

/// A row: a cell for each column, of the column's type or NULL, and no NULL at the key.
///
/// It holds its cells in bytes, and while these are few they lie in the row itself: who comes to the row has come to its
/// cells.
#[derive(Debug, Drop)]
pub struct Row {
    form: Form,
}

/// Where the bytes of the cells lie. A row takes 32 bytes, in both forms: beside the bytes, or beside the vector of them,
/// there is room for the place of the key and the number of the cells.
#[derive(Debug, Drop)]
enum Form {
    Near {
        key: u8,
        count: u8,
        bytes: NearBytes,
    },
    Far {
        key: u8,
        count: u8,
        bytes: Vec<u8>,
    },
}

impl Model for Row {
    ghost use Rattle.cells.specs.Values.{RowValue};

    ghost Value = { RowValue };

    ghost use Rattle.cells.specs.Packing.{Fills};
    ghost use Rattle.cells.specs.RowForms.{form_bytes, form_count, form_key, packed_row};

    ghost view = { λ r. packed_row (form_key r.form) (form_count r.form) (form_bytes r.form) };

    ghost invariant = { λ r. ∥ Fills (form_count r.form) (form_bytes r.form) ∥₁ };
}

impl Form {
    /// The bytes that were read, with the place of the key. No room stands empty behind bytes that lie elsewhere.
    fn of(key: u8, count: u8, bytes: RowBytes) -> Form
        ensures key { form_key result ≡ key }
        ensures count { form_count result ≡ count }
        ensures bytes { form_bytes result ≡ row_bytes bytes }
    {
        match bytes {
            RowBytes::Near(bytes) => Form::Near { key, count, bytes },
            RowBytes::Far(mut bytes) => {
                bytes.shrink_to_fit();
                Form::Far { key, count, bytes }
            }
        }
    }

    /// The place of the key.
    fn key(&self) -> usize
        ensures { result ≡ form_key self.now }
    {
        match self {
            Form::Near { key, .. } | Form::Far { key, .. } => *key as usize,
        }
    }

    /// How many cells there are.
    fn count(&self) -> usize
        ensures { result ≡ form_count self.now }
    {
        match self {
            Form::Near { count, .. } | Form::Far { count, .. } => *count as usize,
        }
    }

    /// The bytes of the cells.
    fn bytes(&self) -> &[u8]
        ensures { result.now ≡ form_bytes self.now }
    {
        match self {
            Form::Near { bytes, .. } => bytes.as_slice(),
            Form::Far { bytes, .. } => bytes.as_slice(),
        }
    }
}

impl Row {
    /// Reads the fields of a record, one for each column of the schema. An empty field is NULL. In an
    /// INT column a field is an optional `-` and one or more digits, with a value of 64 bits; in a
    /// TEXT column it is UTF-8 of at most [`MAX_TEXT_BYTES`] bytes.
    ///
    /// [`Refused::BadRecord`] exactly where the fields spell no row: another number of fields than
    /// columns, a field that is not UTF-8, an integer out of form or out of range, a text that is too
    /// long, a NULL key. [`Refused::OutOfMemory`] where a growth was refused.
    pub fn read(alloc: Global, fields: &[&[u8]], schema: &Schema) -> Result<Row, Refused>
        ensures exact { Answers Refused.BadRecord (row_of schema.now (map (λ f. f.now) fields.now)) result }
        ensures fits { IfOk result (IsRowOf schema.now) }
    {
        let mut row = RowReader::new(alloc, schema)?;
        for field in fields {
            row.read(field)?;
        }
        row.finish()
    }

    /// The cell at an index, lent; NULL where the row has none there.
    pub fn cell(&self, index: usize) -> LentCell<'_>
        ensures { lent_cell result ≡ slice_index_or self.now.cells index Null }
    {
        cell_at(self.form.bytes(), self.form.count(), index)
    }

    /// Its cells, lent by their indexes to who goes over several of them.
    pub fn walk(&self) -> RowWalk<'_>
        ensures { result ≡ self.now.cells }
    {
        RowWalk::new(self.form.bytes(), self.form.count())
    }

    /// How many cells it has.
    pub fn width(&self) -> usize
        ensures { result ≡ length self.now.cells }
    {
        self.form.count()
    }

    /// All cells, in the order of the columns, lent.
    pub fn cells(&self, alloc: Global) -> Result<Vec<LentCell<'_>>, AllocError>
        ensures { IfOk result (λ v. map lent_cell v.items ≡ self.now.cells) }
    {
        let count = self.form.count();
        let mut cells = Vec::with_capacity(alloc, count)?;
        let mut rest = self.form.bytes();
        for _i in 0..count {
            cells.push(first_cell(rest))?;
            rest = behind_first(rest);
        }
        Ok(cells)
    }

    /// The cell at the key, lent.
    pub fn key(&self) -> LentCell<'_>
        ensures { lent_cell result ≡ self.now.key }
    {
        self.cell(self.form.key())
    }
}

impl Clone for Row {
    ghost is_clone = { λ row copy. copy ≡ row };

    fn clone(&self) -> Result<Row, AllocError> {
        Ok(Row {
            form: self.form.clone()?,
        })
    }
}

impl Clone for Form {
    ghost is_clone = { λ form copy. (form_key copy ≡ form_key form) × ((form_count copy ≡ form_count form) × (form_bytes copy ≡ form_bytes form)) };

    fn clone(&self) -> Result<Form, AllocError> {
        match self {
            Form::Near { key, count, bytes } => Ok(Form::Near {
                key: *key,
                count: *count,
                bytes: bytes.clone()?,
            }),
            Form::Far { key, count, bytes } => Ok(Form::Far {
                key: *key,
                count: *count,
                bytes: bytes.clone()?,
            }),
        }
    }
}

/// A row that is read field by field, so that the fields of a record need not be gathered first.
#[derive(Drop)]
pub struct RowReader<'a> {
    alloc: Global,
    schema: &'a Schema,
    bytes: RowBytes,
    count: usize,
}

impl<'a> Model for RowReader<'a> {
    ghost use Rattle.std.specs.Prelude.{◌≤◌};
    ghost use Rattle.cells.specs.Limits.{column_limit};
    ghost use Rattle.cells.specs.RowReading.{RowStart};

    ghost Value = { RowStart };

    ghost use Rattle.cells.specs.Packing.{Fills, cells_in};
    ghost use Rattle.cells.specs.RowBytes.{row_bytes};

    ghost view = { λ r. record { table = r.schema.now; cells = cells_in r.count (row_bytes r.bytes) } };

    ghost invariant = { λ r. (r.count ≤ column_limit) × ∥ Fills r.count (row_bytes r.bytes) ∥₁ };
}

impl<'a> RowReader<'a> {
    /// A row of the schema's table, of which no field is read yet.
    pub fn new(alloc: Global, schema: &'a Schema) -> Result<RowReader<'a>, AllocError>
        ensures table { IfOk result (λ row. row.table ≡ schema.now) }
        ensures nothing { IfOk result (HasRead []) }
    {
        Ok(RowReader {
            alloc,
            schema,
            bytes: RowBytes::new(),
            count: 0,
        })
    }

    /// Reads the next field, as [`Row::read`] does.
    ///
    /// [`Refused::BadRecord`] where no row begins so, whatever fields follow; [`Refused::OutOfMemory`] where a
    /// growth was refused.
    pub fn read(&mut self, field: &[u8]) -> Result<(), Refused>
        ensures table { self.new.table ≡ self.old.table }
        ensures read { OnOk result ((fields : List (List ℕ)) → HasRead fields self.old → HasRead (fields ++ field.now ∷ []) self.new) }
        ensures bad { IsErrOf result Refused.BadRecord → (fields more : List (List ℕ)) → HasRead fields self.old →
            row_of self.old.table (fields ++ field.now ∷ more) ≡ None }
        ensures refused { IfErr result (λ e. (e ≡ Refused.BadRecord) ⊎ (e ≡ Refused.OutOfMemory)) }
    {
        if self.count >= self.schema.width() {
            return Err(Refused::BadRecord);
        }
        let kind = self.schema.columns()[self.count].kind;
        let Some(cell) = read_cell(kind, field) else {
            return Err(Refused::BadRecord);
        };
        pack(&mut self.bytes, self.alloc, cell)?;
        self.count += 1;
        Ok(())
    }

    /// The row of the fields that were read.
    ///
    /// [`Refused::BadRecord`] exactly where they spell no row: there are too few of them, or the key is NULL.
    pub fn finish(self) -> Result<Row, Refused>
        ensures exact { (fields : List (List ℕ)) → HasRead fields self.entry → Answers Refused.BadRecord (row_of self.entry.table fields) result }
        ensures fits { (fields : List (List ℕ)) → HasRead fields self.entry → IfOk result (IsRowOf self.entry.table) }
        ensures refused { IfErr result (λ e. e ≡ Refused.BadRecord) }
    {
        let RowReader {
            schema,
            bytes,
            count,
            ..
        } = self;
        let key = schema.key();
        if count < schema.width() {
            return Err(Refused::BadRecord);
        }
        if cell_at(bytes.as_slice(), count, key).is_null() {
            return Err(Refused::BadRecord);
        }
        Ok(Row {
            form: Form::of(key as u8, count as u8, bytes),
        })
    }
}

/// The cell that a field of a column spells, lent by the field.
#[tactic(auto, using(crate::proofs::RecordsLemmas::cell_of_text, crate::proofs::RecordsLemmas::cell_of_other))]
fn read_cell(kind: ColumnType, field: &[u8]) -> Option<LentCell<'_>>
    ensures exact { option_map lent_cell result ≡ cell_of kind field.now }
    ensures short { IfSome result (λ cell. IsShort (lent_cell cell)) }
{
    if field.is_empty() {
        return Some(LentCell::Null);
    }
    match str::from_utf8(field) {
        Ok(text) => read_text(kind, text),
        Err(_) => None,
    }
}

/// The cell that a text of a column spells, lent by the text.
fn read_text(kind: ColumnType, text: &str) -> Option<LentCell<'_>>
    ensures exact { option_map lent_cell result ≡ text_cell kind text.now }
    ensures short { IfSome result (λ cell. IsShort (lent_cell cell)) }
{
    match kind {
        ColumnType::Int => Some(LentCell::Int(integer_of(text)?)),
        ColumnType::Text if text.len() <= MAX_TEXT_BYTES => {
            Some(LentCell::Text(LentText::of(text.as_bytes())))
        }
        ColumnType::Text => None,
    }
}
