//! One published edition, for good.
ghost use Rattle.std.specs.Prelude.{◌≡◌, ◌+◌, ◌<◌, ◌≤◌, ◌^◌, IfOk};
ghost use Rattle.std.specs.FinMap.{empty, len};
ghost use Rattle.cells.specs.Tables.{AreRowsOf};
ghost use Rattle.board.specs.Editions.{IsEdition};
ghost use Rattle.board.specs.Limits.{row_limit};

use crate::root::Root;
use cells::{Cell, KeyHash, Schema};
use std::alloc::{AllocError, Global};
use std::marker::Model;
use std::sync::Arc;

/// A snapshot is one owner more of a published edition's rows, and of the columns beside their pieces, once these are made. It
/// keeps them whatever the keeper does later, and after the keeper has ended.
#[derive(Drop)]
pub struct Snapshot<H: KeyHash<Cell>> {
    edition: u64,
    root: Root<H>,
    schema: Arc<Schema>,
}

impl<H: KeyHash<Cell>> Model for Snapshot<H> {
    ghost use Rattle.board.specs.Editions.{Edition, IsEdition, coded_edition};

    ghost Value = { Edition };

    ghost coded = { coded_edition };

    ghost view = { λ s. record { number = s.edition; rows = s.root; schema = s.schema.value } };

    // Its rows are rows of its schema, and no more than a draft may have.
    ghost invariant = { λ s. IsEdition s.schema.value s.root };
}

impl<H: KeyHash<Cell>> Snapshot<H> {
    pub(crate) fn new(edition: u64, root: Root<H>, schema: Arc<Schema>) -> Snapshot<H>
        requires { IsEdition schema.value root }
        ensures { result ≡ record { number = edition; rows = root; schema = schema.value } }
    {
        Snapshot {
            edition,
            root,
            schema,
        }
    }

    /// Edition 0, which has no rows.
    pub(crate) fn first(alloc: Global, schema: Arc<Schema>) -> Snapshot<H>
        ensures { result ≡ record { number = 0; rows = empty; schema = schema.value } }
    {
        Snapshot::new(0, Root::empty(alloc), schema)
    }

    /// The edition behind this one, with those rows.
    pub(crate) fn next(&self, root: Root<H>) -> Result<Snapshot<H>, AllocError>
        requires number { self.now.number + 1 < 2 ^ 64 }
        requires rows { IsEdition self.now.schema root }
        ensures { IfOk result (λ s. s ≡ record { number = self.now.number + 1; rows = root; schema = self.now.schema }) }
    {
        let schema = self.share_schema()?;
        Ok(Snapshot::new(self.edition + 1, root, schema))
    }

    /// One owner more of the same edition. The only error is that it was refused.
    pub fn share(&self) -> Result<Snapshot<H>, AllocError>
        ensures { IfOk result (λ s. s ≡ self.now) }
    {
        let root = self.root.share()?;
        let schema = self.share_schema()?;
        Ok(Snapshot {
            edition: self.edition,
            root,
            schema,
        })
    }

    /// One owner more of the schema.
    pub(crate) fn share_schema(&self) -> Result<Arc<Schema>, AllocError>
        ensures { IfOk result (λ s. s.value ≡ self.now.schema) }
    {
        Arc::try_clone(&self.schema)
    }

    /// The edition's number.
    pub fn edition(&self) -> u64
        ensures { result ≡ self.now.number }
    {
        self.edition
    }

    /// The edition's rows, which are rows of its schema, and at most [`MAX_ROWS`](crate::MAX_ROWS).
    pub fn root(&self) -> &Root<H>
        ensures rows { result.now ≡ self.now.rows }
        ensures fit { AreRowsOf self.now.schema result.now }
        ensures few { len result.now ≤ row_limit }
    {
        &self.root
    }

    /// The schema of the table.
    pub fn schema(&self) -> &Schema
        ensures { result.now ≡ self.now.schema }
    {
        &self.schema
    }
}
