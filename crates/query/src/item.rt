//! The items of a select list.
ghost use Rattle.std.specs.Prelude.{◌≡◌};

use std::marker::Model;

/// The columns of a GROUPING, in the order of the text; a column may come twice. `C` stands for a column, as in [`Item`].
#[derive(Drop)]
pub struct GroupingColumns<C> {
    columns: Vec<C>,
}

impl<C> Model for GroupingColumns<C> {
    ghost use Rattle.std.specs.Prelude.{List};

    ghost Value = { List C };

    ghost view = { λ c. c.columns.items };
}

impl<C: Drop> GroupingColumns<C> {
    /// These columns.
    pub fn new(columns: Vec<C>) -> GroupingColumns<C>
        ensures { result ≡ columns.items }
    {
        GroupingColumns { columns }
    }

    /// The columns, in the order of the text.
    pub fn as_slice(&self) -> &[C]
        ensures { result.now ≡ self.now }
    {
        self.columns.as_slice()
    }
}

/// An item of a select list: a column, GROUPING of some columns, or a set function (ISO/IEC 9075-2:1999, 6.16; GROUPING of
/// several columns is feature T433 of ISO/IEC 9075-2:2016). `C` stands for a column: it is its name in a query, and its index
/// in a plan.
#[derive(Drop)]
pub enum Item<C> {
    /// A column alone.
    Column(C),
    /// `GROUPING(c, d)`: which of the columns are no part of the row's grouping set.
    Grouping(GroupingColumns<C>),
    /// `COUNT(*)`.
    CountRows,
    /// `COUNT(c)`: the rows where the column is not NULL.
    Count(C),
    /// `COUNT(DISTINCT c)`: the values of the column, NULL aside.
    CountDistinct(C),
    /// `SUM(c)`.
    Sum(C),
    /// `MIN(c)`.
    Min(C),
    /// `MAX(c)`.
    Max(C),
}
