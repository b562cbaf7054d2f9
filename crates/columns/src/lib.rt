//! Columns of rows: their cells column by column, as small numbers that stand for the column's different cells, in the order
//! in which the rows are walked (Copeland and Khoshafian, A Decomposition Storage Model, 1985).
#![tactic(auto)]

mod cell_list;
mod code_column;
mod columns;
mod form;
mod named_column;
mod number_code;
mod piece_columns;
mod quick_hash;
mod span;

pub use code_column::CodeColumn;
pub use columns::Columns;
pub use number_code::number_cell;
pub use piece_columns::{PieceColumns, RowPiece, RowTrie};
pub use span::Span;
