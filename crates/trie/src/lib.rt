//! A persistent hash trie: a finite map whose versions share what they have in common.
//!
//! A hash is read as digits, the low digit first. The shape is canonical: a prefix of digits that
//! two keys or more share is a branch, a whole hash that two keys or more share is a bucket, and any
//! other key is a leaf. So the shape, like the list of entries, depends on the keys alone. The
//! structure is that of A. Prokopec, N. Bronson, P. Bagwell and M. Odersky, "Concurrent Tries with
//! Efficient Non-Blocking Snapshots", PPoPP 2012, with nodes that never change once they are made.
//!
//! A map may have places for summaries of its entries, beside each branch that has neither few nor very many of them: one
//! summary for all maps that share the branch.
#![tactic(auto)]

mod beside;
mod blend;
mod both;
mod bucket;
mod build;
mod cutting;
mod digits;
mod entries;
mod get;
mod laws;
mod meeting;
mod merge;
mod node;
mod put;
mod remove;
mod shape;
mod split;
mod ticks;
mod trie;
mod walk;

pub use beside::{Beside, EntriesOf, LEAST_SUMMED, MOST_SUMMED, Nothing, Summary, Summed};
pub use blend::{Blend, Later};
pub use cutting::{Cutting, MAX_DEPTH};
pub use laws::{
    a_map_has_its_entries, a_map_has_the_shape_of_its_keys, entries_are_a_map, entries_still_rise,
    keys_decide_the_shape, pieces_are_parts, values_decide_the_entries, worked_cuts, worked_shapes,
};
pub use shape::{Prefix, Shape};
pub use split::Piece;
pub use ticks::Ticks;
pub use trie::Trie;
pub use walk::Visitor;
