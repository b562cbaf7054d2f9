//! Tests of the crates from `cells` and `trie` to `script`, by their public items: what no clause says of them, and no script
//! can show; threads at once, viewers, gates, writers, and what a refusal of memory gives. What a script alone can say is told by
//! the cases of `tools/program`.
#![tactic(auto)]

#[cfg(test)]
mod gates;
#[cfg(test)]
mod of_aggs;
#[cfg(test)]
mod of_board;
#[cfg(test)]
mod of_columns;
#[cfg(test)]
mod of_crew;
#[cfg(test)]
mod of_groups;
#[cfg(test)]
mod of_loader;
#[cfg(test)]
mod of_report;
#[cfg(test)]
mod of_script;
#[cfg(test)]
mod of_shelf;
#[cfg(test)]
mod of_trie;
#[cfg(test)]
mod written;
