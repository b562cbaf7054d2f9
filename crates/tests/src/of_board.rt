//! Keepers and their viewers, in one thread and in several.
ghost use Rattle.std.specs.Prelude.{◌≡◌, ◌≤◌, IfOk};
ghost use Rattle.board.specs.Editions.{board};
ghost use Rattle.board.specs.Limits.{place_limit};

use board::{Keeper, Snapshot, Told, Viewer, an_edition_has_a_list_of_rows};
use cells::{Cell, Plain, Refused, Row, Schema};
use std::alloc::Global;
use std::sync::Wait;

mod places;
mod refusals;
mod stress;

/// The key of the row that an edition is the first to have: a number of five digits.
const FIRST_KEY: u64 = 10_000;

/// More editions than any of these tests publishes.
const MANY: u64 = 80_000;

/// A keeper with so many places for viewers.
fn keeper_of(alloc: Global, places: u64) -> Result<Keeper<Plain>, Refused>
    requires { 1 ≤ places × (places ≤ place_limit) }
{
    let table = Schema::read(alloc, "T (K INT KEY)")?;
    Keeper::new(alloc, table, MANY, places)
}

/// The last digit of a number.
fn last_digit(number: u64) -> u8 {
    b'0' + (number % 10) as u8
}

/// The five digits of a key.
fn digits(key: u64) -> [u8; 5] {
    [
        last_digit(key / 10_000),
        last_digit(key / 1_000),
        last_digit(key / 100),
        last_digit(key / 10),
        last_digit(key),
    ]
}

/// Puts one row more, and publishes: each edition has as many rows as its number says.
fn publish<R: Wait>(rt: &R, alloc: Global, keeper: &mut Keeper<Plain>) -> Result<Told, Refused>
    ensures told { IfOk result (λ t. t.board ≡ board keeper.old) }
    ensures known { board keeper.new ≡ board keeper.old }
{
    let edition = keeper.edition();
    if edition >= MANY {
        return Err(Refused::TooManyRows);
    }
    let key = digits(FIRST_KEY + edition + 1);
    let row = Row::read(alloc, &[key.as_slice()], keeper.schema())?;
    keeper.put(row)?;
    keeper.publish(rt)
}

/// The number of a snapshot's edition, where it has just the rows of that edition, as `publish` makes them.
fn number_of(snapshot: &Snapshot<Plain>) -> Option<u64> {
    an_edition_has_a_list_of_rows(snapshot);
    let number = snapshot.edition();
    let newest = Cell::Int((FIRST_KEY.saturating_add(number)).cast_signed());
    let root = snapshot.root();
    if root.len() == number && (number == 0 || root.get(&newest).is_some()) {
        return Some(number);
    }
    None
}

/// The edition that a viewer sees.
fn seen_by(viewer: &mut Viewer<Plain>) -> Result<Option<u64>, Refused>
    ensures { viewer.new.board ≡ viewer.old.board }
{
    let snapshot = viewer.snapshot()?;
    Ok(number_of(&snapshot))
}
