//! The set of COUNT DISTINCT, made cell by cell, as no report makes it.
ghost use Rattle.std.specs.Prelude.{◌≡◌, [], ◌∷◌, ◌++◌, IfOk, OnErr};
ghost use Rattle.aggs.specs.Accs.{acc_of};

use crate::written::Written::{self, Int, Null, Text};
use crate::written::cells_of;
use aggs::{Acc, Kind};
use cells::{Cell, Plain};
use std::alloc::{AllocError, Global};
use std::process::Abort;
use std::test::Fail;

/// Steps the accumulator of some cells.
fn step(
    rt: &impl Abort,
    alloc: Global,
    acc: &mut Acc<Plain>,
    kind: Kind,
    cells: &[Cell],
    cell: &Cell,
) -> Result<(), AllocError>
    requires { acc.old ≡ acc_of kind cells.now }
    ensures stepped { IfOk result (λ _. acc.new ≡ acc_of kind (cells.now ++ cell.now ∷ [])) }
    ensures unchanged { OnErr result (acc.new ≡ acc.old) }
{
    let _ = kind;
    assert!(*rt; cells.len() < 1_000);
    acc.step(alloc, cell)?;
    Ok(())
}

/// The same; where it is refused, by the same call made again.
fn step_at_last(
    rt: &impl Abort,
    alloc: Global,
    acc: &mut Acc<Plain>,
    kind: Kind,
    cells: &[Cell],
    cell: &Cell,
) -> Result<(), AllocError>
    requires { acc.old ≡ acc_of kind cells.now }
    ensures { IfOk result (λ _. acc.new ≡ acc_of kind (cells.now ++ cell.now ∷ [])) }
{
    let Ok(()) = step(rt, alloc, acc, kind, cells, cell) else {
        return step(rt, alloc, acc, kind, cells, cell);
    };
    Ok(())
}

/// The accumulator of the cells.
fn over(
    rt: &impl Abort,
    alloc: Global,
    kind: Kind,
    cells: &[Cell],
) -> Result<Acc<Plain>, AllocError>
    ensures { IfOk result (λ a. a ≡ acc_of kind cells.now) }
{
    let mut acc = Acc::empty(kind);
    for (i, cell) in cells.iter().enumerate() {
        step_at_last(rt, alloc, &mut acc, kind, &cells[..i], cell)?;
    }
    Ok(acc)
}

/// How many keys the trie of different cells has, if it is one of COUNT DISTINCT.
fn keys_of(acc: &Acc<Plain>) -> u64 {
    match acc {
        Acc::CountDistinct(counted) => counted.cells().len(),
        _ => 0,
    }
}

/// How many different cells there are.
fn different(rt: &impl Abort, alloc: Global, cells: &[Cell]) -> Result<u64, AllocError> {
    let acc = over(rt, alloc, Kind::CountDistinct, cells)?;
    let keys = keys_of(&acc);
    drop(acc);
    Ok(keys)
}

/// The same of cells as tables write them.
fn different_written(
    rt: &impl Abort,
    alloc: Global,
    written: &[Written],
) -> Result<u64, AllocError> {
    let cells = cells_of(alloc, written)?;
    let different = different(rt, alloc, cells.as_slice());
    drop(cells);
    different
}

/// Cells of which some take memory.
const CELLS: [Written; 6] = [
    Int(1),
    Null,
    Text("fifteen letters"),
    Int(2),
    Text("fifteen letters"),
    Int(1),
];

/// Run with each allocation refused in turn, too: a step that was refused is made again.
#[test]
fn a_set_is_made_step_by_step(rt: HostRuntime) -> Result<(), Fail> {
    assert_eq!(rt; different_written(&rt, rt.alloc(), CELLS.as_slice())?, 3);
    Ok(())
}
