//! Places of viewers, and what viewers see that are told.

ghost use Rattle.std.specs.Prelude.{◌≡◌, ◌≤◌, IfOk};
ghost use Rattle.board.specs.Editions.{board};
ghost use Rattle.board.specs.Limits.{place_limit};

use crate::of_board::{keeper_of, publish, seen_by};
use board::{Keeper, MAX_PLACES, Told, Viewer};
use cells::{Plain, Refused};
use std::alloc::Global;
use std::process::Abort;
use std::sync::Wait;
use std::test::Fail;

/// Makes one viewer more.
fn push_viewer(
    keeper: &mut Keeper<Plain>,
    viewers: &mut Vec<Viewer<Plain>>,
) -> Result<(), Refused> {
    let viewer = keeper.viewer()?;
    viewers.push(viewer)?;
    Ok(())
}

/// Whether all viewers see edition 1.
fn all_see(viewers: &mut Vec<Viewer<Plain>>) -> Result<bool, Refused> {
    for viewer in viewers {
        if seen_by(viewer)? != Some(1) {
            return Ok(false);
        }
    }
    Ok(true)
}

/// Whether one viewer more than there are places is refused, also once one of them is dropped, and the others see what is
/// published.
fn fill(
    rt: &impl Wait,
    alloc: Global,
    keeper: &mut Keeper<Plain>,
    viewers: &mut Vec<Viewer<Plain>>,
    places: u64,
) -> Result<bool, Refused> {
    for _place in 0..places {
        push_viewer(keeper, viewers)?;
    }
    if keeper.viewer().is_ok() {
        return Ok(false);
    }
    drop(viewers.pop());
    if keeper.viewer().is_ok() {
        return Ok(false);
    }
    publish(rt, alloc, keeper)?;
    all_see(viewers)
}

/// The same of a keeper with so many places.
fn are_places(rt: &impl Wait, alloc: Global, places: u64) -> Result<bool, Refused>
    requires { 1 ≤ places × (places ≤ place_limit) }
{
    let mut keeper = keeper_of(alloc, places)?;
    let mut viewers = Vec::new(alloc);
    let filled = fill(rt, alloc, &mut keeper, &mut viewers, places);
    drop(viewers);
    keeper.close();
    filled
}

#[test]
fn there_are_as_many_viewers_as_places(rt: HostRuntime) -> Result<(), Fail> {
    assert!(rt; are_places(&rt, rt.alloc(), 1)?);
    assert!(rt; are_places(&rt, rt.alloc(), MAX_PLACES)?);
    Ok(())
}

/// A viewer; where it is refused, it is made by the same call made again.
fn viewer_at_last(keeper: &mut Keeper<Plain>) -> Result<Viewer<Plain>, Refused>
    ensures same { keeper.new ≡ keeper.old }
    ensures board { IfOk result (λ v. v.board ≡ board keeper.old) }
{
    if let Ok(viewer) = keeper.viewer() {
        return Ok(viewer);
    }
    keeper.viewer()
}

/// What a viewer sees; where that is refused, by the same call made again.
fn seen_at_last(viewer: &mut Viewer<Plain>) -> Result<Option<u64>, Refused>
    ensures { viewer.new.board ≡ viewer.old.board }
{
    if let Ok(seen) = seen_by(viewer) {
        return Ok(seen);
    }
    seen_by(viewer)
}

/// Publishes edition 1. Where it is refused, keeper and viewer stay as they were, and the call is made again.
fn publish_at_last(
    rt: &(impl Abort + Wait),
    alloc: Global,
    keeper: &mut Keeper<Plain>,
    viewer: &mut Viewer<Plain>,
) -> Result<Told, Refused>
    ensures viewer { viewer.new.board ≡ viewer.old.board }
    ensures known { board keeper.new ≡ board keeper.old }
    ensures told { IfOk result (λ t. t.board ≡ board keeper.old) }
{
    if let Ok(told) = publish(rt, alloc, keeper) {
        return Ok(told);
    }
    assert!(*rt; keeper.edition() == 0);
    assert!(*rt; seen_by(viewer)? == Some(0));
    publish(rt, alloc, keeper)
}

/// What a viewer sees at first, once it learnt of an edition, and once it was told of it again.
fn sights(
    rt: &(impl Abort + Wait),
    alloc: Global,
    keeper: &mut Keeper<Plain>,
    viewer: &mut Viewer<Plain>,
) -> Result<[Option<u64>; 3], Refused>
    requires { viewer.old.board ≡ board keeper.old }
{
    let at_first = seen_at_last(viewer)?;
    let told = publish_at_last(rt, alloc, keeper, viewer)?;
    viewer.learn(told);
    let learnt = seen_at_last(viewer)?;
    viewer.learn(keeper.tell());
    Ok([at_first, learnt, seen_at_last(viewer)?])
}

/// What a new viewer of a keeper sees.
fn sights_of(
    rt: &(impl Abort + Wait),
    alloc: Global,
    keeper: &mut Keeper<Plain>,
) -> Result<[Option<u64>; 3], Refused> {
    let mut viewer = viewer_at_last(keeper)?;
    let seen = sights(rt, alloc, keeper, &mut viewer);
    drop(viewer);
    seen
}

/// Run with each allocation refused in turn, too: a refusal leaves keeper and viewer as they were, and the same call made
/// again gives what it would have given.
#[test]
fn calls_of_a_viewer(rt: HostRuntime) -> Result<(), Fail> {
    let mut keeper = keeper_of(rt.alloc(), 1)?;
    let seen = sights_of(&rt, rt.alloc(), &mut keeper);
    keeper.close();
    assert_eq!(rt; seen?, [Some(0), Some(1), Some(1)]);
    Ok(())
}
