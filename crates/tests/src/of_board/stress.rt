//! Viewers in threads of their own, beside a keeper that publishes without a pause.

use crate::of_board::{keeper_of, publish, seen_by};
use board::{Keeper, Viewer, viewers_cross_threads};
use cells::{Plain, Refused};
use std::alloc::Global;
use std::sync::Wait;
use std::test::Fail;
use std::thread::{self, JoinHandle, Threads};

/// More turns than any viewer of these tests needs.
const TURNS: u64 = 10_000_000;

/// How many viewers there are.
const VIEWERS: u64 = 4;

/// How many editions are published.
const EDITIONS: u64 = 10_000;

/// Whether the editions that a viewer sees never fall, and have each its own rows, until the last one comes.
fn watch(mut viewer: Viewer<Plain>) -> Result<bool, Refused> {
    let mut newest = 0;
    for _ in 0..TURNS {
        let Some(seen) = seen_by(&mut viewer)? else {
            return Ok(false);
        };
        if seen < newest {
            return Ok(false);
        }
        if seen == EDITIONS {
            return Ok(true);
        }
        newest = seen;
        thread::yield_now();
    }
    Ok(false)
}

/// A thread in which a new viewer watches.
fn start<R: Threads>(
    rt: &R,
    keeper: &mut Keeper<Plain>,
) -> Result<JoinHandle<Result<bool, Refused>>, Refused> {
    // The law by which a viewer may be moved to another thread; it does nothing.
    viewers_cross_threads::<Plain>();
    let viewer = keeper.viewer()?;
    let job = move || -> Result<bool, Refused> { watch(viewer) };
    match thread::spawn(rt, job) {
        Ok(thread) => Ok(thread),
        Err(_) => Err(Refused::NoWorker),
    }
}

/// The threads of all viewers.
fn start_all<R: Threads>(
    rt: &R,
    alloc: Global,
    keeper: &mut Keeper<Plain>,
) -> Result<Vec<JoinHandle<Result<bool, Refused>>>, Refused> {
    let mut threads = Vec::new(alloc);
    for _viewer in 0..VIEWERS {
        threads.push(start(rt, keeper)?)?;
    }
    Ok(threads)
}

/// Publishes all editions, and ends the keeper.
fn publish_all<R: Wait>(rt: &R, alloc: Global, mut keeper: Keeper<Plain>) -> Result<(), Refused> {
    for _edition in 0..EDITIONS {
        publish(rt, alloc, &mut keeper)?;
    }
    keeper.close();
    Ok(())
}

/// Whether all viewers saw the editions whole and in order.
fn join_all<R: Threads>(
    rt: &R,
    threads: Vec<JoinHandle<Result<bool, Refused>>>,
) -> Result<bool, Refused> {
    let mut whole = Ok(true);
    for thread in threads {
        let seen = thread.join(rt);
        if seen != Ok(true) {
            whole = seen;
        }
    }
    whole
}

#[test]
fn viewers_see_all_editions_whole_and_in_order(rt: HostRuntime) -> Result<(), Fail> {
    let mut keeper = keeper_of(rt.alloc(), VIEWERS)?;
    let threads = start_all(&rt, rt.alloc(), &mut keeper)?;
    let published = publish_all(&rt, rt.alloc(), keeper);
    assert_eq!(rt; join_all(&rt, threads), Ok(true));
    published?;
    Ok(())
}
