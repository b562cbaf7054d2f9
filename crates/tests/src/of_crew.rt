//! Places that are shared out among workers.
ghost use Rattle.std.specs.Prelude.{◌≤◌};
ghost use Rattle.crew.specs.Limits.{piece_limit};

use crate::gates::{Hold, Watch};
use cells::Refused;
use crew::{Gate, Task, share_out};
use std::alloc::{AllocError, Global};
use std::sync::Wait;
use std::test::Fail;
use std::thread::Threads;

/// Places that are added up, each counted from 1, while a gate is told of them. Memory is refused at one of them.
#[derive(Drop)]
struct Visits<'a> {
    count: u64,
    gate: &'a Watch,
    refused_at: u64,
}

impl<'a> Task for Visits<'a> {
    type Made = u64;

    ghost use Rattle.std.specs.Prelude.{⊤};

    ghost count = { λ task. task.count };

    ghost makes = { λ _ _ _. ⊤ };

    fn begin(&self, _alloc: Global) -> Result<u64, AllocError> {
        Ok(0)
    }

    fn take(&self, _alloc: Global, made: &mut u64, place: u64) -> Result<(), AllocError> {
        self.gate.entered(place);
        self.gate.left(place);
        if place == self.refused_at {
            return Err(AllocError);
        }
        *made = made.saturating_add(place).saturating_add(1);
        Ok(())
    }
}

/// The sum of the places that workers took, and how many workers there were.
fn visited<R: Threads + Wait>(
    rt: &R,
    alloc: Global,
    gate: &Watch,
    count: u64,
    workers: u64,
    refused_at: u64,
) -> Result<(u64, usize), Refused>
    requires { count ≤ piece_limit }
{
    let visits = Visits {
        count,
        gate,
        refused_at,
    };
    let all = share_out(rt, alloc, count, workers, &visits)?;
    let mut sum = 0_u64;
    for some in &all {
        sum = sum.wrapping_add(*some);
    }
    Ok((sum, all.len()))
}

/// A place that no list has.
const NOWHERE: u64 = u64::MAX;

/// All threads that were started are joined before there is an answer, whatever it is: nobody is at a place then.
#[test]
fn nobody_works_behind_the_answer(rt: HostRuntime) -> Result<(), Fail> {
    let watch = Watch::new(Hold::Each);
    let taken = visited(&rt, rt.alloc(), &watch, 6, 3, NOWHERE);
    assert!(rt; watch.is_empty());
    assert_eq!(rt; taken?, (21, 3));
    Ok(())
}

/// A worker that is refused memory takes no place more; others go on.
#[test]
fn one_place_without_memory(rt: HostRuntime) -> Result<(), Fail> {
    for workers in [1, 2] {
        let watch = Watch::new(Hold::Nobody);
        let taken = visited(&rt, rt.alloc(), &watch, 5, workers, 1);
        assert_eq!(rt; taken, Err(Refused::OutOfMemory));
        assert_eq!(rt; watch.entered.sum(), watch.left.sum());
        assert!(rt; workers == 2 || watch.entered.sum() == 3);
    }
    Ok(())
}
