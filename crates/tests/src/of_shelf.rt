//! Shelves: who makes the value, and what others find.
ghost use Rattle.std.specs.Prelude.{◌≡◌, ◌+◌, ◌<◌, ◌^◌, IfOk, IfSome, None};

use shelf::Shelf;
use std::alloc::{AllocError, Global};
use std::snapshot::Snapshot;
use std::sync::Wait;
use std::sync::atomic::AtomicU64;
use std::sync::atomic::Ordering::SeqCst;
use std::test::Fail;
use std::thread;
use std::thread::{Promise, Threads, join};

/// Turns for which a maker yields, so that another caller comes meanwhile.
const TURNS: u64 = 1_000;

/// The promise of a value that is twice a number.
#[derive(Drop)]
struct TwiceOf {
    number: Snapshot<u64>,
}

impl Promise<u64> for TwiceOf {
    ghost use Rattle.std.specs.Prelude.{◌≡◌, ◌+◌};

    ghost kept_by = { λ promise made. made ≡ promise.number.value + promise.number.value };
}

/// A shelf for twice the number.
fn shelf_of(alloc: Global, number: u64) -> Result<Shelf<u64, TwiceOf>, AllocError>
    ensures { IfOk result (λ shelf. shelf.number.value ≡ number) }
{
    Shelf::new(
        alloc,
        &TwiceOf {
            number: Snapshot::of(&number),
        },
    )
}

/// Makes the value, slowly, and counts that it did.
fn make(made: &AtomicU64, number: u64) -> Option<u64>
    requires { number < 2 ^ 62 }
    ensures { IfSome result (λ value. value ≡ number + number) }
{
    made.fetch_add(1, SeqCst);
    for _ in 0..TURNS {
        thread::yield_now();
    }
    Some(number + number)
}

/// What a caller finds, and how often the value was made by then.
fn found<R: Wait>(
    rt: &R,
    shelf: &Shelf<u64, TwiceOf>,
    made: &AtomicU64,
    number: u64,
) -> (Option<u64>, u64)
    requires small { number < 2 ^ 62 }
    requires promised { shelf.now.number.value ≡ number }
    ensures { IfSome result.0 (λ value. value ≡ number + number) }
{
    let value = shelf.value_or_make(
        rt,
        move || -> Option<u64>
            requires { number < 2 ^ 62 }
            ensures { IfSome result (λ value. value ≡ number + number) }
        { make(made, number) },
    );
    let made = made.load(SeqCst);
    match value {
        Some(value) => (Some(*value), made),
        None => (None, made),
    }
}

/// What two threads find on one shelf.
fn found_by_two<R: Threads + Wait + Sync>(
    rt: &R,
    shelf: &Shelf<u64, TwiceOf>,
    number: u64,
) -> ((Option<u64>, u64), (Option<u64>, u64))
    requires small { number < 2 ^ 62 }
    requires promised { shelf.now.number.value ≡ number }
{
    let made = AtomicU64::new(0);
    let made = &made;
    join(
        rt,
        move ||
            requires { (number < 2 ^ 62) × (shelf.now.number.value ≡ number) }
        { found(rt, shelf, made, number) },
        move ||
            requires { (number < 2 ^ 62) × (shelf.now.number.value ≡ number) }
        { found(rt, shelf, made, number) },
    )
}

#[test]
fn two_threads_find_what_one_made(rt: HostRuntime) -> Result<(), Fail> {
    let shelf = shelf_of(rt.alloc(), 21)?;
    let (first, second) = found_by_two(&rt, &shelf, 21);
    assert_eq!(rt; first, (Some(42), 1));
    assert_eq!(rt; second, (Some(42), 1));
    Ok(())
}

/// Whether there is a value for a caller who makes none.
fn is_there<R: Wait>(rt: &R, shelf: &Shelf<u64, TwiceOf>) -> bool {
    let value = shelf.value_or_make(
        rt,
        || -> Option<u64>
            ensures { result ≡ None }
        { None },
    );
    value.is_some()
}

#[test]
fn a_value_is_found_again(rt: HostRuntime) -> Result<(), Fail> {
    let shelf = shelf_of(rt.alloc(), 4)?;
    let made = AtomicU64::new(0);
    let (value, _) = found(&rt, &shelf, &made, 4);
    let value = value.ok_or(AllocError)?;
    assert_eq!(rt; value, 8);
    assert_eq!(rt; is_there(&rt, &shelf), true);
    Ok(())
}

#[test]
fn where_none_was_made_none_is_found(rt: HostRuntime) -> Result<(), Fail> {
    let shelf = shelf_of(rt.alloc(), 5)?;
    let made = AtomicU64::new(0);
    assert_eq!(rt; is_there(&rt, &shelf), false);
    assert_eq!(rt; found(&rt, &shelf, &made, 5), (None, 0));
    Ok(())
}
