//! Plain runs of a script, by each hash, and in the thread that calls.

use cells::{Cell, Fnv, KeyHash, Plain, Tuple};
use crew::Open;
use forms::Form;
use report::Pour;
use script::{Ended, How, Manner, output_here, run};
use std::alloc::{AllocError, Global};
use std::sync::Wait;
use std::test::Fail;
use std::thread::Threads;

/// All commands, over two keys that end in the same digit.
const LINES: &[u8] = b"table T (K INT KEY)
load 1
put 3
delete 3
publish
report SELECT K, COUNT(*) FROM T GROUP BY ROLLUP(K)
shape
publish now
";

const BY_PLAIN: &str = "line 6 edition 1
K | COUNT(*)
2 | 1
34 | 1
NULL | 2
line 7 edition 1
- 2
2 2
line 8 refused 3
";

const BY_FNV: &str = "line 6 edition 1
K | COUNT(*)
2 | 1
34 | 1
NULL | 2
line 7 edition 1
- 2
e 2
line 8 refused 3
";

const PART: &[u8] = b"K\n2\n34\n";

/// Whether the script writes this by this hash. Want of memory is an error.
fn writes_by<H: KeyHash<Cell> + KeyHash<Tuple> + Send + Sync, R: Threads + Wait + Sync>(
    rt: &R,
    alloc: Global,
    wanted: &str,
) -> Result<bool, Ended> {
    let parts = [Vec::from_slice(alloc, PART)?];
    let how = How::default();
    let mut out = Pour::new(Vec::new(alloc));
    run::<H, _, _, _>(rt, alloc, LINES, &parts, &how, &Open, &mut out)?;
    Ok(out.into_inner().as_slice() == wanted.as_bytes())
}

#[test]
fn a_script_is_run_by_either_hash(rt: HostRuntime) -> Result<(), Fail> {
    assert!(rt; writes_by::<Plain, _>(&rt, rt.alloc(), BY_PLAIN)?);
    assert!(rt; writes_by::<Fnv, _>(&rt, rt.alloc(), BY_FNV)?);
    Ok(())
}

/// Whether the script's output is this where no other thread is there. Want of memory is an error.
fn writes_here(alloc: Global, wanted: &str) -> Result<bool, AllocError> {
    let parts = [Vec::from_slice(alloc, PART)?];
    let how = How::default();
    let manner = Manner::of(alloc, Form::Classic);
    let text = output_here::<Plain>(alloc, LINES, &parts, &how, &manner)?;
    Ok(text.as_slice() == wanted.as_bytes())
}

#[test]
fn a_script_is_run_in_the_thread_that_calls(rt: HostRuntime) -> Result<(), Fail> {
    assert!(rt; writes_here(rt.alloc(), BY_PLAIN)?);
    Ok(())
}
