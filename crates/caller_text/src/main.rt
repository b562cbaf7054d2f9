//! A caller of the engine: the bytes of a script in, and the bytes of its output out.
#![tactic(auto)]

ghost use Rattle.std.specs.Prelude.{◌≡◌, IfOk};
ghost use Rattle.cells.specs.Hashes.{fnv_hash};
ghost use Rattle.script.specs.Givens.{givens};
ghost use Rattle.script.specs.Hows.{default_settings};
ghost use Rattle.script.specs.Output.{IsOutput};

use cells::{Fnv, Refused};
use crew::Open;
use report::Pour;
use script::{How, run};
use std::alloc::Global;
use std::io::Read;
use std::sync::Wait;
use std::thread::Threads;

/// What a script writes, whose `load` lines name the parts by their numbers from 1. It is refused only where memory or a
/// worker was.
fn output_of<R: Threads + Wait + Sync>(
    rt: &R,
    alloc: Global,
    script: &[u8],
    parts: &[Vec<u8>],
) -> Result<Vec<u8>, Refused>
    ensures { IfOk result (λ bytes. IsOutput fnv_hash (givens default_settings.rows parts.now) script.now bytes.items) }
{
    let mut out = Pour::new(Vec::new(alloc));
    run::<Fnv, _, _, _>(rt, alloc, script, parts, &How::default(), &Open, &mut out)?;
    Ok(out.into_inner())
}

/// Runs the script that standard input is.
fn main(rt: HostRuntime) -> Result<(), anyhow::Error> {
    let mut script = Vec::new(rt.alloc());
    rt.reader().read_to_end(&mut script)?;
    let output = output_of(&rt, rt.alloc(), script.as_slice(), &[])?;
    let text = String::from_utf8(output)?;
    print!(rt; "{text}")?;
    Ok(())
}
