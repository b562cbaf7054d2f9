//! What is written for a script that is too long, or for too many parts.
ghost use Rattle.std.specs.Prelude.{◌≡◌, ◌+◌, ◌<◌, ◌^◌, IfOk};
ghost use Rattle.script.specs.Endings.{Ends};
ghost use Rattle.script.specs.Stops.{finish_of_refused};
ghost use Rattle.script.specs.Viewers.{asked_of, too_much_by, too_much_text};

use crate::block::{refuse, viewers_refused_block};
use crate::ended::Ended;
use crate::fault::Fault;
use crate::finish::Finish;
use crate::on_refusal::OnRefusal;
use crate::setup::SpeltSetup;
use crate::viewing::Viewing;
use cells::Refused;
use crew::Gate;
use report::{Out, write_whole};
use std::alloc::AllocError;

/// Refuses a script that is too long, or of too many parts. A run that goes on has the tail of its viewers after the refusal.
pub fn refuse_whole<O: Out, R, G: Gate>(
    setup: &SpeltSetup<'_, R, G>,
    out: &mut O,
) -> Result<Finish, Ended>
    requires { O.faults out.old + 1 < 2 ^ 64 }
    ensures ends { Ends O.taken O.faults out.old out.new
        (λ bytes. bytes ≡ too_much_by setup.now.manner.now.form setup.now.on_refusal (asked_of setup.now.viewing)) ⊥ ⊥ result }
    ensures finish { IfOk result (λ finish. finish ≡ finish_of_refused setup.now.on_refusal) }
{
    let finish = setup.on_refusal.finish_of_refused();
    match setup.on_refusal {
        OnRefusal::GoesOn => write_too_much(setup, setup.viewing, finish, out),
        OnRefusal::Stops => write_too_much(setup, None, finish, out),
    }
}

/// Delivers the output of a script that is too long, or of too many parts, and after it the tail where there are viewers.
#[tactic(auto, using(report::specs::Laws::takes_nothing))]
fn write_too_much<O: Out, R, G: Gate>(
    setup: &SpeltSetup<'_, R, G>,
    viewing: Option<Viewing<&str>>,
    finish: Finish,
    out: &mut O,
) -> Result<Finish, Ended>
    requires { O.faults out.old + 1 < 2 ^ 64 }
    ensures ends { Ends O.taken O.faults out.old out.new (λ bytes. bytes ≡ too_much_text setup.now.manner.now.form (asked_of viewing.entry)) ⊥ ⊥ result }
    ensures finish { IfOk result (λ told. told ≡ finish) }
{
    let text = too_much_block(setup, viewing)?;
    let Ok(()) = write_whole(out, text.as_slice()) else {
        return Err(Ended::WriteFailed);
    };
    Ok(finish)
}

/// What is written for a script that is too long, or for too many parts.
fn too_much_block<R, G: Gate>(
    setup: &SpeltSetup<'_, R, G>,
    asked: Option<Viewing<&str>>,
) -> Result<Vec<u8>, AllocError>
    ensures { IfOk result (λ text. text.items ≡ too_much_text setup.now.manner.now.form (asked_of asked.entry)) }
{
    let mut text = refuse(setup, 0, Fault::Line(Refused::Limit))?;
    if let Some(_) = asked {
        setup.gate.refused_viewers(Refused::NoTable);
        let block = viewers_refused_block(setup.alloc, setup.manner.form, Refused::NoTable)?;
        text.extend_from_slice(block.as_slice())?;
    }
    Ok(text)
}
