//! A writer over memory, which fails where it is told to.
ghost use Rattle.std.specs.Prelude.{◌≡◌, ◌+◌, ◌<◌, ◌≤◌, ◌^◌, Some, IfErr, IfOk, OnErr, OnOk, length, take};
ghost use Rattle.std.specs.Io.KnownBytes.{Appends};
ghost use Rattle.report.specs.Taken.{TakesBeginning};
ghost use Rattle.report.specs.Tapes.{after_write, answer, blank, taking_at};

use crate::failing::Failing;
use crate::out::{Out, OutFault};
use cells::Refused;
use std::alloc::Global;
use std::marker::Model;

/// An [`Out`] over memory, in a room that is taken when it is made, for tests.
#[derive(Drop)]
pub struct Tape {
    bytes: Vec<u8>,
    room: usize,
    most: usize,
    failing: Option<Failing>,
    calls: u64,
    faults: u64,
}

impl Model for Tape {
    ghost use Rattle.std.specs.Prelude.{◌<◌, ◌≤◌, vec_len, vec_capacity};
    ghost use Rattle.report.specs.Tapes.{Taping};

    ghost Value = { Taping };

    ghost view = { λ t. record {
      taken = t.bytes.items;
      room = t.room;
      most = t.most;
      failing = t.failing;
      calls = t.calls;
      faults = t.faults;
    } };

    ghost invariant = { λ t.
        (vec_len t.bytes ≤ t.room) × (t.room ≤ vec_capacity t.bytes) × (0 < t.most) };
}

impl Tape {
    /// A tape with room for `room` bytes, which are allocated here and never later. It takes at most
    /// `most` bytes a call. The call that `failing` names fails, and takes no more than `failing` says. A call
    /// with bytes that finds no room left fails, too.
    ///
    /// [`Refused::OutOfMemory`] where the allocation was refused.
    pub fn new(
        alloc: Global,
        room: usize,
        most: usize,
        failing: Option<Failing>,
    ) -> Result<Tape, Refused>
        requires { 0 < most }
        ensures blank { IfOk result (λ t. t ≡ blank room most failing) }
        ensures refused { IfErr result (λ e. e ≡ Refused.OutOfMemory) }
    {
        let bytes = Vec::with_capacity(alloc, room)?;
        Ok(Tape {
            bytes,
            room,
            most,
            failing,
            calls: 0,
            faults: 0,
        })
    }

    /// What it has taken, from the first byte on.
    pub fn bytes(&self) -> &[u8]
        ensures { result.now ≡ self.now.taken }
    {
        self.bytes.as_slice()
    }

    /// How many calls there were, those that failed among them.
    pub fn calls(&self) -> u64
        ensures { result ≡ self.now.calls }
    {
        self.calls
    }
}

#[tactic(auto, using(crate::specs::Laws::takes_none))]
impl Out for Tape {
    ghost taken = { λ t. Some t.taken };

    ghost faults = { λ t. t.faults };

    fn write(&mut self, bytes: &[u8]) -> Result<usize, OutFault>
        requires { self.old.faults + 1 < 2 ^ 64 }
        ensures answer { result ≡ answer self.old bytes.now }
        ensures tape { self.new ≡ after_write self.old bytes.now }
        ensures within { IfOk result (λ n. n ≤ length bytes.now) }
        ensures some { IfOk result (λ n. 0 < length bytes.now → 0 < n) }
        ensures taken { IfOk result (λ n. Appends (Some self.old.taken) (Some self.new.taken) (take n bytes.now)) }
        ensures sound { OnOk result (self.new.faults ≡ self.old.faults) }
        ensures beginning { OnErr result (TakesBeginning (Some self.old.taken) (Some self.new.taken) bytes.now) }
        ensures fault { OnErr result (self.new.faults ≡ self.old.faults + 1) }
    {
        self.calls = self.calls.saturating_add(1);
        let share = bytes.len().min(self.most).min(self.room - self.bytes.len());
        let taking = taking_at(self.failing, self.calls);
        let fails = taking.is_some() || (share == 0 && !bytes.is_empty());
        let n = share.min(taking.unwrap_or(share));
        let Ok(()) = self.bytes.extend_from_slice(&bytes[..n]) else {
            self.faults += 1;
            return Err(OutFault);
        };
        if fails {
            self.faults += 1;
            return Err(OutFault);
        }
        Ok(n)
    }
}

/// How many bytes the call of this number is to take before it fails, where it is to fail.
fn taking_at(failing: Option<Failing>, call: u64) -> Option<usize>
    ensures { result ≡ taking_at failing call }
{
    match failing {
        Some(failing) if failing.call == call => Some(failing.taking),
        _ => None,
    }
}
