//! A sink of bytes in memory.

ghost use Rattle.std.specs.Prelude.{◌≡◌, ◌↔◌, ◌⊎◌, ◌+◌, ◌<◌, ◌≤◌, ◌++◌, [], length, take, min, vec_len, vec_capacity, IfOk, OnErr, IsErr};
ghost use Rattle.std.specs.List.{Contains};
ghost use Rattle.rst_outside.specs.Counts.{Rose};
ghost use Rattle.rst_outside.specs.Sink.{Appended};
ghost use Rattle.rst_outside.specs.Memory.{sink_state_of, after_write, after_failed_write};

use super::plan::Plan;
use crate::faults::count_fault;
use crate::sink::Sink;
use crate::source::Failed;
use std::alloc::{AllocError, Global};
use std::marker::Model;

/// A buffer in memory as a sink, which takes a few bytes at a time, fails at stated calls and may be full.
#[derive(Drop)]
pub struct MemSink {
    taken: Vec<u8>,
    /// How many more bytes are taken. The buffer has the capacity for them.
    room: usize,
    step: usize,
    plan: Plan,
}

impl Model for MemSink {
    ghost use Rattle.std.specs.Prelude.{◌+◌, ◌≤◌, vec_len, vec_capacity};
    ghost use Rattle.rst_outside.specs.Memory.{MemSinkState};

    ghost Value = { MemSinkState };

    ghost view = { λ s. record {
      taken = s.taken.items;
      room = s.room;
      step = s.step;
      failing = s.plan.failing.items;
      calls = s.plan.calls;
      faults = s.plan.faults;
    } };

    ghost invariant = { λ s. (vec_len s.taken + s.room ≤ vec_capacity s.taken) × (1 ≤ s.step) };
}

impl MemSink {
    /// An empty sink. It takes at most `step` bytes in a call and `room` bytes in all, and fails at the calls
    /// whose numbers, counted from 0, stand in `failing`, in any order. The number of calls stops at 2^64-1,
    /// as does the count of faults. Its memory is reserved here, so that no write lacks it.
    pub fn with_room(
        alloc: Global,
        room: usize,
        step: usize,
        failing: Vec<u64>,
    ) -> Result<Self, AllocError>
        requires { 1 ≤ step }
        ensures { IfOk result (λ sink. sink ≡ record {
          taken = [];
          room = room;
          step = step;
          failing = failing.items;
          calls = 0;
          faults = 0;
        }) }
    {
        Ok(MemSink {
            taken: Vec::with_capacity(alloc, room)?,
            room,
            step,
            plan: Plan::new(failing),
        })
    }

    /// The bytes that it took.
    pub fn bytes(&self) -> &[u8]
        ensures { result.now ≡ self.now.taken }
    {
        &self.taken
    }
}

impl Sink for MemSink {
    ghost state = { sink_state_of };

    fn write(&mut self, from: &[u8]) -> Result<usize, Failed>
        ensures within { IfOk result (λ n. n ≤ length from.now) }
        ensures some { IfOk result (λ n. 0 < length from.now → 0 < n) }
        ensures appended { IfOk result
            (λ n. Appended (sink_state_of self.old).taken (take n from.now) (sink_state_of self.new).taken) }
        ensures room { IfOk result (λ n. (sink_state_of self.old).sure ≤ (sink_state_of self.new).sure + n) }
        ensures count { self.old.faults ≤ self.new.faults }
        ensures failed { OnErr result (Rose self.old.faults self.new.faults) }
        ensures kept { OnErr result ((sink_state_of self.new).taken ≡ (sink_state_of self.old).taken) }
        ensures no_room { OnErr result
            (((sink_state_of self.old).sure ≡ 0) × ((sink_state_of self.new).sure ≡ 0)) }

        // It fails where it was told to or is full, and else takes as much as it can.
        ensures fails { IsErr result ↔ (Contains self.old.failing self.old.calls
            ⊎ ((self.old.room ≡ 0) × (0 < length from.now))) }
        ensures takes { IfOk result (λ n. n ≡ min self.old.step (min (length from.now) self.old.room)) }
        ensures after { IfOk result (λ n. self.new ≡ after_write self.old (take n from.now)) }
        ensures after_fault { OnErr result (self.new ≡ after_failed_write self.old) }
    {
        let fails = self.plan.next_call_fails();
        let is_full = self.room == 0 && !from.is_empty();
        if fails || is_full {
            return Err(count_fault(&mut self.plan.faults));
        }
        let n = self.step.min(from.len().min(self.room));
        append_reserved(&mut self.taken, &from[..n]);
        self.room -= n;
        Ok(n)
    }
}

/// Appends the bytes, for which there is capacity.
fn append_reserved(bytes: &mut Vec<u8>, more: &[u8])
    requires { vec_len bytes.old + length more.now ≤ vec_capacity bytes.old }
    ensures items { bytes.new.items ≡ bytes.old.items ++ more.now }
    ensures capacity { vec_capacity bytes.new ≡ vec_capacity bytes.old }
{
    for byte in more {
        bytes.push_reserved(*byte);
    }
}
