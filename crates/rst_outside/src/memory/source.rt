//! A source of bytes in memory.

ghost use Rattle.std.specs.Prelude.{◌≡◌, ◌↔◌, ◌<◌, ◌≤◌, length, take, min, IfOk, OnErr, IsErr};
ghost use Rattle.std.specs.List.{Contains};
ghost use Rattle.rst_outside.specs.Counts.{Rose};
ghost use Rattle.rst_outside.specs.Source.{Came, IsAtEnd};
ghost use Rattle.rst_outside.specs.Memory.{source_state_of, after_read, after_failed_read};

use super::copy::copy_front;
use super::plan::Plan;
use crate::faults::count_fault;
use crate::source::{Failed, Source};
use std::marker::Model;

/// Bytes in memory as a source, which gives a few at a time and fails at stated calls.
#[derive(Drop)]
pub struct MemSource {
    bytes: Vec<u8>,
    /// How many of the bytes were given.
    given: usize,
    step: usize,
    plan: Plan,
}

impl Model for MemSource {
    ghost use Rattle.std.specs.Prelude.{◌≤◌, drop, vec_len};
    ghost use Rattle.rst_outside.specs.Memory.{MemSourceState};

    ghost Value = { MemSourceState };

    ghost view = { λ s. record {
      rest = drop s.given s.bytes.items;
      step = s.step;
      failing = s.plan.failing.items;
      calls = s.plan.calls;
      faults = s.plan.faults;
    } };

    ghost invariant = { λ s. (s.given ≤ vec_len s.bytes) × (1 ≤ s.step) };
}

impl MemSource {
    /// A source of the bytes. It gives at most `step` of them in a call, and fails at the calls whose numbers,
    /// counted from 0, stand in `failing`, in any order. The number of calls stops at 2^64-1, as does the
    /// count of faults.
    pub fn new(bytes: Vec<u8>, step: usize, failing: Vec<u64>) -> Self
        requires { 1 ≤ step }
        ensures { result ≡ record {
          rest = bytes.items;
          step = step;
          failing = failing.items;
          calls = 0;
          faults = 0;
        } }
    {
        MemSource {
            bytes,
            given: 0,
            step,
            plan: Plan::new(failing),
        }
    }
}

impl Source for MemSource {
    ghost state = { source_state_of };

    fn read(&mut self, into: &mut [u8]) -> Result<usize, Failed>
        ensures within { IfOk result (λ n. n ≤ length into.new) }
        ensures came { IfOk result
            (λ n. Came (source_state_of self.old).rest (take n into.new) (source_state_of self.new).rest) }
        ensures end { IfOk result
            (λ n. n ≡ 0 → 0 < length into.new → IsAtEnd (source_state_of self.old).rest) }
        ensures count { self.old.faults ≤ self.new.faults }
        ensures failed { OnErr result (Rose self.old.faults self.new.faults) }
        ensures kept { OnErr result ((source_state_of self.new).rest ≡ (source_state_of self.old).rest) }

        // It fails where it was told to, and else gives as much as it can.
        ensures fails { IsErr result ↔ Contains self.old.failing self.old.calls }
        ensures gives { IfOk result
            (λ n. n ≡ min self.old.step (min (length into.new) (length self.old.rest))) }
        ensures after { IfOk result (λ n. self.new ≡ after_read self.old n) }
        ensures after_fault { OnErr result (self.new ≡ after_failed_read self.old) }
    {
        if self.plan.next_call_fails() {
            return Err(count_fault(&mut self.plan.faults));
        }
        let rest = &self.bytes[self.given..];
        let n = copy_front(&rest[..self.step.min(rest.len())], into);
        self.given += n;
        Ok(n)
    }
}
