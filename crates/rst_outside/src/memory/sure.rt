//! A source and a sink in memory which never fail.

ghost use Rattle.std.specs.Prelude.{◌≡◌, ◌+◌, ◌^◌, ◌<◌, ◌≤◌, length, take, drop, min, IfOk, OnErr, IsOk};
ghost use Rattle.rst_outside.specs.Counts.{Rose};
ghost use Rattle.rst_outside.specs.Source.{Came, IsAtEnd};
ghost use Rattle.rst_outside.specs.Sink.{Appended};
ghost use Rattle.rst_outside.specs.Memory.{sure_source_state, sure_sink_state};

use super::copy::copy_front;
use crate::sink::Sink;
use crate::source::{Failed, Source};
use std::marker::Model;

/// Bytes in memory as a source that never fails. Contracts see the bytes that are still to come. No tool makes one.
#[derive(Drop)]
pub struct SureSource {
    bytes: Vec<u8>,
    /// How many of the bytes were given.
    given: usize,
}

impl Model for SureSource {
    ghost use Rattle.std.specs.Prelude.{◌≤◌, ℕ, List, drop, vec_len};

    ghost Value = { List ℕ };

    ghost view = { λ s. drop s.given s.bytes.items };

    ghost invariant = { λ s. s.given ≤ vec_len s.bytes };
}

impl SureSource {
    /// A source of the bytes.
    pub fn new(bytes: Vec<u8>) -> Self
        ensures { result ≡ bytes.items }
    {
        SureSource { bytes, given: 0 }
    }
}

impl Source for SureSource {
    ghost state = { sure_source_state };

    fn read(&mut self, into: &mut [u8]) -> Result<usize, Failed>
        ensures within { IfOk result (λ n. n ≤ length into.new) }
        ensures came { IfOk result
            (λ n. Came (sure_source_state self.old).rest (take n into.new) (sure_source_state self.new).rest) }
        ensures end { IfOk result
            (λ n. n ≡ 0 → 0 < length into.new → IsAtEnd (sure_source_state self.old).rest) }
        ensures count { (sure_source_state self.old).faults ≤ (sure_source_state self.new).faults }
        ensures failed { OnErr result
            (Rose (sure_source_state self.old).faults (sure_source_state self.new).faults) }
        ensures kept { OnErr result ((sure_source_state self.new).rest ≡ (sure_source_state self.old).rest) }

        // It gives as much as fits.
        ensures sure { IsOk result }
        ensures gives { IfOk result (λ n. n ≡ min (length into.new) (length self.old)) }
        ensures after { IfOk result (λ n. self.new ≡ drop n self.old) }
    {
        let n = copy_front(&self.bytes[self.given..], into);
        self.given += n;
        Ok(n)
    }
}

/// A sink that takes all bytes and keeps none. Its sure room is always 2^64 bytes, more than any slice has.
#[derive(Drop)]
pub struct SureSink;

impl SureSink {
    /// A sink that never fails.
    pub fn new() -> Self
        ensures { sure_sink_state result ≡ record { faults = 0; sure = 2 ^ 64; taken = None } }
    {
        SureSink
    }
}

impl Sink for SureSink {
    ghost state = { sure_sink_state };

    fn write(&mut self, from: &[u8]) -> Result<usize, Failed>
        ensures within { IfOk result (λ n. n ≤ length from.now) }
        ensures some { IfOk result (λ n. 0 < length from.now → 0 < n) }
        ensures appended { IfOk result
            (λ n. Appended (sure_sink_state self.old).taken (take n from.now) (sure_sink_state self.new).taken) }
        ensures room { IfOk result (λ n. (sure_sink_state self.old).sure ≤ (sure_sink_state self.new).sure + n) }
        ensures count { (sure_sink_state self.old).faults ≤ (sure_sink_state self.new).faults }
        ensures failed { OnErr result (Rose (sure_sink_state self.old).faults (sure_sink_state self.new).faults) }
        ensures kept { OnErr result ((sure_sink_state self.new).taken ≡ (sure_sink_state self.old).taken) }
        ensures no_room { OnErr result
            (((sure_sink_state self.old).sure ≡ 0) × ((sure_sink_state self.new).sure ≡ 0)) }

        // It takes all.
        ensures sure { IsOk result }
        ensures takes { IfOk result (λ n. n ≡ length from.now) }
    {
        Ok(from.len())
    }
}
