//! A reader of the system as a source.

ghost use Rattle.std.specs.Prelude.{◌≡◌, ◌<◌, ◌≤◌, length, take, IfOk, OnOk, OnErr};
ghost use Rattle.std.specs.Io.KnownBytes.{ReadConsumes};
ghost use Rattle.rst_outside.specs.Counts.{Rose, next_count};
ghost use Rattle.rst_outside.specs.Source.{Came, IsAtEnd};
ghost use Rattle.rst_outside.specs.Untold.{untold_source};

use crate::faults::count_fault;
use crate::source::{Failed, Source};
use std::io::Read;
use std::marker::Model;

/// A reader as a source, as standard input. Contracts see the reader and a count of faults.
#[derive(Drop)]
pub struct StdSource<R: Read + Drop> {
    reader: R,
    faults: u64,
}

impl<R: Read + Drop> Model for StdSource<R> {
    ghost use Rattle.rst_outside.specs.Untold.{Counted};

    ghost Value = { Counted R };

    ghost view = { λ s. record { inner = s.reader; faults = s.faults } };
}

impl<R: Read + Drop> StdSource<R> {
    /// The reader as a source that has not failed yet. `HostRuntime` has standard input as `stdin()`.
    pub fn new(reader: R) -> Self
        ensures { result ≡ record { inner = reader; faults = 0 } }
    {
        StdSource { reader, faults: 0 }
    }
}

impl<R: Read + Drop> Source for StdSource<R> {
    ghost state = { untold_source };

    /// Reads once. An error of any kind is a fault, also that a signal came first.
    fn read(&mut self, into: &mut [u8]) -> Result<usize, Failed>
        ensures within { IfOk result (λ n. n ≤ length into.new) }
        ensures came { IfOk result
            (λ n. Came (untold_source self.old).rest (take n into.new) (untold_source self.new).rest) }
        ensures end { IfOk result
            (λ n. n ≡ 0 → 0 < length into.new → IsAtEnd (untold_source self.old).rest) }
        ensures count { self.old.faults ≤ self.new.faults }
        ensures failed { OnErr result (Rose self.old.faults self.new.faults) }
        ensures kept { OnErr result ((untold_source self.new).rest ≡ (untold_source self.old).rest) }

        // It gives what the reader gives, and a fault raises the count by one.
        ensures read { ReadConsumes (R.remaining self.old.inner) (R.remaining self.new.inner) result
            into.new }
        ensures after { OnOk result (self.new.faults ≡ self.old.faults) }
        ensures after_fault { OnErr result (self.new.faults ≡ next_count self.old.faults) }
    {
        match self.reader.read(into) {
            Ok(n) => Ok(n),
            Err(_) => Err(count_fault(&mut self.faults)),
        }
    }
}
