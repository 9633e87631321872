//! A writer of the system as a sink.

ghost use Rattle.std.specs.Prelude.{◌≡◌, ◌+◌, ◌<◌, ◌≤◌, length, take, IfOk, OnOk, OnErr};
ghost use Rattle.std.specs.Io.KnownBytes.{WriteAppends};
ghost use Rattle.rst_outside.specs.Counts.{Rose, next_count};
ghost use Rattle.rst_outside.specs.Sink.{Appended};
ghost use Rattle.rst_outside.specs.Untold.{untold_sink};

use crate::faults::count_fault;
use crate::sink::Sink;
use crate::source::Failed;
use std::io::Write;
use std::marker::Model;

/// A writer as a sink, as standard output or standard error. Contracts see the writer and a count of faults.
#[derive(Drop)]
pub struct StdSink<W: Write + Drop> {
    writer: W,
    faults: u64,
}

impl<W: Write + Drop> Model for StdSink<W> {
    ghost use Rattle.rst_outside.specs.Untold.{Counted};

    ghost Value = { Counted W };

    ghost view = { λ s. record { inner = s.writer; faults = s.faults } };
}

impl<W: Write + Drop> StdSink<W> {
    /// The writer as a sink that has not failed yet. It is never flushed, so give one that holds nothing
    /// back, as `stdout()` and `stderr()` of `HostRuntime`.
    pub fn new(writer: W) -> Self
        ensures { result ≡ record { inner = writer; faults = 0 } }
    {
        StdSink { writer, faults: 0 }
    }
}

impl<W: Write + Drop> Sink for StdSink<W> {
    ghost state = { untold_sink };

    /// Writes once. An error of any kind is a fault, also that a signal came first or that no byte was taken.
    fn write(&mut self, from: &[u8]) -> Result<usize, Failed>
        ensures within { IfOk result (λ n. n ≤ length from.now) }
        ensures some { IfOk result (λ n. 0 < length from.now → 0 < n) }
        ensures appended { IfOk result
            (λ n. Appended (untold_sink self.old).taken (take n from.now) (untold_sink self.new).taken) }
        ensures room { IfOk result (λ n. (untold_sink self.old).sure ≤ (untold_sink self.new).sure + n) }
        ensures count { self.old.faults ≤ self.new.faults }
        ensures failed { OnErr result (Rose self.old.faults self.new.faults) }
        ensures kept { OnErr result ((untold_sink self.new).taken ≡ (untold_sink self.old).taken) }
        ensures no_room { OnErr result
            (((untold_sink self.old).sure ≡ 0) × ((untold_sink self.new).sure ≡ 0)) }

        // The writer has what was taken, and a fault raises the count by one.
        ensures written { WriteAppends (W.contents self.old.inner) (W.contents self.new.inner) result
            from.now }
        ensures after { OnOk result (self.new.faults ≡ self.old.faults) }
        ensures after_fault { OnErr result (self.new.faults ≡ next_count self.old.faults) }
    {
        match self.writer.write(from) {
            Ok(n) if n > 0 || from.is_empty() => Ok(n),
            _ => Err(count_fault(&mut self.faults)),
        }
    }
}
