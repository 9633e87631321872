//! Where bytes go.

ghost use Rattle.std.specs.Prelude.{◌≡◌, ℕ, ◌+◌, ◌<◌, ◌≤◌, length, take, IfOk, OnErr, OnOk};
ghost use Rattle.rst_outside.specs.Counts.{Rose};
ghost use Rattle.rst_outside.specs.Sink.{SinkState, Appended, Writes};

use crate::source::Failed;

/// A text was cut short, because the sink failed.
#[derive(Clone, Copy, Debug)]
pub struct PutFault;

/// A sink of bytes, as standard output or a buffer in memory.
pub trait Sink {
    /// What a contract may know of it: its count of faults, at most 2^64-1, its sure room and what it took.
    ghost state: { Self → SinkState };

    /// Appends some first bytes of `from`, and tells how many: at least one where there is one.
    fn write(&mut self, from: &[u8]) -> Result<usize, Failed>
        ensures within { IfOk result (λ n. n ≤ length from.now) }
        ensures some { IfOk result (λ n. 0 < length from.now → 0 < n) }
        ensures appended { IfOk result
            (λ n. Appended (state self.old).taken (take n from.now) (state self.new).taken) }
        ensures room { IfOk result (λ n. (state self.old).sure ≤ (state self.new).sure + n) }
        ensures count { (state self.old).faults ≤ (state self.new).faults }
        ensures failed { OnErr result (Rose (state self.old).faults (state self.new).faults) }
        ensures kept { OnErr result ((state self.new).taken ≡ (state self.old).taken) }
        ensures no_room { OnErr result (((state self.old).sure ≡ 0) × ((state self.new).sure ≡ 0)) };
}

/// Writes all the bytes. After `PutFault`, which comes only where a write failed, the bytes before it stay
/// written. It takes no memory.
pub fn put_all<S: Sink>(sink: &mut S, bytes: &[u8]) -> Result<(), PutFault>
    ensures { Writes (S.state sink.old) bytes.now (S.state sink.new) result }
{
    let mut rest = bytes;
    while !rest.is_empty() {
        match sink.write(rest) {
            Ok(n) => rest = &rest[n..],
            Err(Failed) => return Err(PutFault),
        }
    }
    Ok(())
}
