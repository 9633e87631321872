//! Where bytes come from.

ghost use Rattle.std.specs.Prelude.{◌≡◌, ℕ, ◌<◌, ◌≤◌, length, take, IfOk, OnErr, OnOk};
ghost use Rattle.rst_outside.specs.Counts.{Rose};
ghost use Rattle.rst_outside.specs.Source.{SourceState, Came, IsAtEnd};

/// A read or a write failed, and nothing was moved.
#[derive(Clone, Copy)]
pub struct Failed;

/// A source of bytes, as standard input or bytes in memory.
pub trait Source {
    /// What a contract may know of it: its count of faults, at most 2^64-1, and its rest.
    ghost state: { Self → SourceState };

    /// Reads some of the next bytes to the front of `into`, and tells how many. For a nonempty `into`
    /// 0 is the end.
    fn read(&mut self, into: &mut [u8]) -> Result<usize, Failed>
        ensures within { IfOk result (λ n. n ≤ length into.new) }
        ensures came { IfOk result
            (λ n. Came (state self.old).rest (take n into.new) (state self.new).rest) }
        ensures end { IfOk result (λ n. n ≡ 0 → 0 < length into.new → IsAtEnd (state self.old).rest) }
        ensures count { (state self.old).faults ≤ (state self.new).faults }
        ensures failed { OnErr result (Rose (state self.old).faults (state self.new).faults) }
        ensures kept { OnErr result ((state self.new).rest ≡ (state self.old).rest) };
}
