//! The calls of a source or a sink in memory that fail.

ghost use Rattle.std.specs.Prelude.{◌≡◌, ◌↔◌, IsTrue};
ghost use Rattle.std.specs.List.{Contains};
ghost use Rattle.rst_outside.specs.Counts.{next_count};

/// Which calls fail, and how many calls there were and failed. The counts stop at 2^64-1.
#[derive(Drop)]
pub(super) struct Plan {
    /// The numbers of the calls that fail, counted from 0.
    pub(super) failing: Vec<u64>,
    pub(super) calls: u64,
    pub(super) faults: u64,
}

impl Plan {
    /// A plan before its first call.
    pub(super) fn new(failing: Vec<u64>) -> Self
        ensures failing { result.failing ≡ failing }
        ensures calls { result.calls ≡ 0 }
        ensures faults { result.faults ≡ 0 }
    {
        Plan {
            failing,
            calls: 0,
            faults: 0,
        }
    }

    /// Counts a call, and tells whether it is one that fails.
    pub(super) fn next_call_fails(&mut self) -> bool
        ensures listed { IsTrue result ↔ Contains self.old.failing.items self.old.calls }
        ensures counted { self.new ≡ record self.old { calls = next_count self.old.calls } }
    {
        let fails = self.failing.contains(&self.calls);
        self.calls = self.calls.saturating_add(1);
        fails
    }
}
