//! Files by their names.

ghost use Rattle.std.specs.Prelude.{◌≡◌, ◌↔◌, ◌<◌, ◌≤◌, length, take, drop, IfOk, OnErr};
ghost use Rattle.rst_outside.specs.Counts.{Rose};
ghost use Rattle.rst_outside.specs.Shelf.{ShelfState, OfFile};

use crate::source::Failed;

/// Files that are read by their names, as those of a folder.
pub trait Shelf {
    /// What a contract may know of it: its count of faults, at most 2^64-1, and its files.
    ghost state: { Self → ShelfState };

    /// Reads some bytes of the file `name`, from its byte `at` on, to the front of `into`, and tells how
    /// many. For a nonempty `into` 0 says that `at` is at the file's end or past it. Where no file has the
    /// name the read fails.
    fn read_at(&mut self, name: &str, at: u64, into: &mut [u8]) -> Result<usize, Failed>
        ensures within { IfOk result (λ n. n ≤ length into.new) }
        ensures bytes { IfOk result (λ n. OfFile (state self.old).files name.now
            (λ file. take n into.new ≡ take n (drop at file))) }
        ensures end { IfOk result (λ n. 0 < length into.new →
            OfFile (state self.old).files name.now (λ file. (n ≡ 0) ↔ (length file ≤ at))) }
        ensures files { (state self.new).files ≡ (state self.old).files }
        ensures count { (state self.old).faults ≤ (state self.new).faults }
        ensures failed { OnErr result (Rose (state self.old).faults (state self.new).faults) };
}
