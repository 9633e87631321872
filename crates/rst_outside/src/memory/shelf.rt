//! A shelf of files in memory.

ghost use Rattle.std.specs.Prelude.{◌≡◌, ◌↔◌, ◌⊎◌, ◌-◌, ◌<◌, ◌≤◌, length, take, drop, min, option_copied, IfOk, OnOk, OnErr, IsErr};
ghost use Rattle.std.specs.List.{Contains};
ghost use Rattle.rst_outside.specs.Counts.{Rose};
ghost use Rattle.rst_outside.specs.Shelf.{OfFile, file_named};
ghost use Rattle.rst_outside.specs.Memory.{shelf_state_of, after_read_at, after_failed_read_at};

use super::copy::copy_front;
use super::plan::Plan;
use crate::faults::count_fault;
use crate::shelf::Shelf;
use crate::source::Failed;
use std::marker::Model;

/// A file with its name. Contracts see the bytes of both.
#[derive(Drop)]
pub struct ShelfFile {
    /// What the file is asked for by.
    pub name: String,
    /// What the file holds.
    pub bytes: Vec<u8>,
}

impl Model for ShelfFile {
    ghost use Rattle.std.specs.Prelude.{ℕ, List, string_bytes};

    ghost Value = { List ℕ × List ℕ };

    ghost view = { λ f. (string_bytes f.name, f.bytes.items) };
}

/// Files in memory as a shelf, which fails at stated calls.
#[derive(Drop)]
pub struct MemShelf {
    files: Vec<ShelfFile>,
    plan: Plan,
}

impl Model for MemShelf {
    ghost use Rattle.rst_outside.specs.Memory.{MemShelfState};

    ghost Value = { MemShelfState };

    ghost view = { λ s. record {
      files = s.files.items;
      failing = s.plan.failing.items;
      calls = s.plan.calls;
      faults = s.plan.faults;
    } };
}

impl MemShelf {
    /// A shelf of the files, of which the first with a name counts. It fails where no file has the name, and at
    /// the calls whose numbers, counted from 0, stand in `failing`, in any order. The number of calls stops at
    /// 2^64-1, as does the count of faults.
    pub fn new(files: Vec<ShelfFile>, failing: Vec<u64>) -> Self
        ensures { result ≡ record {
          files = files.items;
          failing = failing.items;
          calls = 0;
          faults = 0;
        } }
    {
        MemShelf {
            files,
            plan: Plan::new(failing),
        }
    }
}

impl Shelf for MemShelf {
    ghost state = { shelf_state_of };

    fn read_at(&mut self, name: &str, at: u64, into: &mut [u8]) -> Result<usize, Failed>
        ensures within { IfOk result (λ n. n ≤ length into.new) }
        ensures bytes { IfOk result (λ n. OfFile (shelf_state_of self.old).files name.now
            (λ file. take n into.new ≡ take n (drop at file))) }
        ensures end { IfOk result (λ n. 0 < length into.new →
            OfFile (shelf_state_of self.old).files name.now (λ file. (n ≡ 0) ↔ (length file ≤ at))) }
        ensures files { (shelf_state_of self.new).files ≡ (shelf_state_of self.old).files }
        ensures count { self.old.faults ≤ self.new.faults }
        ensures failed { OnErr result (Rose self.old.faults self.new.faults) }

        // It fails where it was told to or has no such file, and else gives as much as fits.
        ensures fails { IsErr result ↔ (Contains self.old.failing self.old.calls
            ⊎ (file_named self.old.files name.now ≡ None)) }
        ensures gives { IfOk result (λ n. OfFile (shelf_state_of self.old).files name.now
            (λ file. n ≡ min (length into.new) (length file - at))) }
        ensures after { OnOk result (self.new ≡ after_read_at self.old) }
        ensures after_fault { OnErr result (self.new ≡ after_failed_read_at self.old) }
    {
        let fails = self.plan.next_call_fails();
        match bytes_named(&self.files, name) {
            Some(bytes) if !fails => Ok(copy_front(bytes_from(bytes, at), into)),
            _ => Err(count_fault(&mut self.plan.faults)),
        }
    }
}

/// The bytes of the first file with this name.
fn bytes_named<'a>(files: &'a [ShelfFile], name: &str) -> Option<&'a [u8]>
    ensures { option_copied result ≡ file_named files.now name.now }
{
    for file in files {
        if file.name.as_str() == name {
            return Some(&file.bytes);
        }
    }
    None
}

/// The bytes from the one at `at` on: none where that is past the end.
fn bytes_from(bytes: &[u8], at: u64) -> &[u8]
    ensures { result.now ≡ drop at bytes.now }
{
    &bytes[bytes.len().min(at as usize)..]
}
