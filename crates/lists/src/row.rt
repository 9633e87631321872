//! Rows of numbers.

ghost use Rattle.std.specs.Prelude.{◌≡◌, ◌<◌, length, replicate, slice_get, slice_set, Some, IfOk};
ghost use Rattle.std.specs.Borrow.{sem};
ghost use Rattle.lists.specs.RowLending.{LendsNumbers};

use std::alloc::{AllocError, Global};
use std::marker::Model;

/// A row of 64-bit numbers whose length never changes. Contracts see it as a list.
#[derive(Drop)]
pub struct Row {
    numbers: Vec<u64>,
}

impl Model for Row {
    ghost use Rattle.std.specs.Prelude.{ℕ, ◌<◌, ◌^◌, List, length};

    ghost Value = { List ℕ };

    ghost view = { λ row. row.numbers.items };

    ghost invariant = { λ row. length row.numbers.items < 2 ^ 32 };
}

impl Row {
    /// A row of so many zeros. An `Err` is want of memory.
    pub fn zeros(alloc: Global, len: u32) -> Result<Row, AllocError>
        ensures { IfOk result (λ row. row ≡ replicate len 0) }
    {
        let numbers = vec![in alloc; 0; len as usize]?;
        Ok(Row { numbers })
    }

    /// How many numbers there are. No tool asks for it.
    pub fn len(&self) -> u32
        ensures { result ≡ length self.now }
    {
        self.numbers.len() as u32
    }

    /// The number at a place, counted from 0.
    pub fn get(&self, n: u32) -> u64
        requires { n < length self.now }
        ensures { slice_get self.now n ≡ Some result }
    {
        self.numbers[n as usize]
    }

    /// Writes a number at a place.
    pub fn set(&mut self, n: u32, value: u64)
        requires { n < length self.old }
        ensures { self.new ≡ slice_set self.old n value }
    {
        self.numbers[n as usize] = value;
    }

    /// All numbers, to be changed in place.
    pub fn numbers_mut(&mut self) -> &mut [u64]
        ensures* writes_back { sem 𝓛 (LendsNumbers self.entry result) }
        ensures value { result.now ≡ self.old }
    {
        self.numbers.as_mut_slice()
    }
}
