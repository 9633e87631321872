//! Sets of numbers below a size.

ghost use Rattle.std.specs.Prelude.{◌≡◌, ℕ, ◌+◌, ◌*◌, ◌/◌, ◌%◌, ◌==◌, ◌<◌, ◌||◌, ◌&&◌, true, false, length, replicate, slice_get, slice_set, IfOk};
ghost use Rattle.std.specs.Int.{bit_at};
ghost use Rattle.net_graph.specs.Flags.{has, flag_of_four};

use std::alloc::{AllocError, Global};
use std::marker::Model;

/// A set of numbers below a size that never changes, 64 flags to a word. Contracts see the list of its flags.
#[derive(Drop)]
pub(crate) struct FlagSet {
    words: Vec<u64>,
    size: u32,
}

impl Model for FlagSet {
    ghost use Rattle.std.specs.Prelude.{◌≡◌, ◌+◌, ◌/◌, List, Bool, length};
    ghost use Rattle.net_graph.specs.Flags.{flags_in_words};

    ghost Value = { List Bool };

    ghost view = { λ s. flags_in_words s.words.items s.size };

    ghost invariant = { λ s. length s.words.items ≡ (s.size + 63) / 64 };
}

impl FlagSet {
    /// The empty set among the numbers below `size`. An error comes where memory is short.
    pub fn empty(alloc: Global, size: u32) -> Result<FlagSet, AllocError>
        ensures { IfOk result (λ s. s ≡ replicate size false) }
    {
        let words = vec![in alloc; 0; size.div_ceil(64) as usize]?;
        Ok(FlagSet { words, size })
    }

    /// The size: the set's numbers are below it.
    pub fn len(&self) -> u32
        ensures { result ≡ length self.now }
    {
        self.size
    }

    /// Whether `n` is in the set.
    pub fn has(&self, n: u32) -> bool
        requires { n < length self.now }
        ensures flag { slice_get self.now n ≡ Some result }
        ensures within { result ≡ has self.now n }
    {
        (self.words[(n / 64) as usize] >> (n % 64)) & 1 == 1
    }

    /// Puts `n` into the set.
    pub fn add(&mut self, n: u32)
        requires { n < length self.old }
        ensures { self.new ≡ slice_set self.old n true }
    {
        self.words[(n / 64) as usize] |= 1 << (n % 64);
    }

    /// Puts those of the four numbers from `4 * place` on into the set that the bits 8, 4, 2 and 1 of the value tell.
    pub fn add_four(&mut self, place: u32, value: u8)
        requires value { value < 16 }
        requires within { 4 * place < length self.old }
        requires told { (r : ℕ) → r < 4 → flag_of_four value r ≡ true → 4 * place + r < length self.old }
        ensures size { length self.new ≡ length self.old }
        ensures flags { (n : ℕ) →
            has self.new n ≡ (has self.old n || (n / 4 == place && flag_of_four value (n % 4))) }
    {
        self.words[(place / 16) as usize] |= mirrored(value) << (place % 16 * 4);
    }

    /// The word of the flags from `64 * place` on, the first at its lowest bit.
    pub fn word(&self, place: u32) -> u64
        requires { 64 * place < length self.now }
        ensures { (r : ℕ) → r < 64 → 64 * place + r < length self.now →
            has self.now (64 * place + r) ≡ (bit_at result r == 1) }
    {
        self.words[place as usize]
    }

    /// Takes `n` out of the set.
    pub fn remove(&mut self, n: u32)
        requires { n < length self.old }
        ensures { self.new ≡ slice_set self.old n false }
    {
        self.words[(n / 64) as usize] &= !(1 << (n % 64));
    }

    /// Takes every number out of the set.
    pub fn clear(&mut self)
        ensures { self.new ≡ replicate (length self.old) false }
    {
        self.words.fill(0);
    }

    /// A set of the same numbers. An error comes where memory is short.
    pub fn copy(&self) -> Result<FlagSet, AllocError>
        ensures { IfOk result (λ s. s ≡ self.now) }
    {
        let words = self.words.clone()?;
        Ok(FlagSet {
            words,
            size: self.size,
        })
    }
}

// The values of four bits with the bits turned round.
const MIRRORED: [u64; 16] = [0, 8, 4, 12, 2, 10, 6, 14, 1, 9, 5, 13, 3, 11, 7, 15];

// The four flags that a value tells, the first at the lowest bit.
fn mirrored(value: u8) -> u64
    requires { value < 16 }
    ensures small { result < 16 }
    ensures flags { (r : ℕ) → r < 4 → (bit_at result r == 1) ≡ flag_of_four value r }
{
    MIRRORED[value as usize]
}
