//! A queue of ways in buckets by their price (Dial 1969): within a bucket the last one comes first.

use cut_groups::{NONE, at, count, set};
use std::alloc::{AllocError, Global};

// Prices below the limit fall into so many buckets, of which 64 share a word.
const BUCKETS: u32 = 4096;

const WORDS: u32 = BUCKETS / 64;

/// A way that ends at a face.
#[derive(Clone, Copy)]
pub struct Way {
    pub price: i64,
    pub face: u32,
    // The next one of its bucket, or `NONE`.
    next: u32,
}

/// The queue.
#[derive(Drop)]
pub struct Buckets {
    // All that came in, those that went out too.
    ways: Vec<Way>,
    // The last way of each bucket, or `NONE`.
    lasts: Vec<u32>,
    // A bit for each bucket that isn't empty.
    filled: Vec<u64>,
    // No bucket below this word is filled.
    word: u32,
    // The width of a bucket is 2 to this.
    shift: u32,
}

const NO_WAY: Way = Way {
    price: 0,
    face: NONE,
    next: NONE,
};

impl Buckets {
    /// The empty queue. An `Err` is want of memory.
    pub fn new(alloc: Global) -> Result<Buckets, AllocError> {
        Ok(Buckets {
            ways: Vec::new(alloc),
            lasts: vec![in alloc; NONE; BUCKETS as usize]?,
            filled: vec![in alloc; 0; WORDS as usize]?,
            word: 0,
            shift: 0,
        })
    }

    /// Empties the queue, for prices below a limit.
    pub fn clear(&mut self, limit: i64) {
        for word in self.word..WORDS {
            self.empty(word);
        }
        self.ways.clear();
        self.word = 0;
        self.shift = 52u32.saturating_sub(limit.max(1).leading_zeros());
    }

    // Empties the buckets that share a word: those that went empty before have no last way.
    #[inline]
    fn empty(&mut self, word: u32) {
        let mut bits = at(&self.filled, word, 0);
        for _ in 0..bits.count_ones() {
            let bucket = word.wrapping_mul(64).wrapping_add(bits.trailing_zeros());
            set(&mut self.lasts, bucket, NONE);
            bits &= bits.wrapping_sub(1);
        }
        set(&mut self.filled, word, 0);
    }

    /// Takes in a way; its price is at least 0 and below the limit. An `Err` is want of memory.
    #[inline]
    pub fn push(&mut self, price: i64, face: u32) -> Result<(), AllocError> {
        let bucket = bucket_of(price, self.shift);
        let number = count(&self.ways);
        let next = at(&self.lasts, bucket, NONE);
        self.ways.push(Way { price, face, next })?;
        set(&mut self.lasts, bucket, number);
        let word = bucket / 64;
        let bits = at(&self.filled, word, 0) | 1u64.wrapping_shl(bucket % 64);
        set(&mut self.filled, word, bits);
        self.word = self.word.min(word);
        Ok(())
    }

    // The first bucket that isn't empty; `NONE` where all are.
    fn first(&mut self) -> u32 {
        for word in self.word..WORDS {
            let bits = at(&self.filled, word, 0);
            if bits != 0 {
                self.word = word;
                return word.wrapping_mul(64).wrapping_add(bits.trailing_zeros());
            }
        }
        NONE
    }

    /// A price that no way in the queue is below; `None` where the queue is empty.
    #[inline]
    pub fn low(&mut self) -> Option<i64> {
        let bucket = self.first();
        if bucket == NONE {
            return None;
        }
        Some(i64::from(bucket).wrapping_shl(self.shift))
    }

    /// Takes a way out of the first bucket.
    #[inline]
    pub fn pop(&mut self) -> Option<Way> {
        let bucket = self.first();
        let way = self
            .ways
            .get(at(&self.lasts, bucket, NONE) as usize)
            .copied();
        let next = way.unwrap_or(NO_WAY).next;
        set(&mut self.lasts, bucket, next);
        if next == NONE {
            let word = bucket / 64;
            let bits = at(&self.filled, word, 0) & !1u64.wrapping_shl(bucket % 64);
            set(&mut self.filled, word, bits);
        }
        way
    }
}

// The bucket of a price.
#[inline]
fn bucket_of(price: i64, shift: u32) -> u32 {
    let bucket = price.wrapping_shr(shift).clamp(0, 4095);
    u32::try_from(bucket).unwrap_or(0)
}
