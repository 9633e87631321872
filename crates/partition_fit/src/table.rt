//! Least concatenations of all sets of few blocks (the method of subsets of Dreyfus and Wagner 1971).

use crate::item::Numbered;
use crate::sets::is_several;
use std::alloc::AllocError;

// A length above those of all concatenations.
const NONE: u64 = u64::MAX / 4;

// How a set of blocks is joined at least length.
#[derive(Clone, Copy)]
enum Way {
    // By nothing: it is one block, or nothing joins it.
    Nothing,
    // By one item.
    Item(Numbered),
    // By those of a set and those of the others with the shared block.
    Divided { one: u8, shared: u8 },
}

/// For each set of at most 8 blocks, one bit for each, the length of a least concatenation of it, and how it is joined.
#[derive(Clone, Copy)]
pub struct Table {
    least: [u64; 256],
    ways: [Way; 256],
}

impl Table {
    /// A table of nothing.
    pub fn new() -> Table {
        Table {
            least: [NONE; 256],
            ways: [Way::Nothing; 256],
        }
    }

    /// Finds the least concatenations of all sets of the blocks; past the last block there are empty ones. It tells the
    /// length of that of all.
    pub fn find(&mut self, items: &[Numbered], blocks: &[u64; 8], all: u8) -> u64 {
        self.begin();
        for item in items {
            self.offer_item(*item, blocks_of(item.touched, blocks));
        }
        for set in 3..all {
            self.divide(set);
        }
        self.divide(all);
        self.least[all as usize]
    }

    /// Appends the items of a least concatenation of a set, which there is. An `Err` is want of memory.
    pub fn read(&self, set: u8, chosen: &mut Vec<Numbered>) -> Result<(), AllocError> {
        let mut waiting = [0; 16];
        waiting[0] = set;
        let mut count = 1u8;
        for _ in 0..32 {
            if count == 0 {
                break;
            }
            count = count.wrapping_sub(1);
            let now = waiting[(count & 15) as usize];
            match self.ways[now as usize] {
                Way::Nothing => {}
                Way::Item(item) => chosen.push(item)?,
                Way::Divided { one, shared } => {
                    waiting[(count & 15) as usize] = one;
                    waiting[(count.wrapping_add(1) & 15) as usize] = (now & !one) | shared;
                    count = count.wrapping_add(2);
                }
            }
        }
        Ok(())
    }

    // Only sets of one block are joined.
    fn begin(&mut self) {
        self.least = [NONE; 256];
        self.ways = [Way::Nothing; 256];
        for block in 0..8u32 {
            self.least[1u8.wrapping_shl(block) as usize] = 0;
        }
    }

    // Takes an item for the set of blocks that it touches, where it is shorter.
    fn offer_item(&mut self, item: Numbered, set: u8) {
        if item.length < self.least[set as usize] && is_several(u64::from(set)) {
            self.least[set as usize] = item.length;
            self.ways[set as usize] = Way::Item(item);
        }
    }

    // Divides a set, whose proper subsets are done, at each block.
    fn divide(&mut self, set: u8) {
        let mut shares = set;
        for _ in 0..8 {
            if shares == 0 {
                break;
            }
            let rest = shares & shares.wrapping_sub(1);
            self.divide_at(set, shares & !rest);
            shares = rest;
        }
    }

    // Divides a set at a shared block into two smaller sets, of which one has the least of the other blocks.
    fn divide_at(&mut self, set: u8, shared: u8) {
        let others = set & !shared;
        let free = others & others.wrapping_sub(1);
        let first = others & !free;
        let mut part = free;
        for _ in 0..128 {
            if part == 0 {
                break;
            }
            part = part.wrapping_sub(1) & free;
            self.offer_division(set, part | first | shared, shared);
        }
    }

    // Takes a division, where it is shorter.
    fn offer_division(&mut self, set: u8, one: u8, shared: u8) {
        let other = (set & !one) | shared;
        let length = self.least[one as usize].saturating_add(self.least[other as usize]);
        if length < self.least[set as usize] {
            self.least[set as usize] = length;
            self.ways[set as usize] = Way::Divided { one, shared };
        }
    }
}

// The blocks that a set of parts touches, one bit for each.
fn blocks_of(touched: u64, blocks: &[u64; 8]) -> u8 {
    let mut set = 0;
    for number in 0..8u8 {
        if touched & blocks[number as usize] != 0 {
            set |= 1u8.wrapping_shl(u32::from(number));
        }
    }
    set
}
