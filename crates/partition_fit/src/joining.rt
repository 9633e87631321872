//! The blocks that sets of parts join.

use crate::sets::{all_below, lowest, place, single, without_lowest};

/// Disjoint blocks of parts: for each part the block that has it.
#[derive(Clone, Copy)]
pub struct Joining {
    blocks: [u64; 64],
    /// How many blocks there are.
    pub count: u8,
}

impl Joining {
    /// So many parts, each by itself.
    pub fn apart(parts: u8) -> Joining {
        let mut blocks = [0; 64];
        for part in 0..64u8 {
            blocks[part as usize] = single(part);
        }
        Joining {
            blocks,
            count: parts,
        }
    }

    /// The block of a part.
    pub fn block(&self, part: u8) -> u64 {
        self.blocks[place(part)]
    }

    /// Whether all parts are in one block.
    pub fn is_one(&self, parts: u8) -> bool {
        self.blocks[0] == all_below(parts)
    }

    /// Joins the blocks of all parts of a set, which isn't empty; tells whether they were several.
    pub fn join(&mut self, set: u64) -> bool {
        let (union, count) = self.union(set);
        if count < 2 {
            return false;
        }
        let mut rest = union;
        for _ in 0..64 {
            if rest == 0 {
                break;
            }
            self.blocks[place(lowest(rest))] = union;
            rest = without_lowest(rest);
        }
        self.count = self.count.saturating_sub(count).saturating_add(1);
        true
    }

    // All parts of the blocks that a set touches, and how many blocks these are.
    fn union(&self, set: u64) -> (u64, u8) {
        let mut union = 0;
        let mut count = 0u8;
        let mut rest = set;
        for _ in 0..64 {
            if rest == 0 {
                break;
            }
            let block = self.blocks[place(lowest(rest))];
            union |= block;
            count = count.wrapping_add(1);
            rest = without_lowest(rest) & !block;
        }
        (union, count)
    }
}
