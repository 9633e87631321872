//! Concatenations improved by exchange: the items of a cluster are replaced by a least concatenation of what the others
//! leave apart, for the clusters around all parts, until nothing is gained.

use crate::cluster::cluster_around;
use crate::concatenation::drop_needless;
use crate::item::Numbered;
use crate::joining::Joining;
use crate::sets::single;
use crate::table::Table;
use std::alloc::{AllocError, Global};
use std::mem;

// How often all clusters are gone through while something is gained.
const ROUNDS: u8 = 10;

/// What improving works with.
#[derive(Drop)]
pub struct Improver {
    table: Table,
    // The clusters that gained nothing since the last change, as places.
    idle: Vec<u64>,
    // The concatenation that is tried.
    next: Vec<Numbered>,
}

impl Improver {
    /// The work space. It takes no memory.
    pub fn new(alloc: Global) -> Improver {
        Improver {
            table: Table::new(),
            idle: Vec::new(alloc),
            next: Vec::new(alloc),
        }
    }

    /// Improves a concatenation of the items; it has no needless item then. An `Err` is want of memory.
    pub fn improve(
        &mut self,
        parts: u8,
        items: &[Numbered],
        chosen: &mut Vec<Numbered>,
    ) -> Result<(), AllocError> {
        drop_needless(parts, chosen)?;
        self.idle.clear();
        for _ in 0..ROUNDS {
            if !self.improve_once(parts, items, chosen)? {
                break;
            }
        }
        Ok(())
    }

    // Goes through the clusters around all parts; tells whether something was gained. An `Err` is want of memory.
    fn improve_once(
        &mut self,
        parts: u8,
        items: &[Numbered],
        chosen: &mut Vec<Numbered>,
    ) -> Result<bool, AllocError> {
        let mut shorter = false;
        for centre in 0..parts {
            let cheap = cluster_around(chosen, centre, false);
            shorter |= self.improve_cluster(parts, items, cheap, chosen)?;
            let dear = cluster_around(chosen, centre, true);
            shorter |= self.improve_cluster(parts, items, dear, chosen)?;
        }
        Ok(shorter)
    }

    // Solves a cluster, unless it gained nothing since the last change. An `Err` is want of memory.
    fn improve_cluster(
        &mut self,
        parts: u8,
        items: &[Numbered],
        cluster: u64,
        chosen: &mut Vec<Numbered>,
    ) -> Result<bool, AllocError> {
        if self.idle.contains(&cluster) {
            return Ok(false);
        }
        if self.solve(parts, items, cluster, chosen)? {
            self.idle.clear();
            return Ok(true);
        }
        self.idle.push(cluster)?;
        Ok(false)
    }

    // Replaces the items of a cluster, where that is shorter. An `Err` is want of memory.
    fn solve(
        &mut self,
        parts: u8,
        items: &[Numbered],
        cluster: u64,
        chosen: &mut Vec<Numbered>,
    ) -> Result<bool, AllocError> {
        let (joining, length) = self.keep_others(parts, cluster, chosen)?;
        let count = joining.count;
        if count < 3 || count > 8 {
            return Ok(false);
        }
        let blocks = blocks_of(&joining);
        let all = u8::MAX.wrapping_shr(u32::from(8 - count));
        if self.table.find(items, &blocks, all) >= length {
            return Ok(false);
        }
        self.table.read(all, &mut self.next)?;
        drop_needless(parts, &mut self.next)?;
        mem::swap(&mut self.next, chosen);
        Ok(true)
    }

    // Puts the items outside a cluster into the next concatenation: the blocks that they join, and the length of those
    // in the cluster. An `Err` is want of memory.
    fn keep_others(
        &mut self,
        parts: u8,
        cluster: u64,
        chosen: &[Numbered],
    ) -> Result<(Joining, u64), AllocError> {
        self.next.clear();
        let mut joining = Joining::apart(parts);
        let mut length = 0u64;
        let mut place = 0u8;
        for item in chosen {
            if cluster & single(place) != 0 {
                length = length.saturating_add(item.length);
            } else {
                joining.join(item.touched);
                self.next.push(*item)?;
            }
            place = place.wrapping_add(1);
        }
        Ok((joining, length))
    }
}

// The first 8 blocks, by their least parts; empty ones past the last.
fn blocks_of(joining: &Joining) -> [u64; 8] {
    let mut blocks = [0; 8];
    let mut count = 0u8;
    for part in 0..64u8 {
        let block = joining.block(part);
        if block & single(part).wrapping_sub(1) == 0 && count < 8 {
            blocks[(count & 7) as usize] = block;
            count = count.wrapping_add(1);
        }
    }
    blocks
}
