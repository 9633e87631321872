//! The rounding of weights, group by group.

use crate::groups::numbers_below;
use crate::loads::Loads;
use crate::state::State;
use cut_groups::{NONE, Random, at, count};
use cut_pool::{PARTS, Pool};
use std::alloc::{AllocError, Global};

/// What makes the weights of groups whole.
#[derive(Drop)]
pub struct Rounder {
    // The groups in the order in which they become whole, and how many are.
    order: Vec<u32>,
    whole: u32,
    // The cuts of a group, with what they are ordered by.
    members: Vec<(i64, u32)>,
}

impl Rounder {
    /// None of so many groups is whole. An `Err` is want of memory.
    pub fn new(alloc: Global, groups: u32) -> Result<Rounder, AllocError> {
        Ok(Rounder {
            order: numbers_below(alloc, groups)?,
            whole: 0,
            members: Vec::new(alloc),
        })
    }

    /// Begins anew, in a drawn order.
    pub fn begin(&mut self, random: &mut Random) {
        self.whole = 0;
        random.shuffle(&mut self.order);
    }

    /// Makes groups whole until so many are, and tells whether all are. An `Err` is want of memory.
    pub fn advance(&mut self, state: &mut State, aim: u32) -> Result<bool, AllocError> {
        for place in self.whole..aim {
            let group = at(&self.order, place, NONE);
            state.groups.coarsen(group);
            self.round(&mut state.pool, &mut state.loads, group)?;
        }
        self.whole = self.whole.max(aim);
        Ok(self.whole >= count(&self.order))
    }

    /// Rounds the weights of all groups. An `Err` is want of memory.
    pub fn round_all(&mut self, pool: &mut Pool, loads: &mut Loads) -> Result<(), AllocError> {
        for group in 0..pool.groups() {
            self.round(pool, loads, group)?;
        }
        Ok(())
    }

    // Rounds the weights of a group to whole units. The running
    // sum is rounded, larger cuts first: each weight moves by at most one unit, and since the sum of
    // the group is whole already it stays. An `Err` is want of memory.
    fn round(&mut self, pool: &mut Pool, loads: &mut Loads, group: u32) -> Result<(), AllocError> {
        self.gather(pool, group)?;
        let mut sum = 0i64;
        let mut given = 0i64;
        for (_, cut) in &self.members {
            let weight = pool.cut(*cut).weight;
            sum = sum.wrapping_add(weight);
            let rounded = rounded(sum);
            let change = rounded.wrapping_sub(given).wrapping_sub(weight);
            if change != 0 {
                loads.give(pool, *cut, change);
            }
            given = rounded;
        }
        Ok(())
    }

    // Puts the cuts of a group in order: larger weights first. An `Err` is want of memory.
    fn gather(&mut self, pool: &Pool, group: u32) -> Result<(), AllocError> {
        self.members.clear();
        let mut cut = pool.first(group);
        for _ in 0..pool.len() {
            if cut == NONE {
                break;
            }
            let weight = pool.cut(cut).weight;
            self.members.push((i64::MAX.wrapping_sub(weight), cut))?;
            cut = pool.next(cut);
        }
        self.members.sort()
    }
}

// A weight rounded to whole units, halves up.
fn rounded(weight: i64) -> i64 {
    let units = weight.wrapping_add(PARTS / 2) / PARTS;
    units.wrapping_mul(PARTS)
}
