//! The fit of a chain along a concatenation: the weights of each item's group sum to its length, so the chain bounds as
//! much as the concatenation is long; what is above the wanted bound is spare. What overloads other items is worked
//! off.

use crate::chain::Chain;
use crate::fitted::{Fitted, crossed};
use crate::groups::Groups;
use crate::item::{Item, Numbered};
use crate::joining::Joining;
use crate::sets::{joins, lowest, place, without_lowest};
use crate::sides::sides;
use std::alloc::{AllocError, Global};

// The fixed generator of the redraw (Knuth's MMIX); its lowest bits are poor and aren't used.
const FACTOR: u64 = 6364136223846793005;

const STEP: u64 = 1442695040888963407;

const UNUSED_BITS: u32 = 40;

/// A fit.
#[derive(Drop)]
pub struct Fit {
    pub chain: Chain,
    pub groups: Groups,
    pub items: Vec<Fitted>,
    pub spare: u64,
    /// The items whose loads a shift of weight may change.
    pub line: Vec<Item>,
    turn: u64,
}

impl Fit {
    /// The work space. It takes no memory.
    pub fn new(alloc: Global) -> Fit {
        Fit {
            chain: Chain::empty(),
            groups: Groups::empty(),
            items: Vec::new(alloc),
            spare: 0,
            line: Vec::new(alloc),
            turn: 0,
        }
    }

    /// Begins along a concatenation, with the heights of a growth and no item; the bound is to be at least the target.
    pub fn begin(&mut self, parts: u8, chosen: &[Numbered], grown: &Chain, target: u64) {
        let mut chain = Chain::empty();
        let mut groups = Groups::empty();
        let mut joining = Joining::apart(parts);
        for item in chosen {
            groups.add(*item, grown, &mut chain, &mut joining);
        }
        chain.merge();
        self.spare = chain.bound().saturating_sub(target);
        self.chain = chain;
        self.groups = groups;
        self.items.clear();
        self.turn = 0;
    }

    /// Takes an item in. An `Err` is want of memory.
    pub fn add(&mut self, item: Numbered, sides: &[u64; 64]) -> Result<(), AllocError> {
        let fitted = Fitted::of(item, &self.chain, sides);
        self.items.push(fitted)?;
        Ok(())
    }

    /// Gives the same chain other edges: the edge of a rank may run between any two parts of its group that lie in the
    /// two blocks that it joins. Loads stay; which edges an item crosses is new.
    pub fn redraw(&mut self) {
        for rank in 0..self.chain.count {
            let merge = self.chain.at_rank(rank);
            let touched = self.groups.group_of(merge.edge).touched;
            let from = self.draw(merge.a & touched);
            let to = self.draw(merge.b & touched);
            self.chain.set_ends(merge.edge, from, to);
        }
        self.find_crossed();
    }

    /// The item that the chain overloads most for all parts that it joins, leaving out the chosen ones.
    pub fn most_overloaded(&self, chosen: &[Numbered]) -> Option<u32> {
        let mut most = 0;
        let mut number = None;
        for fitted in &self.items {
            let value = fitted.overload().saturating_mul(joins(fitted.item.touched));
            if value > most && !is_among(fitted.item.number, chosen) {
                most = value;
                number = Some(fitted.item.number);
            }
        }
        number
    }

    // Finds which edges the items cross.
    fn find_crossed(&mut self) {
        let sides = sides(&self.chain);
        let count = self.chain.count;
        for fitted in self.items.iter_mut() {
            fitted.crossed = crossed(fitted.item.touched, count, &sides);
        }
    }

    // A number of a set that isn't empty.
    fn draw(&mut self, set: u64) -> u8 {
        self.turn = self.turn.wrapping_mul(FACTOR).wrapping_add(STEP);
        let drawn = self.turn.wrapping_shr(UNUSED_BITS);
        let skipped = drawn.checked_rem(u64::from(set.count_ones())).unwrap_or(0);
        let mut rest = set;
        for _ in 0..skipped {
            rest = without_lowest(rest);
        }
        lowest(rest)
    }
}

/// Whether one of the items has a number.
pub fn is_among(number: u32, items: &[Numbered]) -> bool {
    for item in items {
        if item.number == number {
            return true;
        }
    }
    false
}
