//! The loads of the arcs, what is above their thresholds, and the prices that follow from it.

use crate::scale::Scale;
use crate::settings::Settings;
use cut_groups::{BLOCKED, NONE, Random, Tree, at, count, set};
use cut_pool::{PARTS, Pool};
use net_graph::NetGraph;
use std::alloc::{AllocError, Global};

/// What an arc costs is this times its overload, and a small charge.
pub const OVER_FACTOR: i64 = 16;

// The charge of an arc grows by this from empty to full, and by a drawn number below the noise.
const FILL_CHARGE: i64 = 8;

const NOISE: u32 = 3;

// The limits of an arc, in parts: the threshold is the capacity until the multipliers lower it.
#[derive(Clone, Copy)]
struct Limit {
    capacity: i64,
    threshold: i64,
}

/// The loads of all arcs, in parts: of each arc off the tree the weights of the cuts that it
/// enters.
#[derive(Drop)]
pub struct Loads {
    limits: Vec<Limit>,
    // Of each arc its load less its threshold, and what of that is above 0, or the most that 32 bits hold: costs are
    // summed from the latter, without a test, as no sum of so many can wrap.
    excess: Vec<i64>,
    overs: Vec<u32>,
    // Of each arc what it costs beside its overload: `BLOCKED` on the tree.
    charges: Vec<i64>,
    prices: Vec<i64>,
    // Thresholds are not lowered below this.
    lowest: i64,
    // The arc of the slack, `NONE` where there is none.
    slack_arc: u32,
    settings: Settings,
}

// The limits of no arc.
const NO_LIMIT: Limit = Limit {
    capacity: 0,
    threshold: 0,
};

impl Loads {
    /// No load, where lengths are counted in a unit. An `Err` is want of memory.
    pub fn none(
        alloc: Global,
        graph: &NetGraph,
        tree: &Tree,
        scale: Scale,
        settings: Settings,
    ) -> Result<Loads, AllocError> {
        let mut loads = Loads {
            limits: Vec::new(alloc),
            excess: Vec::new(alloc),
            overs: Vec::new(alloc),
            charges: Vec::new(alloc),
            prices: Vec::new(alloc),
            lowest: 0,
            slack_arc: NONE,
            settings,
        };
        for edge in graph.edges() {
            let length = scale.units(edge.length);
            loads.push(length)?;
            loads.push(length)?;
        }
        let slack = scale.units(scale.slack);
        if slack > 0 {
            loads.slack_arc = loads.len();
            loads.push(slack)?;
        }
        for group in 0..tree.groups() {
            let arc = tree.arc(group);
            let length = loads.length(arc);
            loads.lowest = loads.lowest.wrapping_sub(length);
            set(&mut loads.charges, arc, BLOCKED);
            set(&mut loads.prices, arc, BLOCKED);
        }
        Ok(loads)
    }

    // Appends an arc of a length in units. An `Err` is want of memory.
    fn push(&mut self, length: i64) -> Result<(), AllocError> {
        let capacity = length.wrapping_mul(PARTS);
        self.limits.push(Limit {
            capacity,
            threshold: capacity,
        })?;
        self.excess.push(capacity.wrapping_neg())?;
        self.overs.push(0)?;
        self.charges.push(1)?;
        self.prices.push(1)?;
        Ok(())
    }

    // The limits of an arc.
    #[inline]
    fn limit(&self, arc: u32) -> Limit {
        at(&self.limits, arc, NO_LIMIT)
    }

    /// The length of an arc.
    pub fn length(&self, arc: u32) -> i64 {
        self.limit(arc).capacity
    }

    /// The lengths of all arcs in units. An `Err` is want of memory.
    pub fn lengths_in_units(&self, alloc: Global) -> Result<Vec<i64>, AllocError> {
        let mut lengths = Vec::new(alloc);
        for limit in &self.limits {
            lengths.push(limit.capacity / PARTS)?;
        }
        Ok(lengths)
    }

    /// The arc of the slack, which every group may load in place of a cut; `NONE` where there is no slack.
    pub fn slack_arc(&self) -> u32 {
        self.slack_arc
    }

    /// How many arcs there are, with that of the slack.
    pub fn len(&self) -> u32 {
        count(&self.limits)
    }

    /// The load of an arc less its threshold.
    #[inline]
    pub fn excess(&self, arc: u32) -> i64 {
        at(&self.excess, arc, 0)
    }

    // The load of an arc.
    fn load(&self, arc: u32) -> i64 {
        at(&self.excess, arc, 0).wrapping_add(self.limit(arc).threshold)
    }

    /// By how much each arc is above its threshold, or the most that 32 bits hold.
    #[inline]
    pub fn overs(&self) -> &[u32] {
        self.overs.as_slice()
    }

    /// Offers a pool the slack in place of a cut of a group, where there is slack. An `Err` is want of memory.
    pub fn offer_slack(&self, pool: &mut Pool, group: u32) -> Result<(), AllocError> {
        if self.slack_arc != NONE {
            pool.offer(group, &[self.slack_arc])?;
        }
        Ok(())
    }

    /// How the exchange goes.
    pub fn settings(&self) -> &Settings {
        &self.settings
    }

    /// The prices of all arcs: by their overload, and a charge.
    #[inline]
    pub fn prices(&self) -> &[i64] {
        self.prices.as_slice()
    }

    /// Adds to the weight of a cut of a pool, and to the loads of the arcs that enter it.
    pub fn give(&mut self, pool: &mut Pool, cut: u32, amount: i64) {
        for arc in pool.entered(cut) {
            self.add(*arc, amount);
        }
        pool.add_weight(cut, amount);
    }

    // Adds to the load of an arc. The price of one that is below its threshold before and after stays.
    #[inline]
    fn add(&mut self, arc: u32, amount: i64) {
        let before = self.excess(arc);
        let after = before.wrapping_add(amount);
        set(&mut self.excess, arc, after);
        if before.max(after) > 0 {
            self.price_anew(arc, after);
        }
    }

    // Sets the overload and the price of an arc whose load less its threshold is so much.
    #[inline]
    fn price_anew(&mut self, arc: u32, excess: i64) {
        let over = u32::try_from(excess.max(0)).unwrap_or(u32::MAX);
        set(&mut self.overs, arc, over);
        let charge = at(&self.charges, arc, BLOCKED);
        let price = if over == 0 && charge < BLOCKED && !self.settings.charges_all {
            0
        } else {
            charge.wrapping_add(i64::from(over).wrapping_mul(OVER_FACTOR))
        };
        set(&mut self.prices, arc, price.min(BLOCKED));
    }

    /// Draws the charges of all arcs: they keep away from full arcs and vary the cuts.
    pub fn draw_charges(&mut self, random: &mut Random) {
        for arc in 0..self.len() {
            if at(&self.charges, arc, BLOCKED) != BLOCKED {
                let noise = i64::from(random.below(NOISE));
                let charge = self.fill_charge(arc).wrapping_add(noise);
                set(&mut self.charges, arc, charge);
                self.price_anew(arc, self.excess(arc));
            }
        }
    }

    // What is charged for an arc by how full it is.
    fn fill_charge(&self, arc: u32) -> i64 {
        let capacity = self.limit(arc).capacity;
        let load = self.load(arc).min(capacity);
        let filled = load.wrapping_mul(FILL_CHARGE).checked_div(capacity);
        filled.unwrap_or(FILL_CHARGE).wrapping_add(1)
    }

    /// Raises the multipliers: lowers the threshold of each arc above its length by as much as it is above, and gives a
    /// lowered one back what it is below (the method of multipliers of Hestenes and Powell 1969, with step 1).
    pub fn raise_multipliers(&mut self) {
        for arc in 0..self.len() {
            let Limit {
                capacity,
                threshold,
            } = self.limit(arc);
            let load = self.load(arc);
            let above = load.wrapping_sub(capacity);
            let moved = threshold.wrapping_sub(above).max(self.lowest);
            let moved = moved.min(capacity);
            if moved != threshold {
                let excess = load.wrapping_sub(moved);
                set(&mut self.excess, arc, excess);
                let limit = Limit {
                    capacity,
                    threshold: moved,
                };
                set(&mut self.limits, arc, limit);
                self.price_anew(arc, excess);
            }
        }
    }

    /// What the loads are above the capacities, in all.
    pub fn true_excess(&self) -> i64 {
        let mut sum = 0i64;
        for (limit, excess) in self.limits.iter().zip(self.excess.iter()) {
            let load = excess.wrapping_add(limit.threshold);
            sum = sum.wrapping_add(load.wrapping_sub(limit.capacity).max(0));
        }
        sum
    }

    /// The sum of the squares of the overloads.
    pub fn potential(&self) -> i128 {
        let mut sum = 0i128;
        for excess in &self.excess {
            let over = i128::from((*excess).max(0));
            sum = sum.wrapping_add(over.wrapping_mul(over));
        }
        sum
    }
}
