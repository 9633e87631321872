//! Sweeps: in each group weight goes from the dearest cut that has some to the cheapest cut.

use crate::line::Line;
use crate::loads::Loads;
use crate::state::State;
use cut_groups::{CutFinder, NONE};
use cut_pool::{Pool, Seeker};
use std::alloc::{AllocError, Global};

// A group looks for new cuts in one sweep of so many.
const SWEEPS_TO_NEW_CUTS: u32 = 10;

// Charges are drawn anew every so many sweeps.
const SWEEPS_TO_CHARGES: u32 = 4;

/// What makes sweeps.
#[derive(Drop)]
pub struct Sweeper {
    line: Line,
    sweeps: u32,
    moves: u32,
}

// The dearest cut with weight and the cheapest cut of a group, with their costs; `NONE` where
// there is none.
#[derive(Clone, Copy)]
struct Extremes {
    dear: u32,
    most: i64,
    cheap: u32,
    least: i64,
}

impl Sweeper {
    /// No sweep yet, among so many arcs. An `Err` is want of memory.
    pub fn new(alloc: Global, arcs: u32) -> Result<Sweeper, AllocError> {
        Ok(Sweeper {
            line: Line::new(alloc, arcs)?,
            sweeps: 0,
            moves: 0,
        })
    }

    /// How often weight was moved.
    pub fn moves(&self) -> u32 {
        self.moves
    }

    /// Visits each group in drawn order: a group whose turn it is first looks for new cuts, for so many terminals. An
    /// `Err` is want of memory.
    pub fn sweep<F: CutFinder>(
        &mut self,
        state: &mut State,
        seeker: &mut Seeker,
        finder: &mut F,
        tries: u32,
    ) -> Result<(), AllocError> {
        if self.sweeps % SWEEPS_TO_CHARGES == 0 {
            state.loads.draw_charges(&mut seeker.random);
        }
        self.sweeps = self.sweeps.wrapping_add(1);
        state.groups.shuffle(&mut seeker.random);
        for visit in 0..state.groups.tree().groups() {
            let group = state.groups.visited(visit);
            let turn = group.wrapping_mul(7).wrapping_add(self.sweeps);
            if turn % SWEEPS_TO_NEW_CUTS == 0 {
                state.find_cuts(seeker, finder, group, tries)?;
            }
            let grain = state.groups.grain(group);
            self.visit(&mut state.pool, &mut state.loads, group, grain)?;
        }
        Ok(())
    }

    // Moves weight in a group once, in a multiple of a grain, where that lowers the potential. An `Err` is want of
    // memory.
    fn visit(
        &mut self,
        pool: &mut Pool,
        loads: &mut Loads,
        group: u32,
        grain: i64,
    ) -> Result<(), AllocError> {
        let extremes = Extremes::of(pool, loads.overs(), group);
        if extremes.dear == NONE || extremes.most <= extremes.least {
            return Ok(());
        }
        pool.refresh(extremes.cheap);
        let weight = pool.cut(extremes.dear).weight;
        let from = pool.entered(extremes.dear);
        let to = pool.entered(extremes.cheap);
        self.line.draw(loads, from, to, weight)?;
        let amount = self.line.best(weight, grain);
        if amount != 0 {
            loads.give(pool, extremes.dear, amount.wrapping_neg());
            loads.give(pool, extremes.cheap, amount);
            self.moves = self.moves.saturating_add(1);
        }
        Ok(())
    }
}

impl Extremes {
    // The dearest cut with weight and the cheapest cut of a group where arcs cost so much, of equals the first.
    fn of(pool: &Pool, costs: &[u32], group: u32) -> Extremes {
        let mut extremes = Extremes {
            dear: NONE,
            most: 0,
            cheap: NONE,
            least: 0,
        };
        let mut number = pool.first(group);
        for _ in 0..pool.len() {
            let Some(cut) = pool.get(number) else {
                break;
            };
            let limit = extremes.limit(cut.weight > 0);
            let cost = pool.cost_below(cut, costs, limit);
            extremes.compare(number, cost, cut.weight > 0);
            number = cut.next;
        }
        extremes
    }

    // From which cost on it is all the same how much a further cut costs: without weight it is no dear one.
    #[inline]
    fn limit(&self, has_weight: bool) -> i64 {
        if has_weight || self.cheap == NONE {
            i64::MAX
        } else {
            self.least
        }
    }

    // Takes a further cut into account.
    #[inline]
    fn compare(&mut self, cut: u32, cost: i64, has_weight: bool) {
        if has_weight && (self.dear == NONE || cost > self.most) {
            self.dear = cut;
            self.most = cost;
        }
        if self.cheap == NONE || cost < self.least {
            self.cheap = cut;
            self.least = cost;
        }
    }
}
