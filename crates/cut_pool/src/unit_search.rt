//! The unit search: a tabu search (Glover 1986) that moves single units off overloaded arcs.

ghost use Rattle.std.specs.Prelude.{◌≡◌, length, All, IfOk};

use crate::kept::Kept;
use crate::new_cuts::NewCuts;
use crate::pool::Pool;
use crate::seeker::Seeker;
use crate::units::Units;
use cut_groups::{CutFinder, NONE, Tree};
use net_graph::{NetGraph, Packing};
use std::alloc::{AllocError, Global};

// A search ends after so many steps without a new best.
const PATIENCE: u32 = 1000;

// New cuts are looked for every so many steps.
const STEPS_TO_NEW_CUTS: u32 = 20;

// The steps and pairs of cuts looked at of a search at first, doubled after every four searches, and at most.
const FIRST_STEPS: u32 = 500;

const MOST_STEPS: u32 = 8000;

const FIRST_PAIRS: u32 = 1_000_000;

const MOST_PAIRS: u32 = 20_000_000;

/// Unit searches among the cuts of a pool, and the best packing that they met.
#[derive(Drop)]
pub struct UnitSearch {
    // Of each arc its length in units.
    lengths: Vec<i64>,
    units: Units,
    new_cuts: NewCuts,
    kept: Kept,
    // How many searches there were, and how far the next one may go: steps, each of which moves a unit, and pairs of
    // cuts looked at.
    searches: u32,
    steps: u32,
    pairs: u32,
}

impl UnitSearch {
    /// No search yet, among arcs of these lengths in units. It takes no memory.
    pub fn new(alloc: Global, lengths: Vec<i64>) -> UnitSearch {
        UnitSearch {
            lengths,
            units: Units::none(alloc),
            new_cuts: NewCuts::none(alloc),
            kept: Kept::none(alloc),
            searches: 0,
            steps: FIRST_STEPS,
            pairs: FIRST_PAIRS,
        }
    }

    /// Searches for whole units without overload, from the weights of the pool, which are whole units, and keeps the
    /// best packing met; whether it is without overload. The pool may gain cuts of weight 0. An `Err` is want of
    /// memory.
    pub fn search<F: CutFinder>(
        &mut self,
        tree: &Tree,
        pool: &mut Pool,
        seeker: &mut Seeker,
        finder: &mut F,
    ) -> Result<bool, AllocError> {
        self.units.begin(&self.lengths, pool)?;
        let best = self.lower(tree, pool, seeker, finder)?;
        self.kept.offer(pool, self.units.best(), best)?;
        self.searches = self.searches.wrapping_add(1);
        if self.searches % 4 == 0 {
            self.pairs = self.pairs.saturating_mul(2).min(MOST_PAIRS);
            self.double_steps();
        }
        Ok(self.kept.overload() == 0)
    }

    // Moves units, and tells the least overload met. An `Err` is want of memory.
    fn lower<F: CutFinder>(
        &mut self,
        tree: &Tree,
        pool: &mut Pool,
        seeker: &mut Seeker,
        finder: &mut F,
    ) -> Result<i64, AllocError> {
        let mut best = self.units.total();
        let mut improved = 0u32;
        let mut pairs = 0u32;
        for step in 1..self.steps.saturating_add(1) {
            let is_late = pairs > self.pairs || step.wrapping_sub(improved) > PATIENCE;
            if self.units.total() <= 0 || is_late {
                break;
            }
            let looked = self.units.move_one(pool, &mut seeker.random, step)?;
            pairs = pairs.saturating_add(looked);
            if self.units.total() < best {
                best = self.units.total();
                improved = step;
                self.units.keep()?;
            }
            if step % STEPS_TO_NEW_CUTS == 0 && self.units.total() > 0 {
                self.new_cuts
                    .look(&mut self.units, tree, pool, seeker, finder)?;
            }
        }
        Ok(best)
    }

    /// Lets the next searches take twice as many steps.
    pub fn double_steps(&mut self) {
        self.steps = self.steps.saturating_mul(2).min(MOST_STEPS);
    }

    /// How many units were moved.
    pub fn moves(&self) -> u32 {
        self.units.moves()
    }

    /// The best packing met along a tree of a graph, with weights in a unit: what has overload is taken back, and so
    /// are the cuts in whose place an arc of slack stands, `NONE` for no such arc; the weights of each group are
    /// gathered in fewer cuts. An `Err` is want of memory.
    pub fn into_packing(
        self,
        alloc: Global,
        graph: &NetGraph,
        tree: &Tree,
        unit: u64,
        slack: u32,
    ) -> Result<Packing, AllocError>
        ensures { IfOk result (All (λ c. length c.members ≡ graph.now.vertices)) }
    {
        let mut kept = self.kept;
        kept.relieve(alloc, &self.lengths)?;
        if slack != NONE {
            kept.drop_slack(slack);
        }
        kept.gather(alloc, &self.lengths)?;
        kept.packing(alloc, graph, tree, unit)
    }
}
