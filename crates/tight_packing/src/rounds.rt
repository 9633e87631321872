//! The rounds: sweeps, multipliers, the rounding of the groups and the search in units.

ghost use Rattle.std.specs.Prelude.{◌≡◌, length, All, IfOk};

use crate::budget::Budget;
use crate::farkas::FarkasTest;
use crate::guesses::Guesses;
use crate::phases::Phases;
use crate::rounding::Rounder;
use crate::settings::Settings;
use crate::state::State;
use crate::sweep::Sweeper;
use cut_groups::CutFinder;
use cut_pool::{Seeker, Tidier, UnitSearch};
use net_graph::{NetGraph, Packing};
use std::alloc::{AllocError, Global};

// Sweeps in a round.
const SWEEPS: u8 = 5;

/// How the rounds ended.
#[derive(Clone, Copy)]
pub enum Ending {
    Tight,
    Impossible,
    Exhausted,
}

/// The rounds, with what works in them.
#[derive(Drop)]
pub struct Rounds {
    phases: Phases,
    sweeper: Sweeper,
    tidier: Tidier,
    rounder: Rounder,
    units: UnitSearch,
    test: FarkasTest,
}

impl Rounds {
    /// Before the first round, for so many terminals. An `Err` is want of memory.
    pub fn new(
        alloc: Global,
        state: &State,
        terminals: usize,
        settings: Settings,
    ) -> Result<Rounds, AllocError> {
        let groups = state.groups.tree().groups();
        let lengths = state.loads.lengths_in_units(alloc)?;
        Ok(Rounds {
            phases: Phases::new(terminals, settings),
            sweeper: Sweeper::new(alloc, state.loads.len())?,
            tidier: Tidier::new(alloc, groups)?,
            rounder: Rounder::new(alloc, groups)?,
            units: UnitSearch::new(alloc, lengths),
            test: FarkasTest::none(alloc),
        })
    }

    /// Plays rounds until the outcome is decided or the budget is spent. An `Err` is want of
    /// memory.
    pub fn play<F: CutFinder>(
        &mut self,
        state: &mut State,
        seeker: &mut Seeker,
        finder: &mut F,
        budget: Budget,
    ) -> Result<Ending, AllocError> {
        let ending = self.decided(state, seeker, finder, budget)?;
        if matches!(ending, Ending::Tight) {
            return Ok(ending);
        }
        self.rounder.round_all(&mut state.pool, &mut state.loads)?;
        let is_tight = self.search_units(state, seeker, finder)?;
        Ok(if is_tight { Ending::Tight } else { ending })
    }

    // Searches in units, and tells whether a packing without overload was met. An `Err` is want of memory.
    fn search_units<F: CutFinder>(
        &mut self,
        state: &mut State,
        seeker: &mut Seeker,
        finder: &mut F,
    ) -> Result<bool, AllocError> {
        let tree = state.groups.tree();
        self.units.search(tree, &mut state.pool, seeker, finder)
    }

    // Plays rounds until the outcome is decided or the budget is spent. An `Err` is want of memory.
    fn decided<F: CutFinder>(
        &mut self,
        state: &mut State,
        seeker: &mut Seeker,
        finder: &mut F,
        budget: Budget,
    ) -> Result<Ending, AllocError> {
        for _ in 0..budget.rounds {
            let moves = self.sweeper.moves().saturating_add(self.units.moves());
            let is_spent = seeker.searches() >= budget.searches
                || moves >= budget.moves
                || finder.looks() >= budget.looks;
            if is_spent {
                break;
            }
            if let Some(ending) = self.round(state, seeker, finder)? {
                return Ok(ending);
            }
        }
        Ok(Ending::Exhausted)
    }

    // One round; an ending where the outcome is decided. An `Err` is want of memory.
    fn round<F: CutFinder>(
        &mut self,
        state: &mut State,
        seeker: &mut Seeker,
        finder: &mut F,
    ) -> Result<Option<Ending>, AllocError> {
        for _ in 0..SWEEPS {
            self.sweeper
                .sweep(state, seeker, finder, self.phases.tries())?;
        }
        self.phases.note_potential(state.loads.potential());
        if self.phases.is_time_to_tidy() {
            self.tidier.tidy(&mut state.pool)?;
        }
        if self.phases.begins_rounding(state.loads.true_excess()) {
            self.rounder.begin(&mut seeker.random);
        }
        if self.phases.is_rounding() && self.rounding_round(state, seeker, finder)? {
            return Ok(Some(Ending::Tight));
        }
        if self.phases.is_time_to_test() && self.test.is_impossible(state, seeker, finder)? {
            return Ok(Some(Ending::Impossible));
        }
        if self.phases.end_round() {
            state.loads.raise_multipliers();
        }
        Ok(None)
    }

    // A round in which groups become whole or all are; whether it found a packing without overload. An `Err` is want of
    // memory.
    fn rounding_round<F: CutFinder>(
        &mut self,
        state: &mut State,
        seeker: &mut Seeker,
        finder: &mut F,
    ) -> Result<bool, AllocError> {
        let aim = self.phases.whole(state.pool.groups());
        let are_whole = self.rounder.advance(state, aim)?;
        if are_whole
            && self.phases.searches_units(state.loads.true_excess())
            && self.search_units(state, seeker, finder)?
        {
            return Ok(true);
        }
        if self.phases.refines() {
            self.units.double_steps();
            state.groups.refine_all();
        }
        Ok(false)
    }

    /// What the last test that there is no packing shows, with lengths in a unit. An `Err` is want of memory.
    pub fn guesses(
        &self,
        alloc: Global,
        graph: &NetGraph,
        state: &State,
        unit: u64,
    ) -> Result<Guesses, AllocError> {
        self.test.guesses(alloc, graph, state.groups.tree(), unit)
    }

    /// The best packing met, with weights in a unit, from which what has overload is taken back. An `Err` is want of
    /// memory.
    pub fn into_packing(
        self,
        alloc: Global,
        graph: &NetGraph,
        state: &State,
        unit: u64,
    ) -> Result<Packing, AllocError>
        ensures { IfOk result (All (λ c. length c.members ≡ graph.now.vertices)) }
    {
        let tree = state.groups.tree();
        let slack = state.loads.slack_arc();
        self.units.into_packing(alloc, graph, tree, unit, slack)
    }
}
