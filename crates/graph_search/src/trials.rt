//! Splits of a leaf that are tried before one is made. The exchange for a child may tell that there is no packing: then
//! a fractional network is shorter than the wanted value in which the vertex is met or missed whole, so splits on
//! vertices that it feeds whole or not leave it to one of their children. A vertex counts by the least of its scores in
//! all fractional networks that are known, until a split on one closes both children.

ghost use Rattle.std.specs.Prelude.{ℕ, ◌≡◌, ◌<◌, length, IfOk, IfSome, OnOk};
ghost use Rattle.cert_tree.specs.Preorder.{packings_of};
ghost use Rattle.branch.specs.Searching.{SearchState, CanSplitAt};
ghost use Rattle.graph_search.specs.Plans.{IsPlanIn, IsTrialOf};

use crate::children::{Child, ChildEnd, Plan, SPENT};
use crate::splitting::Splitting;
use branch::Search;
use dual_ascent::Rule;
use net_graph::NetGraph;
use packing_judge::Ground;
use std::alloc::{AllocError, Global};

// A vertex of no more than this score, in parts of 2^20, is tried for a leaf only where none was before.
const LEAST_SCORE: u32 = 50_000;

/// A split of a leaf that was tried: the vertex, and both children.
#[derive(Drop)]
pub(crate) struct Trial {
    pub vertex: u32,
    pub outside: Child,
    pub inside: Child,
}

impl Trial {
    // How far its children are from their end: the farther one, and both together.
    fn distances(&self) -> Distances {
        let outside = self.outside.distance();
        let inside = self.inside.distance();
        Distances {
            worst: outside.max(inside),
            sum: outside.saturating_add(inside),
        }
    }
}

// How far both children of a split are from their end.
#[derive(Clone, Copy)]
struct Distances {
    worst: u64,
    sum: u64,
}

impl Distances {
    fn is_less(self, other: Distances) -> bool {
        self.worst < other.worst || self.worst == other.worst && self.sum < other.sum
    }
}

/// The splits that were tried for a leaf.
#[derive(Drop)]
pub(crate) struct Trials {
    /// The first of those whose children are nearest to their end, if one was tried.
    pub best: Option<Trial>,
    /// How many exchanges were made for their children.
    pub exchanges: u32,
    // How many were tried since the best one.
    failed: u8,
    // Of each vertex how good it is to split on: the least of its scores in the fractional networks that are known; 0
    // once it was tried.
    scores: Vec<u32>,
}

impl Splitting {
    /// Tries splits of a leaf, with no more than so many exchanges for their children. An `Err` is want of memory.
    pub(crate) fn tried<F: Rule, G: Rule>(
        &self,
        alloc: Global,
        graph: &NetGraph,
        ground: &Ground,
        search: &Search<'_, F, G>,
        leaf: u32,
        plan: &Plan,
        exchanges: u32,
    ) -> Result<Trials, AllocError>
        requires graph { graph.now ≡ search.now.graph }
        requires leaf { leaf < length (packings_of search.now.tree) }
        requires plan { IsPlanIn search.now.graph plan.now }
        ensures { IfOk result (λ trials. IfSome trials.best (IsTrialOf search.now leaf)) }
    {
        let mut trials = Trials {
            best: None,
            exchanges: 0,
            failed: 0,
            scores: plan.guesses.scores.clone()?,
        };
        for _ in 0..exchanges {
            let is_spent = exchanges.saturating_sub(trials.exchanges) < 2;
            let is_done = is_spent || trials.best.is_some() && trials.failed >= self.patience;
            if is_done || !self.try_next(alloc, graph, ground, search, leaf, plan, &mut trials)? {
                break;
            }
        }
        Ok(trials)
    }

    // Tries a split of a leaf on the vertex that is best by what is known, if there is one; whether another is worth a
    // trial. Its second child is left out where the first is as far from its end as the worse one of the best split. An
    // `Err` is want of memory.
    fn try_next<F: Rule, G: Rule>(
        &self,
        alloc: Global,
        graph: &NetGraph,
        ground: &Ground,
        search: &Search<'_, F, G>,
        leaf: u32,
        plan: &Plan,
        trials: &mut Trials,
    ) -> Result<bool, AllocError>
        requires graph { graph.now ≡ search.now.graph }
        requires leaf { leaf < length (packings_of search.now.tree) }
        requires plan { IsPlanIn search.now.graph plan.now }
        requires best { IfSome trials.old.best (IsTrialOf search.now leaf) }
        ensures { OnOk result (IfSome trials.new.best (IsTrialOf search.now leaf)) }
    {
        let Some(vertex) = trials.next_vertex(graph, search, leaf) else {
            return Ok(false);
        };
        let missed = search.decision(leaf).with_missed(graph, vertex)?;
        let met = search.decision(leaf).with_met(graph, vertex)?;
        let start = search.tree().packing(leaf);
        let outside = self.child(alloc, graph, ground, search, plan, start, &missed)?;
        trials.learn(vertex, &outside);
        if !trials.is_worth(&outside) {
            trials.failed = trials.failed.saturating_add(1);
            return Ok(true);
        }
        let inside = self.child(alloc, graph, ground, search, plan, start, &met)?;
        trials.learn(vertex, &inside);
        Ok(trials.take(Trial {
            vertex,
            outside,
            inside,
        }))
    }
}

impl Trials {
    // The vertex of the greatest score on which a leaf can be split.
    fn next_vertex<F: Rule, G: Rule>(
        &self,
        graph: &NetGraph,
        search: &Search<'_, F, G>,
        leaf: u32,
    ) -> Option<u32>
        requires graph { graph.now ≡ search.now.graph }
        requires leaf { leaf < length (packings_of search.now.tree) }
        ensures { IfSome result (CanSplitAt search.now leaf) }
    {
        let mut next = None;
        let mut most = if self.best.is_some() { LEAST_SCORE } else { 0 };
        for vertex in 0..graph.vertex_count() {
            let score = self.score(vertex);
            if score > most && search.splits_at(leaf, vertex) {
                next = Some(vertex);
                most = score;
            }
        }
        next
    }

    // The score of a vertex.
    fn score(&self, vertex: u32) -> u32 {
        match self.scores.get(vertex as usize) {
            Some(score) => *score,
            None => 0,
        }
    }

    // Takes in what the exchange for a child of the split on a vertex tells of others.
    fn learn(&mut self, vertex: u32, child: &Child)
        ensures { self.new.best ≡ self.old.best }
    {
        self.exchanges = self.exchanges.saturating_add(1);
        if child.end == ChildEnd::Impossible {
            for (score, other) in self.scores.iter_mut().zip(&child.plan.guesses.scores) {
                *score = (*score).min(*other);
            }
        }
        if let Some(score) = self.scores.get_mut(vertex as usize) {
            *score = 0;
        }
    }

    // Whether a split with this child may be better than the best one.
    fn is_worth(&self, child: &Child) -> bool {
        match &self.best {
            Some(best) => child.distance() < best.distances().worst,
            None => true,
        }
    }

    // Takes a split that was tried, where its children are nearer to their end than those of the best one before;
    // whether another is worth a trial, as it was told of a child of this one that there is no packing.
    fn take(&mut self, trial: Trial) -> bool
        ensures { (s : SearchState) (leaf : ℕ) → IfSome self.old.best (IsTrialOf s leaf) → IsTrialOf s leaf trial
            → IfSome self.new.best (IsTrialOf s leaf) }
    {
        let distances = trial.distances();
        let is_better = match &self.best {
            Some(best) => distances.is_less(best.distances()),
            None => true,
        };
        if is_better {
            self.best = Some(trial);
            self.failed = 0;
        } else {
            self.failed = self.failed.saturating_add(1);
        }
        distances.worst > SPENT
    }
}
