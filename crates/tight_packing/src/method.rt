//! The exchange method.

ghost use Rattle.std.specs.Prelude.{◌≡◌, length, All, IfOk};

use crate::budget::Budget;
use crate::guesses::Guesses;
use crate::rounds::{Ending, Rounds};
use crate::scale::{Scale, coarse_units, finest_unit, is_fine};
use crate::settings::Settings;
use crate::state::State;
use cut_groups::{CutFinder, Tree};
use cut_pool::Seeker;
use net_graph::{NetGraph, Packing};
use std::alloc::{AllocError, Global};

/// What an exchange proposes.
#[derive(Drop)]
pub struct Proposal {
    /// Cuts of the graph's vertices. That they fit into the rooms is not promised.
    pub packing: Packing,
    /// Whether there is no packing of the wanted value. That is computed and not proved.
    pub is_impossible: bool,
    /// What the last test that there is no packing shows.
    pub guesses: Guesses,
}

/// What an exchange aims at.
#[derive(Clone, Copy)]
pub struct Aims<'a> {
    /// The length of the network.
    pub length: u64,
    /// The value of the packing, no more than that; what it is less may be left out of the groups' weights.
    pub wanted: u64,
    /// Cuts to begin with, as far as the tree enters them once.
    pub start: &'a Packing,
}

/// Looks for a packing of a wanted value along a network of a graph, given by its tree: in coarse units first, where
/// lengths have many digits, and then in finer ones from the cuts that were found, unless a fine one shows that there
/// is no packing. Where the network's length is over 2^53 times the greatest common divisor of the lengths of edges,
/// these are rounded down, and the value stays below. Equal arguments give equal results. An `Err` is want of memory.
pub fn propose<F: CutFinder>(
    alloc: Global,
    graph: &NetGraph,
    tree: Tree,
    aims: Aims<'_>,
    finder: &mut F,
    settings: Settings,
    budget: Budget,
) -> Result<Proposal, AllocError>
    ensures { IfOk result (λ proposal.
        All (λ c. length c.members ≡ graph.now.vertices) proposal.packing) }
{
    let slack = aims.length.saturating_sub(aims.wanted);
    let finest = finest_unit(graph, aims.length);
    let mut tree = tree;
    let mut start = aims.start.copy()?;
    let mut guesses = Guesses::none(alloc);
    for unit in coarse_units(alloc, aims.length, finest)?.as_slice() {
        let scale = Scale { unit: *unit, slack };
        let coarse = budget.for_coarse_units();
        let first = play_rounds(alloc, graph, tree, scale, &start, finder, settings, coarse)?;
        guesses = first.guesses.or(guesses);
        start = first.packing;
        if matches!(first.ending, Ending::Impossible) && is_fine(aims.length, *unit) {
            return Ok(Proposal {
                packing: start,
                is_impossible: true,
                guesses,
            });
        }
        tree = first.tree;
    }
    let scale = Scale {
        unit: finest,
        slack,
    };
    let last = play_rounds(alloc, graph, tree, scale, &start, finder, settings, budget)?;
    Ok(Proposal {
        packing: last.packing,
        is_impossible: matches!(last.ending, Ending::Impossible),
        guesses: last.guesses.or(guesses),
    })
}

// What the rounds in one unit come to.
#[derive(Drop)]
struct Played {
    tree: Tree,
    packing: Packing,
    guesses: Guesses,
    ending: Ending,
}

// Plays the rounds in one unit, which begin with given cuts. An `Err` is want of memory.
fn play_rounds<F: CutFinder>(
    alloc: Global,
    graph: &NetGraph,
    tree: Tree,
    scale: Scale,
    start: &Packing,
    finder: &mut F,
    settings: Settings,
    budget: Budget,
) -> Result<Played, AllocError>
    ensures { IfOk result (λ played. All (λ c. length c.members ≡ graph.now.vertices) played.packing) }
{
    let mut state = State::along(alloc, graph, tree, scale, settings)?;
    let mut seeker = Seeker::new(alloc, budget.seed);
    state.take_over(alloc, graph, scale.unit, start)?;
    state.start(&mut seeker, finder)?;
    let mut rounds = Rounds::new(alloc, &state, graph.terminals().len(), settings)?;
    let ending = rounds.play(&mut state, &mut seeker, finder, budget)?;
    let guesses = rounds.guesses(alloc, graph, &state, scale.unit)?;
    let packing = rounds.into_packing(alloc, graph, &state, scale.unit)?;
    Ok(Played {
        tree: state.groups.into_tree(),
        packing,
        guesses,
        ending,
    })
}
