//! The exchange method, of which the result is judged.

ghost use Rattle.std.specs.Prelude.{◌≡◌, None, All, min, length, IfOk};
ghost use Rattle.net_graph.specs.Network.{length_of};
ghost use Rattle.packing_judge.specs.Outcome.{IsOutcomeFor};
ghost use Rattle.packing_judge.specs.Proposed.{HasCutsIn};

use crate::ground::Ground;
use crate::outcome::{Goal, Outcome};
use cut_groups::Tree;
use flow_cuts::FlowCuts;
use graph_lift::Smaller;
use guided_ascent::pack_along;
use net_graph::{EdgeSet, NetGraph, Packing};
use planar_cuts::{Faces, PlanarCuts};
use std::alloc::{AllocError, Global};
use tight_packing::{Aims, Budget, Guesses, Proposal, Settings, propose};

// An ascent comes before an exchange in graphs of at most so many edges: each of its cuts is compared with all of them.
const MOST_EDGES: u32 = 10_000;

/// What comes of an exchange.
#[derive(Drop)]
pub struct Exchanged {
    /// How it ended.
    pub outcome: Outcome,
    /// What it guesses of shorter networks, and of what to split on.
    pub guesses: Guesses,
}

/// Looks for a packing of a wanted value along a network, of which what it is more than the network's length counts
/// for nothing; it begins with given cuts, of which nothing is asked. The exchange cleans the network first: an edge of
/// each cycle goes, and what joins no terminal. It is carried out on the ground of the graph: on that of another one it
/// finds nothing of use. Equal arguments give equal results. An `Err` is want of memory.
pub fn exchange(
    alloc: Global,
    graph: &NetGraph,
    ground: &Ground,
    network: &EdgeSet,
    wanted: u64,
    start: &Packing,
    budget: Budget,
) -> Result<Exchanged, AllocError>
    requires { length network.now ≡ length graph.now.edges }
    ensures { IfOk result (λ found. IsOutcomeFor graph.now (length_of graph.now network.now)
        (min wanted (length_of graph.now network.now)) found.outcome) }
{
    let goal = Goal::of(graph, network, wanted);
    match proposed(alloc, graph, ground, network, aims_of(goal, start), budget)? {
        Some(proposal) => concluded(alloc, graph, goal, proposal),
        None => Ok(without_tree(alloc)),
    }
}

// What an exchange aims at that begins with given cuts.
fn aims_of(goal: Goal, start: &Packing) -> Aims<'_> {
    Aims {
        length: goal.length,
        wanted: goal.wanted,
        start,
    }
}

// An exchange that has no tree to go along. It takes no memory.
fn without_tree(alloc: Global) -> Exchanged
    ensures { result.outcome ≡ Outcome.Exhausted None }
{
    Exchanged {
        outcome: Outcome::Exhausted(None),
        guesses: Guesses::none(alloc),
    }
}

// What an exchange proposes. `None` where the network does not join the terminals. An `Err` is want of memory.
fn proposed(
    alloc: Global,
    graph: &NetGraph,
    ground: &Ground,
    network: &EdgeSet,
    aims: Aims<'_>,
    budget: Budget,
) -> Result<Option<Proposal>, AllocError>
    requires { length network.now ≡ length graph.now.edges }
    ensures { IfOk result (HasCutsIn graph.now) }
{
    let faces = ground.faces.as_ref();
    match &ground.smaller {
        Some(smaller) => proposed_below(alloc, graph, smaller, faces, network, aims, budget),
        None => proposed_in(alloc, graph, faces, network, aims, budget),
    }
}

// What an exchange proposes in the smaller graph, brought back to the given one. `None` where the network does not join
// the terminals. An `Err` is want of memory.
fn proposed_below(
    alloc: Global,
    graph: &NetGraph,
    smaller: &Smaller,
    faces: Option<&Faces>,
    network: &EdgeSet,
    aims: Aims<'_>,
    budget: Budget,
) -> Result<Option<Proposal>, AllocError>
    requires { length network.now ≡ length graph.now.edges }
    ensures { IfOk result (HasCutsIn graph.now) }
{
    let small = smaller.graph();
    let left = smaller.network(alloc, graph, network)?;
    let start = smaller.below(alloc, aims.start)?;
    let wanted = aims.wanted.saturating_sub(smaller.taken());
    let goal = Goal::of(small, &left, wanted);
    match proposed_in(alloc, small, faces, &left, aims_of(goal, &start), budget)? {
        Some(proposal) => Ok(Some(lifted(alloc, graph, smaller, &proposal)?)),
        None => Ok(None),
    }
}

// What an exchange proposes with closed curves for cuts where the graph has faces, and else with cuts that flows find.
// `None` where the network does not join the terminals. An `Err` is want of memory.
fn proposed_in(
    alloc: Global,
    graph: &NetGraph,
    faces: Option<&Faces>,
    network: &EdgeSet,
    aims: Aims<'_>,
    budget: Budget,
) -> Result<Option<Proposal>, AllocError>
    requires { length network.now ≡ length graph.now.edges }
    ensures { IfOk result (HasCutsIn graph.now) }
{
    let Some(tree) = Tree::of(alloc, graph, network)? else {
        return Ok(None);
    };
    let proposal = match faces {
        Some(faces) => {
            let mut finder = PlanarCuts::new(alloc, graph, &tree, faces)?;
            let settings = Settings::GRIDS;
            let start = first_cuts(alloc, graph, &tree, aims.start)?;
            let aims = Aims {
                start: &start,
                ..aims
            };
            propose(alloc, graph, tree, aims, &mut finder, settings, budget)?
        }
        None => {
            let mut finder = FlowCuts::new(alloc, graph, &tree)?;
            let settings = Settings::GRAPHS;
            propose(alloc, graph, tree, aims, &mut finder, settings, budget)?
        }
    };
    Ok(Some(proposal))
}

// The cuts that an exchange in the plane begins with: the given ones, or, where there are none and the graph isn't too
// large, those of an ascent along the tree, which packs most of its length in less time than the exchange takes to find
// first cuts for it. An `Err` is want of memory.
fn first_cuts(
    alloc: Global,
    graph: &NetGraph,
    tree: &Tree,
    given: &Packing,
) -> Result<Packing, AllocError> {
    if given.cuts().is_empty() && graph.edge_count() <= MOST_EDGES {
        pack_along(alloc, graph, tree, None)
    } else {
        given.copy()
    }
}

// What was proposed in a smaller graph, brought back to the given one. An `Err` is want of memory.
fn lifted(
    alloc: Global,
    graph: &NetGraph,
    smaller: &Smaller,
    proposal: &Proposal,
) -> Result<Proposal, AllocError>
    ensures { IfOk result (λ lifted. All (λ c. length c.members ≡ graph.now.vertices) lifted.packing) }
{
    Ok(Proposal {
        packing: smaller.lifted(alloc, graph, &proposal.packing)?,
        is_impossible: proposal.is_impossible,
        guesses: Guesses {
            shares: smaller.shares(alloc, graph, &proposal.guesses.shares)?,
            scores: smaller.scores(alloc, graph, &proposal.guesses.scores)?,
            gap: proposal.guesses.gap,
        },
    })
}

// How an exchange ends with what it proposes, which is judged. An `Err` is want of memory.
fn concluded(
    alloc: Global,
    graph: &NetGraph,
    goal: Goal,
    proposal: Proposal,
) -> Result<Exchanged, AllocError>
    requires { All (λ c. length c.members ≡ graph.now.vertices) proposal.packing }
    ensures { IfOk result (λ found. IsOutcomeFor graph.now goal.length goal.wanted found.outcome) }
{
    let Proposal {
        packing,
        is_impossible,
        guesses,
    } = proposal;
    let outcome = goal.outcome(alloc, graph, packing, is_impossible)?;
    Ok(Exchanged { outcome, guesses })
}
