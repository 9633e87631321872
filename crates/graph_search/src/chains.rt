//! Searches that close one child of nearly each split, so that their splits are a chain, for graphs in which whole
//! weights leave no packing to make anew.

ghost use Rattle.std.specs.Prelude.{◌≡◌, ◌+◌, ◌<◌, ◌≤◌, true, length, IfOk, IfSome};
ghost use Rattle.net_graph.specs.Network.{length_of};
ghost use Rattle.dual_ascent.specs.Choosing.{IsCallableOnSome, AnswersAPlace};
ghost use Rattle.cert_tree.specs.Preorder.{split_count};
ghost use Rattle.branch.specs.States.{IsNetworkOf};
ghost use Rattle.graph_search.specs.Anew.{IsAhead, IsFoundOnEdges};
ghost use Rattle.graph_search.specs.Raised.{IsUnsplit};

use crate::proposing::{Proposal, Proposing};
use branch::{Search, Solved, SplitKind, Step};
use dual_ascent::{Candidate, Chooser, Rule};
use net_graph::{Decision, EdgeSet, NetGraph, Packing, feasible};
use std::alloc::{AllocError, Global};
use std::cell::Cell;
use strong_branching::{Draws, drawn_again, drawn_place, is_of, place_of};

/// What the draws of each search that begins anew begin with.
pub(crate) const SEED: u64 = 20240610;

// What the rules of a search by chains go by: the edge that is split on next, and the seed of the order in which the
// ascents of both children take their candidates.
#[derive(Drop)]
struct Next {
    edge: Cell<u32>,
    seed: Cell<u64>,
}

/// What a search by chains finds that closes, whose splits go along cuts where any are allowed, or else as the bounds
/// of both children choose; none where no one closes within the budget. An `Err` is want of memory.
pub(crate) fn found_closed(
    alloc: Global,
    graph: &NetGraph,
    network: &EdgeSet,
    first: Packing,
    openings: u8,
) -> Result<Option<Solved>, AllocError>
    requires { IsNetworkOf graph.now network.now }
    ensures { IfOk result (λ found. IfSome found (λ s.
        IsFoundOnEdges graph.now (length_of graph.now network.now) openings s × (s.optimal ≡ true))) }
{
    if openings > 0 {
        let begun = first.copy()?;
        let found = found_by(alloc, graph, network, begun, openings, Proposal::Cut)?;
        if found.is_some() {
            return Ok(found);
        }
    }
    let other = Proposal::BothChildren;
    found_by(alloc, graph, network, first, openings, other)
}

// What the first search by chains finds that closes, of some that each begin with a network and a packing like the
// given one; none where no one closes within the budget. An `Err` is want of memory.
fn found_by(
    alloc: Global,
    graph: &NetGraph,
    network: &EdgeSet,
    first: Packing,
    openings: u8,
    proposal: Proposal,
) -> Result<Option<Solved>, AllocError>
    requires { IsNetworkOf graph.now network.now }
    ensures { IfOk result (λ found. IfSome found (λ s.
        IsFoundOnEdges graph.now (length_of graph.now network.now) openings s × (s.optimal ≡ true))) }
{
    let mut draws = Draws::new(SEED, proposal.most_arcs());
    let mut first = first;
    for number in 0..proposal.most_searches() {
        if number > 0 {
            first = drawn_again(alloc, graph, first, &mut draws)?;
        }
        let begun = network.copy()?;
        let mut proposing = proposal.begin(alloc, graph)?;
        let found = search(
            alloc,
            graph,
            begun,
            first.copy()?,
            openings,
            &mut proposing,
            &mut draws,
        )?;
        if found.optimal {
            return Ok(Some(found));
        }
        if draws.is_spent() {
            return Ok(None);
        }
    }
    Ok(None)
}

/// What a search finds that begins with a network and a packing and splits on edges. An `Err` is want of memory.
pub(crate) fn search(
    alloc: Global,
    graph: &NetGraph,
    network: EdgeSet,
    first: Packing,
    openings: u8,
    proposing: &mut Proposing,
    draws: &mut Draws,
) -> Result<Solved, AllocError>
    requires { IsNetworkOf graph.now network }
    ensures { IfOk result (IsFoundOnEdges graph.now (length_of graph.now network) openings) }
{
    let next = Next {
        edge: Cell::new(0),
        seed: Cell::new(draws.seed()),
    };
    search_by(
        alloc,
        graph,
        network,
        first,
        openings,
        proposing,
        draws,
        &next,
        |list: &[Candidate]| -> usize
            requires { 0 < length list.now }
            ensures { result < length list.now }
        { drawn_place(next.seed.get(), list) },
        |list: &[Candidate]| -> usize
            requires { 0 < length list.now }
            ensures { result < length list.now }
        { place_of(next.edge.get(), list) },
    )
}

// The same by rules that go by what is next.
fn search_by<F: Rule, G: Rule>(
    alloc: Global,
    graph: &NetGraph,
    network: EdgeSet,
    first: Packing,
    openings: u8,
    proposing: &mut Proposing,
    draws: &mut Draws,
    next: &Next,
    ascent: F,
    split: G,
) -> Result<Solved, AllocError>
    requires network { IsNetworkOf graph.now network }
    requires ascent_callable { IsCallableOnSome (F.may_choose ascent) }
    requires ascent_place { AnswersAPlace (F.chooses ascent) }
    requires split_callable { IsCallableOnSome (G.may_choose split) }
    requires split_place { AnswersAPlace (G.chooses split) }
    ensures { IfOk result (IsFoundOnEdges graph.now (length_of graph.now network) openings) }
{
    let mut search = Search::start(
        alloc,
        graph,
        network,
        Chooser::new(ascent),
        Chooser::new(split),
        SplitKind::Edges,
    )?;
    raise(alloc, graph, &mut search, first)?;
    let _made = search.splits();
    split_in_turn(alloc, graph, &mut search, openings, proposing, draws, next)?;
    Ok(search.finish())
}

// Raises a search by a packing, where it is feasible and has few cuts. An `Err` is want of memory.
fn raise<F: Rule, G: Rule>(
    alloc: Global,
    graph: &NetGraph,
    search: &mut Search<'_, F, G>,
    first: Packing,
) -> Result<(), AllocError>
    requires graph { graph.now ≡ search.old.graph }
    requires leaf { split_count search.old.tree ≡ 0 }
    ensures { IsUnsplit search.old search.new }
{
    let none = Decision::none(alloc, graph)?;
    if first.len() <= 2 * graph.edge_count() as usize
        && is_of(graph, &first)
        && feasible(graph, &none, &first)
    {
        search.raise(first)?;
    }
    Ok(())
}

// Makes splits as is proposed, at most so many. An `Err` is want of memory.
#[tactic(auto, using(crate::proofs::AnewLemmas::ahead_refl))]
fn split_in_turn<F: Rule, G: Rule>(
    alloc: Global,
    graph: &NetGraph,
    search: &mut Search<'_, F, G>,
    openings: u8,
    proposing: &mut Proposing,
    draws: &mut Draws,
    next: &Next,
) -> Result<(), AllocError>
    requires graph { graph.now ≡ search.old.graph }
    requires leaf { split_count search.old.tree ≡ 0 }
    ensures ahead { IsAhead search.old search.new }
    ensures few { split_count search.new.tree ≤ openings }
{
    for made in 0..openings {
        let left = openings - made;
        if !split_next(alloc, graph, search, left, proposing, draws, next)? {
            break;
        }
    }
    Ok(())
}

// Splits the leaf that is open next as is proposed where so many splits are left, as long as there is budget; whether
// it was. An `Err` is want of memory.
fn split_next<F: Rule, G: Rule>(
    alloc: Global,
    graph: &NetGraph,
    search: &mut Search<'_, F, G>,
    left: u8,
    proposing: &mut Proposing,
    draws: &mut Draws,
    next: &Next,
) -> Result<bool, AllocError>
    requires graph { graph.now ≡ search.old.graph }
    requires few { split_count search.old.tree < 255 }
    ensures ahead { IsAhead search.old search.new }
    ensures few { split_count search.new.tree ≤ split_count search.old.tree + 1 }
{
    if draws.is_spent() {
        return Ok(false);
    }
    let Some(leaf) = search.next_open() else {
        return Ok(false);
    };
    let Some(view) = search.view(leaf) else {
        return Ok(false);
    };
    let chosen = proposing.next(alloc, graph, view, search.network(), left, draws)?;
    let Some(choice) = chosen else {
        return Ok(false);
    };
    next.edge.set(choice.edge);
    next.seed.set(choice.seed);
    let step = search.split_one()?;
    Ok(step == Step::Split)
}
