//! Searches that begin anew where one was stopped: in coarse units by chains that close, and else by the values of
//! children.

ghost use Rattle.std.specs.Prelude.{ℕ, ◌≡◌, false, IfOk, IsTrue};
ghost use Rattle.cert_tree.specs.Preorder.{split_count};
ghost use Rattle.branch.specs.States.{IsNetworkOf};
ghost use Rattle.graph_search.specs.Kinds.{kind_of};
ghost use Rattle.graph_search.specs.Searched.{IsTold};

use crate::chains::{SEED, found_closed, search};
use crate::proposing::Proposal;
use branch::{Solved, SplitKind};
use net_graph::{NetGraph, Packing};
use search_rules::SplitRule;
use std::alloc::{AllocError, Global};
use strong_branching::Draws;

// In graphs of more edges a search by the values of children takes longer than all before, and seldom gains.
const MOST_EDGES_BY_VALUES: u32 = 3_000;

/// What a search finds that begins anew with the first leaf's packing, where it closes or raises the bound of what is
/// given; else what is given. So it is as well where another rule of splits than the usual one is asked for, and where
/// what is given is optimal. An `Err` is want of memory.
pub(crate) fn searched_anew(
    alloc: Global,
    graph: &NetGraph,
    stopped: Solved,
    first: Packing,
    rule: SplitRule,
    openings: u8,
) -> Result<Solved, AllocError>
    requires { IsNetworkOf graph.now stopped.network }
    ensures { (first_length : ℕ) → IsTold graph.now (kind_of rule) openings first_length stopped
        → IfOk result (IsTold graph.now (kind_of rule) openings first_length) }
{
    match rule {
        SplitRule::Longest => anew_on_edges(alloc, graph, stopped, first, openings),
        SplitRule::First | SplitRule::Vertex => Ok(stopped),
    }
}

// The same where splits are on edges.
fn anew_on_edges(
    alloc: Global,
    graph: &NetGraph,
    stopped: Solved,
    first: Packing,
    openings: u8,
) -> Result<Solved, AllocError>
    requires { IsNetworkOf graph.now stopped.network }
    ensures { (first_length : ℕ) → IsTold graph.now SplitKind.Edges openings first_length stopped
        → IfOk result (IsTold graph.now SplitKind.Edges openings first_length) }
{
    if stopped.optimal {
        return Ok(stopped);
    }
    if stopped.length <= 2 * u64::from(graph.edge_count()) {
        let begun = first.copy()?;
        match found_closed(alloc, graph, &stopped.network, begun, openings)? {
            Some(found) => return Ok(found),
            None => {}
        }
    }
    raised_by_values(alloc, graph, stopped, first, openings)
}

// What a search finds that begins with the first leaf's packing and splits by the values of children, where its bound
// is greater than that of what was stopped; else what is given. An `Err` is want of memory.
fn raised_by_values(
    alloc: Global,
    graph: &NetGraph,
    stopped: Solved,
    first: Packing,
    openings: u8,
) -> Result<Solved, AllocError>
    requires { IsNetworkOf graph.now stopped.network }
    ensures { (first_length : ℕ) → IsTold graph.now SplitKind.Edges openings first_length stopped
        → IfOk result (IsTold graph.now SplitKind.Edges openings first_length) }
{
    if openings == 0 || graph.edge_count() > MOST_EDGES_BY_VALUES {
        return Ok(stopped);
    }
    let proposal = Proposal::Values;
    let mut draws = Draws::new(SEED, proposal.most_arcs());
    let mut proposing = proposal.begin(alloc, graph)?;
    let begun = stopped.network.copy()?;
    let found = search(
        alloc,
        graph,
        begun,
        first,
        openings,
        &mut proposing,
        &mut draws,
    )?;
    if found.bound > stopped.bound && is_whole(&found, openings) {
        Ok(found)
    } else {
        Ok(stopped)
    }
}

// Whether a search closes, or has made as many splits as are allowed.
fn is_whole(found: &Solved, openings: u8) -> bool
    ensures { IsTrue result → found.now.optimal ≡ false → split_count found.now.tree ≡ openings }
{
    found.optimal || found.tree.splits() == u32::from(openings)
}
