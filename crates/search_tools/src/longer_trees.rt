//! Networks of trees with more members than those of the list that an answer tells of.

ghost use Rattle.std.specs.Prelude.{◌≡◌, ◌≤◌, ℕ, length, IfOk, IfSome};
ghost use Rattle.net_graph.specs.Network.{length_of};
ghost use Rattle.hanan_grid.specs.Grid.{hanan_grid_of};
ghost use Rattle.branch.specs.States.{IsNetworkOf};
ghost use Rattle.concatenation.specs.Concatenation.{all_of};
ghost use Rattle.fst_concat.specs.Chosen.{IsFirstApart};
ghost use Rattle.fst_file.specs.Value.{AreTreesOf};
ghost use Rattle.fst_gen.specs.Joins.{JoinsAll};
ghost use Rattle.search_tools.specs.Steps.{IsMadeOf, IsNoLonger};

use crate::network::{Found, improved, network_on};
use concatenation::more_trees;
use full_tree::TreeList;
use hanan_grid::Grid;
use net_graph::{EdgeSet, NetGraph, length};
use std::alloc::{AllocError, Global};
use tool_frame::Stop;
use tree_inputs::kept_trees;

/// A network no longer than the one that was found of some trees, with what is told of these: it, or the union of a
/// concatenation of the kept ones of a longer list, where that is shorter. A local search makes it shorter, unless a
/// concatenation of the longer list is known as least: there it was not seen to gain. An `Err` is want of memory.
pub fn no_longer(
    alloc: Global,
    grid: &Grid,
    found: Found,
    trees: &TreeList,
    longer: Option<TreeList>,
    allowed: u32,
) -> Result<Found, AllocError>
    requires network { IsNetworkOf (hanan_grid_of grid.now) found.network }
    requires longer { IfSome longer (AreTreesOf grid.now) }
    requires joins { IfSome longer (JoinsAll (length grid.now)) }
    ensures { IfOk result (IsNoLonger (hanan_grid_of grid.now) found) }
{
    let Some(longer) = longer else {
        return improved(alloc, grid, found);
    };
    more_trees();
    let longer = kept_trees(alloc, grid, &longer)?;
    // Where no tree with more members is kept, the lists are one.
    if longer.len() == trees.len() {
        let least = found.note.least;
        return improved_unless(alloc, grid, found, least);
    }
    let Found { network, note } = joined(alloc, grid, &longer, allowed)?;
    let shorter = Found {
        network: shorter_of(grid.graph(), found.network, network),
        note: found.note,
    };
    improved_unless(alloc, grid, shorter, note.least)
}

/// The union of the trees of a concatenation of trees that join all terminals. An `Err` is want of memory.
pub fn joined(
    alloc: Global,
    grid: &Grid,
    trees: &TreeList,
    allowed: u32,
) -> Result<Found, AllocError>
    requires trees { AreTreesOf grid.now trees.now }
    requires joins { (place : ℕ) → ¬ IsFirstApart (length grid.now) trees.now (all_of trees.now) place }
    ensures { IfOk result (IsMadeOf allowed grid.now trees.now) }
{
    match network_on(alloc, grid, trees, allowed) {
        Ok(found) => Ok(found),
        Err(Stop::Fault(_)) => unreachable!(),
        Err(Stop::Memory(error)) => Err(error),
    }
}

// The shorter one of two networks, the first where they are as long.
fn shorter_of(g: &NetGraph, first: EdgeSet, other: EdgeSet) -> EdgeSet
    requires first { IsNetworkOf g.now first }
    requires other { IsNetworkOf g.now other }
    ensures network { IsNetworkOf g.now result }
    ensures first { length_of g.now result ≤ length_of g.now first }
    ensures other { length_of g.now result ≤ length_of g.now other }
    ensures tie { length_of g.now first ≤ length_of g.now other → result ≡ first }
{
    if length(g, &other) < length(g, &first) {
        other
    } else {
        first
    }
}

// The network that was found, made shorter unless it is known that this gains nothing. An `Err` is want of memory.
fn improved_unless(
    alloc: Global,
    grid: &Grid,
    found: Found,
    least: bool,
) -> Result<Found, AllocError>
    requires { IsNetworkOf (hanan_grid_of grid.now) found.network }
    ensures { IfOk result (IsNoLonger (hanan_grid_of grid.now) found) }
{
    if least {
        Ok(found)
    } else {
        improved(alloc, grid, found)
    }
}
