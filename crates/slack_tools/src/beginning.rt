//! What the bounds of a grid's edges begin with.

ghost use Rattle.std.specs.Prelude.{◌≡◌, IfOk};
ghost use Rattle.hanan_grid.specs.Grid.{hanan_grid_of};
ghost use Rattle.edge_slack.specs.Beginning.{IsBeginning};

use edge_slack::Beginning;
use graph_search::searched_on;
use graph_solve::first_network;
use hanan_grid::Grid;
use search_rules::{AscentRule, GraphOptions, SplitRule};
use std::alloc::{AllocError, Global};

/// The packing of the one leaf with which a search without openings ends that begins with a short network. Where its
/// value is the least length of a network, it is tight, and few bounds of edges stay below that length. An `Err` is
/// want of memory.
pub(crate) fn beginning_on(
    alloc: Global,
    grid: &Grid,
    rule: AscentRule,
) -> Result<Beginning, AllocError>
    ensures { IfOk result (IsBeginning (hanan_grid_of grid.now)) }
{
    let graph = grid.graph();
    let first = first_network(alloc, graph)?;
    let solved = searched_on(alloc, grid, first, without_openings(rule))?;
    let packing = solved.tree.packing(0).copy()?;
    Beginning::at(alloc, graph, packing)
}

// A search that makes no opening.
fn without_openings(rule: AscentRule) -> GraphOptions
    ensures { result.openings ≡ 0 }
{
    GraphOptions {
        openings: 0,
        ascent: rule,
        split: SplitRule::Longest,
    }
}
