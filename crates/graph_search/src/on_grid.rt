//! The search on the grid of points.

ghost use Rattle.std.specs.Prelude.{IfOk};
ghost use Rattle.net_graph.specs.Network.{length_of};
ghost use Rattle.hanan_grid.specs.Grid.{hanan_grid_of};
ghost use Rattle.branch.specs.States.{IsNetworkOf};
ghost use Rattle.graph_search.specs.Kinds.{kind_of};
ghost use Rattle.graph_search.specs.Searched.{IsTold};

use crate::exchanging::Exchanges;
use crate::raised_search::searched;
use branch::Solved;
use hanan_grid::Grid;
use net_graph::EdgeSet;
use packing_judge::Ground;
use search_rules::GraphOptions;
use std::alloc::{AllocError, Global};

/// What a search finds that begins with a network of a grid. Its first leaf is that of an ascent from no cut. Where
/// this stays below the network's length, it is the better one of it and of an ascent that begins with what an exchange
/// finds; where that leads to a shorter network, or has spent its budget and the leaf can't be split with packings made
/// anew, another exchange follows. An `Err` is want of memory.
pub fn searched_on(
    alloc: Global,
    grid: &Grid,
    first: EdgeSet,
    options: GraphOptions,
) -> Result<Solved, AllocError>
    requires { IsNetworkOf (hanan_grid_of grid.now) first }
    ensures { IfOk result (IsTold (hanan_grid_of grid.now) (kind_of options.split) options.openings
        (length_of (hanan_grid_of grid.now) first)) }
{
    let ground = Ground::of(alloc, grid.graph())?;
    let exchanges = Exchanges::in_plane(grid.graph(), &ground);
    searched(alloc, grid.graph(), first, options, &exchanges)
}
