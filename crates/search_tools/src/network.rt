//! A network no longer than full trees that join its points.

ghost use Rattle.std.specs.Prelude.{◌≡◌, IfOk};
ghost use Rattle.hanan_grid.specs.Grid.{hanan_grid_of};
ghost use Rattle.branch.specs.States.{IsNetworkOf};
ghost use Rattle.fst_file.specs.Value.{AreTreesOf};
ghost use Rattle.tool_frame.specs.Stops.{IfFound};
ghost use Rattle.search_tools.specs.Steps.{FindsNetwork, IsNoLonger, is_least};

use answer_text::ConcatNote;
use fst_concat::{ChosenKind, ConcatFault, concat, trees_in_form_have_members};
use full_tree::TreeList;
use hanan_grid::Grid;
use net_graph::EdgeSet;
use network_judge::{ENOUGH_DESCENTS, shortened};
use std::alloc::{AllocError, Global};
use tool_frame::Stop;
use tree_network::network_of;

/// A network of a grid that is made of full trees, or that is shorter than such a one, and what is told of their
/// concatenation.
#[derive(Drop)]
pub struct Found {
    pub network: EdgeSet,
    pub note: ConcatNote,
}

/// The union of the trees of a concatenation, of a least one where the search for it comes to its end within the
/// allowed splits. A fault is the place of the first terminal that all trees together leave apart.
pub fn network_on(
    alloc: Global,
    grid: &Grid,
    trees: &TreeList,
    allowed: u32,
) -> Result<Found, Stop<u8>>
    requires { AreTreesOf grid.now trees.now }
    ensures { IfFound result (FindsNetwork allowed grid.now trees.now) }
{
    trees_in_form_have_members();
    let points = grid.points().len() as u8;
    let chosen = match concat(alloc, points, trees, allowed) {
        Ok(chosen) => chosen,
        Err(ConcatFault::Unspanned { place }) => return Err(Stop::Fault(place)),
        Err(ConcatFault::Memory(error)) => return Err(Stop::Memory(error)),
    };
    let network = network_of(alloc, grid, trees, chosen.places.as_slice())?;
    let note = ConcatNote {
        least: is_least(&chosen.kind),
        total: chosen.total,
    };
    Ok(Found { network, note })
}

/// The network without what no terminal needs, and made shorter where a local search finds how. An `Err` is want of
/// memory.
pub fn improved(alloc: Global, grid: &Grid, found: Found) -> Result<Found, AllocError>
    requires { IsNetworkOf (hanan_grid_of grid.now) found.network }
    ensures { IfOk result (IsNoLonger (hanan_grid_of grid.now) found) }
{
    let Found { network, note } = found;
    let network = shortened(alloc, grid.graph(), &network, ENOUGH_DESCENTS)?;
    Ok(Found { network, note })
}

// Whether no concatenation has a smaller total.
fn is_least(kind: &ChosenKind) -> bool
    ensures { result ≡ is_least kind.now }
{
    matches!(kind, ChosenKind::Least)
}
