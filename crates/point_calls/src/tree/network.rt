//! The networks of trees.

ghost use Rattle.std.specs.Prelude.{◌≡◌, All};
ghost use Rattle.full_tree.specs.Form.{IsInForm};
ghost use Rattle.full_tree.specs.Pieces.{code_length};

use crate::tree::places::places;
use full_tree::TreeList;
use graph_calls::told::tell_edges;
use hanan_grid::Grid;
use row_tables::{Call, Fault, Told};
use std::alloc::Global;
use tree_network::network_of;

/// The edges of the trees at the places under `places`, in ascending order.
pub fn network(
    alloc: Global,
    call: &Call,
    grid: &Grid,
    trees: &TreeList,
    told: &mut Told,
) -> Result<(), Fault>
    requires form { All (λ tree. IsInForm grid.now tree.code) trees.now }
    requires lengths { All (λ tree. tree.length ≡ code_length grid.now tree.code) trees.now }
{
    let places = places(alloc, call, "places", trees.len())?;
    let edges = network_of(alloc, grid, trees, &places)?;
    tell_edges(told, "edges", &edges);
    Ok(())
}
