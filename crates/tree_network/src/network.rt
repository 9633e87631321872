//! The network of the trees that are named.

ghost use Rattle.std.specs.Prelude.{◌≡◌, ℕ, ◌<◌, ◌≤◌, ◌↔◌, List, Bool, true, length, slice_get, Some, All, IfOk};
ghost use Rattle.net_graph.specs.Adds.{Adds};
ghost use Rattle.net_graph.specs.Members.{members_of};
ghost use Rattle.net_graph.specs.Network.{IsNetwork, length_of};
ghost use Rattle.hanan_grid.specs.Grid.{hanan_grid_of};
ghost use Rattle.full_tree.specs.Form.{IsInForm};
ghost use Rattle.full_tree.specs.Pieces.{code_length};
ghost use Rattle.concatenation.specs.Concatenation.{IsConcatenation, total_of};
ghost use Rattle.tree_network.specs.Named.{IsOnNamed};

use full_tree::{TreeList, embed};
use hanan_grid::Grid;
use net_graph::EdgeSet;
use std::alloc::{AllocError, Global};

/// The grid edges on which the trees at these places of the list lie. Where the places are those of a set of the
/// trees, the edges are together no longer than the set's trees, since an edge on several trees counts once; and where
/// the set is a concatenation, they are a network. An `Err` is want of memory.
pub fn network_of(
    alloc: Global,
    grid: &Grid,
    trees: &TreeList,
    places: &[u32],
) -> Result<EdgeSet, AllocError>
    requires form { All (λ tree. IsInForm grid.now tree.code) trees.now }
    requires lengths { All (λ tree. tree.length ≡ code_length grid.now tree.code) trees.now }
    requires places { All (λ k. k < length trees.now) places.now }
    ensures size { IfOk result (λ edges. length edges ≡ length (hanan_grid_of grid.now).edges) }
    ensures edges { IfOk result (λ edges. (e : ℕ) → (slice_get edges e ≡ Some true)
        ↔ IsOnNamed grid.now trees.now places.now e) }
    ensures network { IfOk result (λ edges. (set : List Bool) → places.now ≡ members_of set
        → IsConcatenation (length grid.now) trees.now set → IsNetwork (hanan_grid_of grid.now) edges) }
    ensures length { IfOk result (λ edges. (set : List Bool) → places.now ≡ members_of set
        → length_of (hanan_grid_of grid.now) edges ≤ total_of trees.now set) }
{
    let mut edges = EdgeSet::empty(alloc, grid.graph().edge_count())?;
    for place in places {
        let tree = trees.get(*place as usize);
        let own = embed(alloc, grid, &tree.code)?;
        add_all(&own, &mut edges);
    }
    Ok(edges)
}

// Adds the edges of one set to another.
fn add_all(from: &EdgeSet, to: &mut EdgeSet)
    requires { length from.now ≡ length to.old }
    ensures { Adds (λ e. slice_get from.now e ≡ Some true) to.old to.new }
{
    for e in 0..from.len() {
        if from.has(e) {
            to.add(e);
        }
    }
}
