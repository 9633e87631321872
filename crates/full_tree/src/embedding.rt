//! Trees as edge sets of the grid.

ghost use Rattle.std.specs.Prelude.{◌≡◌, ℕ, ◌≤◌, ◌↔◌, true, length, slice_get, Some, IfOk};
ghost use Rattle.net_graph.specs.Network.{Joins, length_of};
ghost use Rattle.hanan_grid.specs.Grid.{hanan_grid_of};
ghost use Rattle.full_tree.specs.Form.{IsInForm};
ghost use Rattle.full_tree.specs.Pieces.{pieces_of, code_length};
ghost use Rattle.full_tree.specs.Embedded.{IsOnPiece, member_vertices};

use crate::code::TreeCode;
use crate::pieces::{piece, piece_count};
use hanan_grid::Grid;
use net_graph::EdgeSet;
use std::alloc::{AllocError, Global};

/// The grid edges on which the pieces of a tree in form lie. They join its members and are together no
/// longer than the tree, and shorter where two pieces share an edge. An `Err` is want of memory.
pub fn embed(alloc: Global, grid: &Grid, code: &TreeCode) -> Result<EdgeSet, AllocError>
    requires { IsInForm grid.now code.now }
    ensures size { IfOk result (λ set. length set ≡ length (hanan_grid_of grid.now).edges) }
    ensures edges { IfOk result (λ set. (e : ℕ) → (slice_get set e ≡ Some true)
        ↔ IsOnPiece grid.now (pieces_of grid.now code.now) e) }
    ensures joins { IfOk result
        (λ set. Joins (hanan_grid_of grid.now) set (member_vertices grid.now code.now)) }
    ensures length { IfOk result
        (λ set. length_of (hanan_grid_of grid.now) set ≤ code_length grid.now code.now) }
{
    let mut set = EdgeSet::empty(alloc, grid.graph().edge_count())?;
    for n in 0..piece_count(grid, code) {
        let piece = piece(grid, code, n);
        grid.add_segment(piece.from, piece.to, &mut set);
    }
    Ok(set)
}
