//! The room in which a checker works.

ghost use Rattle.std.specs.Prelude.{◌≡◌, ◌≤◌, ◌+◌, ◌*◌, false, length, replicate, IfOk};
ghost use Rattle.hanan_grid.specs.Grid.{hanan_grid_of};
ghost use Rattle.tree_judge.specs.Room.{bytes_of, nothing_kept};
ghost use Rattle.cert_check.specs.Named.{named_of};

use crate::subject::Subject;
use hanan_grid::Grid;
use net_graph::{EdgeSet, VertexSet};
use std::alloc::{AllocError, Global};
use tree_judge::Room;

/// What a checker of an answer works in, which is handed to it whole.
#[derive(Drop)]
pub struct Workroom {
    /// A set of the graph's edges, for the network.
    pub network: EdgeSet,
    /// A set of the graph's vertices, for the cut that is read.
    pub members: VertexSet,
    /// The room of the judge, in no more memory than 3 E + 3 V + 512 numbers of 64 bits for E edges and V vertices.
    pub work: Room,
}

impl Workroom {
    /// The room for a checker on a grid, with empty sets. An `Err` is want of memory.
    pub fn new(alloc: Global, grid: &Grid) -> Result<Workroom, AllocError>
        ensures network { IfOk result (λ room.
            room.network ≡ replicate (length (hanan_grid_of grid.now).edges) false) }
        ensures members { IfOk result (λ room. room.members ≡ replicate (hanan_grid_of grid.now).vertices false) }
        ensures work { IfOk result (λ room. room.work ≡ nothing_kept (length (hanan_grid_of grid.now).edges)
            (hanan_grid_of grid.now).vertices) }
        ensures numbers { IfOk result (λ room. bytes_of room.work ≤ 8 * (3 * length (hanan_grid_of grid.now).edges
            + 3 * (hanan_grid_of grid.now).vertices + 512)) }
    {
        Workroom::of(alloc, Subject::OnGrid(grid))
    }

    /// The room for a checker of an answer about the subject, with empty sets. An `Err` is want of memory.
    pub fn of(alloc: Global, subject: Subject) -> Result<Workroom, AllocError>
        ensures network { IfOk result (λ room.
            room.network ≡ replicate (length (named_of subject.entry).graph.edges) false) }
        ensures members { IfOk result (λ room. room.members ≡ replicate (named_of subject.entry).graph.vertices false) }
        ensures work { IfOk result (λ room. room.work ≡ nothing_kept
            (length (named_of subject.entry).graph.edges) (named_of subject.entry).graph.vertices) }
        ensures numbers { IfOk result (λ room. bytes_of room.work ≤ 8
            * (3 * length (named_of subject.entry).graph.edges + 3 * (named_of subject.entry).graph.vertices + 512)) }
    {
        let g = subject.graph();
        let edges = g.edge_count();
        let vertices = g.vertex_count();
        Ok(Workroom {
            network: EdgeSet::empty(alloc, edges)?,
            members: VertexSet::empty(alloc, vertices)?,
            work: Room::new(alloc, edges, vertices)?,
        })
    }
}
