//! The faces of a graph that is drawn in the plane.

use crate::rotation::Rotation;
use cut_groups::{NONE, at, set};
use net_graph::NetGraph;
use std::alloc::{AllocError, Global};

/// The faces of a drawing of a graph in the plane. Each part that is apart is drawn by itself.
#[derive(Drop)]
pub struct Faces {
    // The face to the right of each arc, `NONE` beside an edge from a vertex to itself.
    rights: Vec<u32>,
    count: u32,
}

/// The faces on both sides of an arc, looking along it.
#[derive(Clone, Copy)]
pub struct Sides {
    /// The face to its left.
    pub left: u32,
    /// The face to its right.
    pub right: u32,
}

impl Faces {
    /// The faces of a drawing of a graph, which is the same for equal graphs, and for graphs that differ in lengths and
    /// terminals alone; `None` where the graph can't be drawn in the plane. An `Err` is want of memory.
    pub fn of(alloc: Global, graph: &NetGraph) -> Result<Option<Faces>, AllocError> {
        let Some(rotation) = Rotation::of(alloc, graph)? else {
            return Ok(None);
        };
        let arcs = graph.edge_count().saturating_mul(2);
        let mut faces = Faces {
            rights: vec![in alloc; NONE; arcs as usize]?,
            count: 0,
        };
        for arc in 0..arcs {
            if rotation.previous(arc) != NONE && faces.right(arc) == NONE {
                faces.go_round(&rotation, arc);
            }
        }
        Ok(Some(faces))
    }

    /// The same faces once more. An `Err` is want of memory.
    pub fn copy(&self) -> Result<Faces, AllocError> {
        Ok(Faces {
            rights: self.rights.clone()?,
            count: self.count,
        })
    }

    /// How many faces there are.
    pub fn count(&self) -> u32 {
        self.count
    }

    /// The faces beside an arc; `NONE` where it leads from a vertex to itself, or the graph has no such arc.
    pub fn beside(&self, arc: u32) -> Sides {
        Sides {
            left: self.right(arc ^ 1),
            right: self.right(arc),
        }
    }

    // The face to the right of an arc.
    fn right(&self, arc: u32) -> u32 {
        at(&self.rights, arc, NONE)
    }

    // Notes the next face, which is to the right of an arc, all the way round it.
    fn go_round(&mut self, rotation: &Rotation, start: u32) {
        let mut arc = start;
        for _ in 0..self.rights.len() {
            set(&mut self.rights, arc, self.count);
            arc = rotation.previous(arc ^ 1);
            if arc == start {
                break;
            }
        }
        self.count = self.count.wrapping_add(1);
    }
}
