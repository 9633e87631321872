//! Cuts on their way back to the given graph.

ghost use Rattle.std.specs.Prelude.{◌≡◌, length, All, IfOk};

use crate::steps::{Between, Leaf, Role, Step};
use cut_groups::{NONE, at, count, set};
use net_graph::{Cut, NetGraph, Packing, VertexSet};
use std::alloc::{AllocError, Global};

/// Cuts of the vertices that were there before some of the steps, as sets of the given graph's vertices.
#[derive(Drop)]
pub struct Lifting {
    cuts: Vec<Cut>,
    // Whether each vertex was there.
    present: Vec<bool>,
    // How many vertices the given graph has.
    size: u32,
}

impl Lifting {
    /// The cuts of a packing after all steps, where these vertices of the given graph are there. An `Err` is want of
    /// memory.
    pub fn of(
        alloc: Global,
        graph: &NetGraph,
        vertices: &[u32],
        packing: &Packing,
    ) -> Result<Lifting, AllocError> {
        let mut lifting = Lifting {
            cuts: Vec::new(alloc),
            present: vec![in alloc; false; graph.vertex_count() as usize]?,
            size: graph.vertex_count(),
        };
        for vertex in vertices {
            set(&mut lifting.present, *vertex, true);
        }
        for cut in packing.cuts() {
            let place = lifting.add_cut(alloc, cut.weight)?;
            for number in 0..cut.members.len() {
                if cut.members.holds(number) {
                    lifting.put(place, at(vertices, number, NONE));
                }
            }
        }
        Ok(lifting)
    }

    /// Undoes a step. An `Err` is want of memory.
    pub fn undo(&mut self, alloc: Global, step: Step) -> Result<(), AllocError> {
        match step {
            Step::Leaf(leaf) => self.undo_leaf(alloc, leaf),
            Step::Between(between) => self.undo_between(between),
            Step::Parallel(_) => Ok(()),
        }
    }

    /// The cuts, once all steps are undone. An `Err` is want of memory.
    pub fn packing(self, alloc: Global, graph: &NetGraph) -> Result<Packing, AllocError>
        ensures { IfOk result (All (λ c. length c.members ≡ graph.now.vertices)) }
    {
        let mut packing = Packing::empty(alloc);
        for cut in self.cuts {
            if cut.members.len() == graph.vertex_count() {
                packing.push(cut)?;
            }
        }
        Ok(packing)
    }

    // Appends a cut with no vertex, and tells its place. An `Err` is want of memory.
    fn add_cut(&mut self, alloc: Global, weight: u64) -> Result<u32, AllocError> {
        let place = count(&self.cuts);
        let members = VertexSet::empty(alloc, self.size)?;
        self.cuts.push(Cut { weight, members })?;
        Ok(place)
    }

    // Whether a cut has a vertex.
    fn has(&self, place: u32, vertex: u32) -> bool {
        match self.cuts.get(place as usize) {
            Some(cut) => cut.members.holds(vertex),
            None => false,
        }
    }

    // Puts a vertex into a cut.
    fn put(&mut self, place: u32, vertex: u32) {
        if let Some(cut) = self.cuts.get_mut(place as usize) {
            if vertex < cut.members.len() {
                cut.members.add(vertex);
            }
        }
    }

    // A vertex comes back that is in a cut where its neighbour is; a terminal or the root with the cut of its edge. An
    // `Err` is want of memory.
    fn undo_leaf(&mut self, alloc: Global, leaf: Leaf) -> Result<(), AllocError> {
        for place in 0..count(&self.cuts) {
            if self.has(place, leaf.side.neighbour) {
                self.put(place, leaf.vertex);
            }
        }
        if leaf.role != Role::Plain {
            let own = self.add_cut(alloc, leaf.side.length)?;
            self.fill(own, leaf);
        }
        set(&mut self.present, leaf.vertex, true);
        Ok(())
    }

    // Puts what the edge of a terminal cuts off from the root into a cut.
    fn fill(&mut self, own: u32, leaf: Leaf) {
        if leaf.role == Role::Terminal {
            self.put(own, leaf.vertex);
            return;
        }
        for vertex in 0..self.size {
            if at(&self.present, vertex, false) {
                self.put(own, vertex);
            }
        }
    }

    // A vertex comes back on an edge. In cuts that this edge enters it is inside as long as the edge from without has
    // room, and outside in the others: what they weigh fits into the other edge, as the one edge was as long as both.
    // An `Err` is want of memory.
    fn undo_between(&mut self, between: Between) -> Result<(), AllocError> {
        let vertex = between.vertex;
        let mut near_room = between.near.length;
        let mut far_room = between.far.length;
        for place in 0..count(&self.cuts) {
            let has_near = self.has(place, between.near.neighbour);
            let has_far = self.has(place, between.far.neighbour);
            if has_near && has_far {
                self.put(place, vertex);
            } else if has_far {
                near_room = self.take_in(place, vertex, near_room)?;
            } else if has_near {
                far_room = self.take_in(place, vertex, far_room)?;
            }
        }
        set(&mut self.present, vertex, true);
        Ok(())
    }

    // Puts a vertex into a cut as far as its weight fits into a room, and tells what room is left. What doesn't fit
    // becomes a cut without the vertex. An `Err` is want of memory.
    fn take_in(&mut self, place: u32, vertex: u32, room: u64) -> Result<u64, AllocError> {
        let Some(cut) = self.cuts.get_mut(place as usize) else {
            return Ok(room);
        };
        let taken = cut.weight.min(room);
        if taken == 0 {
            return Ok(room);
        }
        if taken < cut.weight {
            let mut rest = cut.copy()?;
            rest.weight = cut.weight.wrapping_sub(taken);
            cut.weight = taken;
            self.cuts.push(rest)?;
        }
        self.put(place, vertex);
        Ok(room.wrapping_sub(taken))
    }
}
