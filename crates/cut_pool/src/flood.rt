//! The vertex set of a cut, made of the arcs that enter it.

ghost use Rattle.std.specs.Prelude.{◌≡◌, length, IfOk};

use cut_groups::{NONE, at, ends_of, set};
use net_graph::{NetGraph, VertexSet};
use std::alloc::{AllocError, Global};

/// Work space.
#[derive(Drop)]
pub struct Flood {
    // The cut that each edge is at the border of, by the number of its flood.
    walls: Vec<u32>,
    number: u32,
    // The vertices reached, in their order.
    reached: Vec<u32>,
}

impl Flood {
    /// The work space. An `Err` is want of memory.
    pub fn new(alloc: Global, graph: &NetGraph) -> Result<Flood, AllocError> {
        Ok(Flood {
            walls: vec![in alloc; 0; graph.edges().len()]?,
            number: 0,
            reached: Vec::new(alloc),
        })
    }

    /// The vertices that are reached from the head of an arc without crossing its edge or those of other arcs. An
    /// `Err` is want of memory.
    pub fn filled(
        &mut self,
        alloc: Global,
        graph: &NetGraph,
        arc: u32,
        others: &[u32],
    ) -> Result<VertexSet, AllocError>
        ensures { IfOk result (λ set. length set ≡ graph.now.vertices) }
    {
        self.number = self.number.wrapping_add(1);
        set(&mut self.walls, arc / 2, self.number);
        for other in others {
            set(&mut self.walls, *other / 2, self.number);
        }
        let mut members = VertexSet::empty(alloc, graph.vertex_count())?;
        self.reached.clear();
        self.reach(&mut members, ends_of(graph, arc).head)?;
        for rank in 0..graph.vertex_count() {
            let vertex = at(&self.reached, rank, NONE);
            if vertex == NONE {
                break;
            }
            self.go_on(graph, &mut members, vertex)?;
        }
        Ok(members)
    }

    // Reaches the vertices beside one. An `Err` is want of memory.
    fn go_on(
        &mut self,
        graph: &NetGraph,
        members: &mut VertexSet,
        vertex: u32,
    ) -> Result<(), AllocError>
        ensures { length members.new ≡ length members.old }
    {
        if vertex >= graph.vertex_count() {
            return Ok(());
        }
        for arc in graph.arcs_from(vertex) {
            if at(&self.walls, arc.number / 2, 0) != self.number {
                self.reach(members, arc.to)?;
            }
        }
        Ok(())
    }

    // Reaches a vertex. An `Err` is want of memory.
    fn reach(&mut self, members: &mut VertexSet, vertex: u32) -> Result<(), AllocError>
        ensures { length members.new ≡ length members.old }
    {
        if vertex < members.len() && !members.has(vertex) {
            members.add(vertex);
            self.reached.push(vertex)?;
        }
        Ok(())
    }
}
