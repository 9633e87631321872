//! A network cleaned to a tree: a walk from the root drops an edge of each cycle, and what holds no
//! terminal is known.

use crate::cells::{NONE, add_at, at, set};
use crate::ends::ends_of;
use net_graph::{EdgeSet, NetGraph};
use std::alloc::{AllocError, Global};

/// A walk from the root along a network: the vertices in the order in which they are come to, the
/// arc into each, whether a terminal is there, and how many are at or below it.
#[derive(Drop)]
pub struct Walk {
    pub order: Vec<u32>,
    pub into: Vec<u32>,
    pub own: Vec<bool>,
    pub held: Vec<u32>,
}

/// Walks along a network; `None` where it doesn't join the terminals. An `Err` is want of memory.
pub fn walked(
    alloc: Global,
    graph: &NetGraph,
    network: &EdgeSet,
) -> Result<Option<Walk>, AllocError> {
    let root = graph.root();
    let vertices = graph.vertex_count();
    let mut walk = Walk {
        order: Vec::new(alloc),
        into: vec![in alloc; NONE; vertices as usize]?,
        own: vec![in alloc; false; vertices as usize]?,
        held: vec![in alloc; 0; vertices as usize]?,
    };
    walk.order.push(root)?;
    for rank in 0..vertices {
        let vertex = at(&walk.order, rank, NONE);
        walk.go_on(graph, network, root, vertex)?;
    }
    for terminal in graph.terminals() {
        if *terminal != root && at(&walk.into, *terminal, NONE) == NONE {
            return Ok(None);
        }
        set(&mut walk.own, *terminal, true);
        set(&mut walk.held, *terminal, 1);
    }
    walk.count_held(graph);
    Ok(Some(walk))
}

impl Walk {
    // Comes to the vertices beside one. An `Err` is want of memory.
    fn go_on(
        &mut self,
        graph: &NetGraph,
        network: &EdgeSet,
        root: u32,
        vertex: u32,
    ) -> Result<(), AllocError> {
        if vertex >= graph.vertex_count() {
            return Ok(());
        }
        for arc in graph.arcs_from(vertex) {
            let edge = arc.number / 2;
            if edge < network.len()
                && network.has(edge)
                && arc.to != root
                && at(&self.into, arc.to, 0) == NONE
            {
                set(&mut self.into, arc.to, arc.number);
                self.order.push(arc.to)?;
            }
        }
        Ok(())
    }

    // Adds the terminals of each vertex to the one before it.
    fn count_held(&mut self, graph: &NetGraph) {
        for vertex in self.order.iter().rev() {
            let arc = at(&self.into, *vertex, NONE);
            if arc != NONE {
                let held = at(&self.held, *vertex, 0);
                add_at(&mut self.held, ends_of(graph, arc).tail, held);
            }
        }
    }
}
