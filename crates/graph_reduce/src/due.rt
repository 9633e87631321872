//! Nodes at which the rules may apply.

ghost use Rattle.std.specs.Prelude.{◌≡◌, ℕ, ◌<◌, OnOk, IfOk};
ghost use Rattle.graph_reduce.specs.State.{Bundle, HasEdge};
ghost use Rattle.graph_reduce.specs.Due.{IsDue, StaysDue, AreHeld, AreEndsDue};

use crate::node_edges::NodeEdges;
use crate::number_sets::put;
use crate::work::Work;
use net_graph::Edge;
use std::alloc::{AllocError, Global};
use std::collections::BTreeSet;

/// For each rule at nodes, nodes among which are all where it applies. Where something changes at a node it gets due,
/// and it is taken out where it is met and the rule does not apply at it. So the lowest node of a rule is found without
/// a look at the others.
#[derive(Drop)]
pub(crate) struct Due {
    pub leaves: BTreeSet<u32>,
    pub passed: BTreeSet<u32>,
    pub terminals: BTreeSet<u32>,
}

impl Due {
    /// All of so many nodes. An `Err` is want of memory.
    pub fn all(alloc: Global, count: u32) -> Result<Due, AllocError>
        ensures { IfOk result (λ due. (v : ℕ) → v < count → IsDue due v) }
    {
        let mut due = Due {
            leaves: BTreeSet::new(alloc),
            passed: BTreeSet::new(alloc),
            terminals: BTreeSet::new(alloc),
        };
        due.add_all(count)?;
        Ok(due)
    }

    /// Adds all of so many nodes. An `Err` is want of memory.
    pub fn add_all(&mut self, count: u32) -> Result<(), AllocError>
        ensures { OnOk result ((v : ℕ) → v < count → IsDue self.new v) }
    {
        for v in 0..count {
            self.add(v)?;
        }
        Ok(())
    }

    /// Adds a node. An `Err` is want of memory.
    pub fn add(&mut self, v: u32) -> Result<(), AllocError>
        ensures due { OnOk result (IsDue self.new v) }
        ensures stays { StaysDue self.old self.new }
    {
        put(&mut self.leaves, v)?;
        put(&mut self.passed, v)?;
        put(&mut self.terminals, v)
    }

    /// Adds the ends of those edges. An `Err` is want of memory.
    pub fn add_ends_of(&mut self, work: &Work, edges: NodeEdges) -> Result<(), AllocError>
        requires { AreHeld work.now edges }
        ensures due { OnOk result (AreEndsDue work.now edges self.new) }
        ensures stays { StaysDue self.old self.new }
    {
        match edges {
            NodeEdges::OneEdge(place) => self.add_ends(work.edge_at(place)),
            NodeEdges::TwoEdges(one, two) => {
                self.add_ends(work.edge_at(one))?;
                self.add_ends(work.edge_at(two))
            }
            _ => Ok(()),
        }
    }

    // Adds both ends of an edge. An `Err` is want of memory.
    fn add_ends(&mut self, edge: Edge) -> Result<(), AllocError>
        ensures due { OnOk result (IsDue self.new edge.a × IsDue self.new edge.b) }
        ensures stays { StaysDue self.old self.new }
    {
        self.add(edge.a)?;
        self.add(edge.b)
    }
}
