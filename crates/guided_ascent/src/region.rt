//! The vertices from which saturated arcs lead to a vertex, and the arcs that enter their set.

ghost use Rattle.std.specs.Prelude.{◌≡◌, length, IfOk};

use cut_groups::{NONE, Tree, at, count, set};
use net_graph::{NetGraph, VertexSet, partner};
use std::alloc::{AllocError, Global};

/// What is known of the arcs that enter a set.
#[derive(Clone, Copy)]
pub struct Border {
    /// How many they are.
    pub arcs: u32,
    /// How many of them are the tree's.
    pub of_tree: u32,
    /// The least that is left of the room of one; the greatest number where none enters.
    pub least: u64,
}

/// The set, which is made anew for one vertex after the other; its lists are kept.
#[derive(Drop)]
pub struct Region {
    // The number of the set in which each vertex was put last.
    put: Vec<u32>,
    number: u32,
    // The vertices of the set, in the order in which they were found.
    found: Vec<u32>,
    entering: Vec<u32>,
}

impl Region {
    /// No set yet. An `Err` is want of memory.
    pub fn empty(alloc: Global, graph: &NetGraph) -> Result<Region, AllocError> {
        Ok(Region {
            put: vec![in alloc; 0; graph.vertex_count() as usize]?,
            number: 0,
            found: Vec::new(alloc),
            entering: Vec::new(alloc),
        })
    }

    /// Makes it the set of the vertices from which saturated arcs, of whose rooms nothing is left, lead to one. An
    /// `Err` is want of memory.
    pub fn grow(&mut self, graph: &NetGraph, left: &[u64], vertex: u32) -> Result<(), AllocError> {
        self.number = self.number.wrapping_add(1);
        self.found.clear();
        self.find(vertex)?;
        for rank in 0..graph.vertex_count() {
            let vertex = at(&self.found, rank, NONE);
            self.go_on(graph, left, vertex)?;
        }
        Ok(())
    }

    // Finds those from which a saturated arc leads to a vertex. An `Err` is want of memory.
    fn go_on(&mut self, graph: &NetGraph, left: &[u64], vertex: u32) -> Result<(), AllocError> {
        if vertex >= graph.vertex_count() {
            return Ok(());
        }
        for along in graph.arcs_from(vertex) {
            if at(left, partner(along.number), 1) == 0 {
                self.find(along.to)?;
            }
        }
        Ok(())
    }

    // Finds a vertex, unless it was found before. An `Err` is want of memory.
    fn find(&mut self, vertex: u32) -> Result<(), AllocError> {
        if !self.has(vertex) {
            set(&mut self.put, vertex, self.number);
            self.found.push(vertex)?;
        }
        Ok(())
    }

    /// Whether the set has a vertex.
    pub fn has(&self, vertex: u32) -> bool {
        at(&self.put, vertex, 0) == self.number
    }

    /// Looks at the arcs that enter the set, and lists them. An `Err` is want of memory.
    pub fn border(
        &mut self,
        graph: &NetGraph,
        tree: &Tree,
        left: &[u64],
    ) -> Result<Border, AllocError> {
        self.entering.clear();
        for rank in 0..count(&self.found) {
            let vertex = at(&self.found, rank, NONE);
            self.list_entering(graph, vertex)?;
        }
        let mut border = Border {
            arcs: count(&self.entering),
            of_tree: 0,
            least: u64::MAX,
        };
        for arc in &self.entering {
            border.least = border.least.min(at(left, *arc, 0));
            if tree.group(*arc) != NONE {
                border.of_tree = border.of_tree.wrapping_add(1);
            }
        }
        Ok(border)
    }

    // Lists the arcs too that enter the set at a vertex of it. An `Err` is want of memory.
    fn list_entering(&mut self, graph: &NetGraph, vertex: u32) -> Result<(), AllocError> {
        if vertex >= graph.vertex_count() {
            return Ok(());
        }
        for along in graph.arcs_from(vertex) {
            if !self.has(along.to) {
                self.entering.push(partner(along.number))?;
            }
        }
        Ok(())
    }

    /// The arcs that enter the set, as they were listed last.
    pub fn entering(&self) -> &[u32] {
        &self.entering
    }

    /// The set, of the graph's vertices. An `Err` is want of memory.
    pub fn members(&self, alloc: Global, graph: &NetGraph) -> Result<VertexSet, AllocError>
        ensures { IfOk result (λ set. length set ≡ graph.now.vertices) }
    {
        let mut members = VertexSet::empty(alloc, graph.vertex_count())?;
        for vertex in &self.found {
            if *vertex < members.len() {
                members.add(*vertex);
            }
        }
        Ok(members)
    }
}
