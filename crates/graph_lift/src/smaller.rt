//! The smaller graph of a graph.

ghost use Rattle.std.specs.Prelude.{◌≡◌, length, All, IfOk};

use crate::lifting::Lifting;
use crate::parts::{Part, parts_of, whole_in};
use crate::steps::Step;
use crate::work::Work;
use cut_groups::{NONE, at, count, set};
use lists::ItemList;
use net_graph::{Cut, Edge, EdgeSet, GraphFault, NetGraph, Packing, VertexSet};
use std::alloc::{AllocError, Global};
use std::marker::Model;

// Where fewer than one vertex of so many goes, it isn't worth the while.
const PART: u32 = 10;

// What `NetGraph::new` asks for.
const MOST_VERTICES: usize = 2500;

const MOST_EDGES: usize = 4900;

/// A smaller graph of a graph, with the steps that lead there. Contracts see the smaller graph.
#[derive(Drop)]
pub struct Smaller {
    graph: NetGraph,
    // The numbers of its vertices and edges in the given graph; an edge that came up later has one after those.
    vertices: Vec<u32>,
    edges: Vec<u32>,
    parts: Vec<Part>,
    steps: Vec<Step>,
    taken: u64,
}

impl Model for Smaller {
    ghost use Rattle.net_graph.specs.Graph.{Graph};

    ghost Value = { Graph };

    ghost view = { λ s. s.graph };
}

impl Smaller {
    /// The smaller graph. As long as there is one a vertex of degree 1 goes, or one of degree 2 that is no terminal,
    /// and so does the longer one of two parallel edges. `None` where few vertices would go, or all but one. An `Err`
    /// is want of memory.
    pub fn of(alloc: Global, graph: &NetGraph) -> Result<Option<Smaller>, AllocError> {
        let mut work = Work::of(alloc, graph)?;
        work.shrink()?;
        let mut vertices = Vec::new(alloc);
        for vertex in 0..graph.vertex_count() {
            if work.has(vertex) {
                vertices.push(vertex)?;
            }
        }
        let left = count(&vertices);
        let gone = graph.vertex_count().saturating_sub(left);
        if left < 2 || gone.saturating_mul(PART) < graph.vertex_count() {
            return Ok(None);
        }
        made_of(alloc, work, vertices)
    }

    /// The smaller graph by itself.
    pub fn graph(&self) -> &NetGraph
        ensures { result.now ≡ self.now }
    {
        &self.graph
    }

    /// The sum of the lengths of the edges that went with terminals of degree 1: networks of the given graph are longer
    /// by so much.
    pub fn taken(&self) -> u64 {
        self.taken
    }

    /// The edges that a network of the given graph has all of, or all of a way as long or longer that went. An `Err` is
    /// want of memory.
    pub fn network(
        &self,
        alloc: Global,
        graph: &NetGraph,
        network: &EdgeSet,
    ) -> Result<EdgeSet, AllocError>
        ensures { IfOk result (λ set. length set ≡ length self.now.edges) }
    {
        let whole = whole_in(alloc, graph, &self.steps, network)?;
        let mut inside = EdgeSet::empty(alloc, self.graph.edge_count())?;
        for number in 0..self.graph.edge_count() {
            let edge = at(&self.edges, number, NONE);
            if at(&whole, edge, false) && number < inside.len() {
                inside.add(number);
            }
        }
        Ok(inside)
    }

    /// The cuts of the given graph on the vertices that are left, without those that hold no terminal there, or the
    /// root. Nothing is promised of them. An `Err` is want of memory.
    pub fn below(&self, alloc: Global, packing: &Packing) -> Result<Packing, AllocError> {
        let mut below = Packing::empty(alloc);
        for cut in packing.cuts() {
            let members = self.left_of(alloc, &cut.members)?;
            let mut is_cut = false;
            for terminal in self.graph.terminals() {
                is_cut = is_cut || members.holds(*terminal);
            }
            if is_cut && !members.holds(self.graph.root()) {
                let weight = cut.weight;
                below.push(Cut { weight, members })?;
            }
        }
        Ok(below)
    }

    /// A packing of the smaller graph as one of the given graph, with the cuts of the terminals that went. Where it is
    /// feasible so is what comes of it, with a value that is more by what was taken; that is not promised. An `Err` is
    /// want of memory.
    pub fn lifted(
        &self,
        alloc: Global,
        graph: &NetGraph,
        packing: &Packing,
    ) -> Result<Packing, AllocError>
        ensures { IfOk result (λ p. All (λ c. length c.members ≡ graph.now.vertices) p) }
    {
        let mut lifting = Lifting::of(alloc, graph, &self.vertices, packing)?;
        for step in self.steps.iter().rev() {
            lifting.undo(alloc, *step)?;
        }
        lifting.packing(alloc, graph)
    }

    /// Of each edge of the given graph the share in percent of the edge that it became a part of; 100 where it went
    /// with a terminal, 0 for others that went. Empty where no shares are given. An `Err` is want of memory.
    pub fn shares(
        &self,
        alloc: Global,
        graph: &NetGraph,
        shares: &[u32],
    ) -> Result<Vec<u32>, AllocError> {
        let mut lifted = Vec::new(alloc);
        if shares.is_empty() {
            return Ok(lifted);
        }
        for edge in 0..graph.edge_count() {
            let share = match at(&self.parts, edge, Part::Gone) {
                Part::Of(number) => at(shares, number, 0),
                Part::Taken => 100,
                Part::Gone => 0,
            };
            lifted.push(share)?;
        }
        Ok(lifted)
    }

    /// Of each vertex of the given graph the score that it has in the smaller one; 0 where it went. Empty where no
    /// scores are given. An `Err` is want of memory.
    pub fn scores(
        &self,
        alloc: Global,
        graph: &NetGraph,
        scores: &[u32],
    ) -> Result<Vec<u32>, AllocError> {
        if scores.is_empty() {
            return Ok(Vec::new(alloc));
        }
        let mut lifted = vec![in alloc; 0u32; graph.vertex_count() as usize]?;
        for number in 0..count(&self.vertices) {
            let vertex = at(&self.vertices, number, NONE);
            set(&mut lifted, vertex, at(scores, number, 0));
        }
        Ok(lifted)
    }

    // The vertices of a set that are left. An `Err` is want of memory.
    fn left_of(&self, alloc: Global, members: &VertexSet) -> Result<VertexSet, AllocError> {
        let mut left = VertexSet::empty(alloc, self.graph.vertex_count())?;
        for number in 0..count(&self.vertices) {
            let vertex = at(&self.vertices, number, NONE);
            if members.holds(vertex) && number < left.len() {
                left.add(number);
            }
        }
        Ok(left)
    }
}

// The smaller graph of these vertices; `None` where its parts make no graph. An `Err` is want of memory.
fn made_of(alloc: Global, work: Work, vertices: Vec<u32>) -> Result<Option<Smaller>, AllocError> {
    let mut edges = Vec::new(alloc);
    for edge in 0..work.edges() {
        if work.has_edge(edge) {
            edges.push(edge)?;
        }
    }
    let parts = parts_of(alloc, &work, &edges)?;
    let Some(graph) = graph_of(alloc, &work, &vertices, &edges)? else {
        return Ok(None);
    };
    Ok(Some(Smaller {
        graph,
        vertices,
        edges,
        parts,
        taken: work.taken,
        steps: work.steps,
    }))
}

// The graph of these vertices and edges, with numbers by their places. The root is the first terminal. `None` where
// they make no graph. An `Err` is want of memory.
fn graph_of(
    alloc: Global,
    work: &Work,
    vertices: &[u32],
    edges: &[u32],
) -> Result<Option<NetGraph>, AllocError> {
    let numbers = numbers_of(alloc, work, vertices)?;
    let mut terminals = Vec::new(alloc);
    terminals.push(at(&numbers, work.root, NONE))?;
    for vertex in vertices {
        if work.has_terminal(*vertex) {
            terminals.push(at(&numbers, *vertex, NONE))?;
        }
    }
    let mut list = Vec::new(alloc);
    for edge in edges {
        let Edge { a, b, length } = work.edge(*edge);
        let a = at(&numbers, a, NONE);
        let b = at(&numbers, b, NONE);
        list.push(Edge { a, b, length })?;
    }
    if vertices.len() > MOST_VERTICES || list.len() > MOST_EDGES {
        return Ok(None);
    }
    let count = vertices.len() as u32;
    let edges = ItemList::from_vec(list);
    match NetGraph::new(alloc, count, edges, ItemList::from_vec(terminals)) {
        Ok(graph) => Ok(Some(graph)),
        Err(GraphFault::Memory(fault)) => Err(fault),
        Err(_) => Ok(None),
    }
}

// The places of vertices among these, by their numbers in the given graph; `NONE` for the others. An `Err` is want of
// memory.
fn numbers_of(alloc: Global, work: &Work, vertices: &[u32]) -> Result<Vec<u32>, AllocError> {
    let mut numbers = vec![in alloc; NONE; work.vertices() as usize]?;
    let mut number = 0u32;
    for vertex in vertices {
        set(&mut numbers, *vertex, number);
        number = number.wrapping_add(1);
    }
    Ok(numbers)
}
