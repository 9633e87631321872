//! Networks grown along shortest paths from several starts.

ghost use Rattle.std.specs.Prelude.{◌≡◌, length, IfOk};

use crate::access::{at, put};
use crate::cleaning::Cleaner;
use crate::instance::{Instance, terminal_marks};
use crate::path_search::PathSearch;
use crate::subgraph::Subgraph;
use net_graph::{EdgeSet, NetGraph};
use std::alloc::{AllocError, Global};
use std::mem::swap;

/// A network that grows from a start by a shortest path to the nearest terminal outside, until all are in (Takahashi
/// and Matsuyama 1980), and then is a least spanning tree of its vertices without dead ends: the shortest one of at
/// most so many starts, half of them terminals. That this is a network is not promised. The same arguments give the
/// same edges. An `Err` is want of memory.
pub fn propose_network(alloc: Global, g: &NetGraph, starts: u32) -> Result<EdgeSet, AllocError>
    ensures { IfOk result (λ found. length found ≡ length g.now.edges) }
{
    let terminals = terminal_marks(alloc, g)?;
    let instance = Instance::new(g, &terminals);
    let mut grower = Grower::new(alloc, instance)?;
    let half = starts / 2;
    grower.grow_from(instance, g.terminals(), starts - half)?;
    grower.grow_from(instance, &all_vertices(alloc, instance)?, half)?;
    grower.shortest.edge_set(alloc, g)
}

// What growing works with; it keeps its memory from start to start.
#[derive(Drop)]
struct Grower {
    search: PathSearch,
    cleaner: Cleaner,
    // Whether a network was grown from each vertex.
    tried: Vec<bool>,
    // All edges between two vertices of the network at hand.
    between: Subgraph,
    found: Subgraph,
    // The shortest network so far, once there is one.
    shortest: Subgraph,
    has_shortest: bool,
}

impl Grower {
    // The work space for a graph. An `Err` is want of memory.
    fn new(alloc: Global, g: Instance) -> Result<Grower, AllocError> {
        Ok(Grower {
            search: PathSearch::new(alloc, g)?,
            cleaner: Cleaner::new(alloc, g)?,
            tried: vec![in alloc; false; g.vertex_count() as usize]?,
            between: Subgraph::empty(alloc, g)?,
            found: Subgraph::empty(alloc, g)?,
            shortest: Subgraph::empty(alloc, g)?,
            has_shortest: false,
        })
    }

    // Grows a network from each of so many vertices, spread over these ones. An `Err` is want of memory.
    fn grow_from(&mut self, g: Instance, vertices: &[u32], count: u32) -> Result<(), AllocError> {
        let step = vertices
            .len()
            .checked_div(count as usize)
            .unwrap_or(1)
            .max(1);
        for k in 0..count {
            let place = step.saturating_mul(k as usize);
            if place < vertices.len() {
                self.grow(g, vertices[place])?;
            }
        }
        Ok(())
    }

    // Grows a network from a vertex, unless that was done before, and keeps it where it is the shortest so far. An
    // `Err` is want of memory.
    fn grow(&mut self, g: Instance, start: u32) -> Result<(), AllocError> {
        if at(&self.tried, start, true) {
            return Ok(());
        }
        put(&mut self.tried, start, true);
        if self.search.join_all(g, start)? {
            self.take_between(g);
            self.cleaner.clean(g, &self.between, &mut self.found)?;
            self.keep_shorter();
        }
        Ok(())
    }

    // Takes all edges between two vertices that were joined.
    fn take_between(&mut self, g: Instance) {
        self.between.clear();
        for number in 0..g.edge_count() {
            if let Some(edge) = g.edge(number) {
                if self.search.is_joined(edge.a) && self.search.is_joined(edge.b) {
                    self.between.add(g, number);
                }
            }
        }
    }

    // Keeps the network that was found, where it is the shortest so far.
    fn keep_shorter(&mut self) {
        if !self.has_shortest || self.found.length() < self.shortest.length() {
            swap(&mut self.shortest, &mut self.found);
            self.has_shortest = true;
        }
    }
}

// All vertices of a graph. An `Err` is want of memory.
fn all_vertices(alloc: Global, g: Instance) -> Result<Vec<u32>, AllocError> {
    let mut vertices = Vec::with_capacity(alloc, g.vertex_count() as usize)?;
    for vertex in 0..g.vertex_count() {
        vertices.push(vertex)?;
    }
    Ok(vertices)
}
