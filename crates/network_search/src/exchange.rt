//! Key-path exchange: a key path of a tree gives way to a shorter path between the two parts that
//! it joins.

use crate::access::{at, put};
use crate::instance::Instance;
use crate::key_path::KeyPath;
use crate::shortest_paths::ShortestPaths;
use crate::subgraph::Subgraph;
use std::alloc::{AllocError, Global};
use std::mem::swap;

// How often all key paths are tried at most while that gains.
const REPEATS: u32 = 100;

/// What exchange works with; it keeps its memory from call to call.
#[derive(Drop)]
pub struct Exchanger {
    path: KeyPath,
    // Whether each edge was in a key path that was tried.
    tried: Vec<bool>,
    one: Vec<u32>,
    other: Vec<u32>,
    // Whether each vertex is in the part that is searched for.
    goals: Vec<bool>,
    paths: ShortestPaths,
}

impl Exchanger {
    /// The work space for a graph. An `Err` is want of memory.
    pub fn new(alloc: Global, g: Instance) -> Result<Exchanger, AllocError> {
        Ok(Exchanger {
            path: KeyPath::new(alloc),
            tried: vec![in alloc; false; g.edge_count() as usize]?,
            one: Vec::with_capacity(alloc, g.vertex_count() as usize)?,
            other: Vec::with_capacity(alloc, g.vertex_count() as usize)?,
            goals: vec![in alloc; false; g.vertex_count() as usize]?,
            paths: ShortestPaths::new(alloc, g)?,
        })
    }

    /// Exchanges key paths of a tree until nothing is gained (Duin and Voss 1997, Uchoa and Werneck
    /// 2012). An `Err` is want of memory.
    pub fn exchange_all(&mut self, g: Instance, tree: &mut Subgraph) -> Result<(), AllocError> {
        for _ in 0..REPEATS {
            let length = tree.length();
            self.exchange_each(g, tree)?;
            if tree.length() >= length {
                break;
            }
        }
        Ok(())
    }

    // Exchanges each key path of a tree in turn, where a shorter path joins the two parts. An `Err`
    // is want of memory.
    fn exchange_each(&mut self, g: Instance, tree: &mut Subgraph) -> Result<(), AllocError> {
        self.tried.fill(false);
        for edge in 0..g.edge_count() {
            if tree.has(edge) && !at(&self.tried, edge, true) {
                self.path.find(g, tree, edge)?;
                self.exchange(g, tree)?;
            }
        }
        Ok(())
    }

    // Takes the path at hand out of a tree, and puts a shortest path between the two parts in. An
    // `Err` is want of memory.
    fn exchange(&mut self, g: Instance, tree: &mut Subgraph) -> Result<(), AllocError> {
        for edge in &self.path.edges {
            tree.remove(g, *edge);
            put(&mut self.tried, *edge, true);
        }
        self.part(g, tree)?;
        let nearest = self
            .paths
            .search(g, &self.one, &self.goals, self.path.length)?;
        match nearest {
            Some(vertex) => self.paths.add_path(g, vertex, tree),
            None => self.path.put_into(g, tree),
        }
        Ok(())
    }

    // Finds the two parts that are left of a tree, and marks the one with more vertices. An `Err`
    // is want of memory.
    fn part(&mut self, g: Instance, tree: &Subgraph) -> Result<(), AllocError> {
        self.goals.fill(false);
        find_part(g, tree, self.path.start, &mut self.goals, &mut self.one)?;
        find_part(g, tree, self.path.end, &mut self.goals, &mut self.other)?;
        if self.one.len() > self.other.len() {
            swap(&mut self.one, &mut self.other);
        }
        self.goals.fill(false);
        for vertex in &self.other {
            put(&mut self.goals, *vertex, true);
        }
        Ok(())
    }
}

// Finds the vertices that a tree joins to one of them, which it marks. An `Err` is want of memory.
fn find_part(
    g: Instance,
    tree: &Subgraph,
    start: u32,
    marks: &mut [bool],
    part: &mut Vec<u32>,
) -> Result<(), AllocError> {
    part.clear();
    part.push(start)?;
    put(marks, start, true);
    for place in 0..g.vertex_count() {
        if place as usize >= part.len() {
            break;
        }
        add_neighbours(g, tree, at(part, place, start), marks, part)?;
    }
    Ok(())
}

// Appends the neighbours of a vertex in a tree that aren't marked, and marks them. An `Err` is want
// of memory.
fn add_neighbours(
    g: Instance,
    tree: &Subgraph,
    vertex: u32,
    marks: &mut [bool],
    part: &mut Vec<u32>,
) -> Result<(), AllocError> {
    for arc in g.arcs_from(vertex) {
        if tree.has(arc.number / 2) && !at(marks, arc.to, true) {
            put(marks, arc.to, true);
            part.push(arc.to)?;
        }
    }
    Ok(())
}
