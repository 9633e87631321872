//! A graph that becomes smaller, step by step.

use crate::steps::{Between, Leaf, Parallel, Role, Side, Step};
use cut_groups::{NONE, at, count, set};
use net_graph::{Edge, NetGraph, partner};
use std::alloc::{AllocError, Global};

// An arc, with those before and after it among the arcs that lead from the same vertex, or `NONE`. Edge n has the arcs
// 2n, to its end b, and 2n + 1, to its end a.
#[derive(Clone, Copy)]
struct Link {
    to: u32,
    next: u32,
    previous: u32,
}

const NO_LINK: Link = Link {
    to: NONE,
    next: NONE,
    previous: NONE,
};

// A vertex: its role, `None` once it is gone, how many arcs lead from it, and the first of them, or `NONE`.
#[derive(Clone, Copy)]
struct Spot {
    role: Option<Role>,
    degree: u32,
    first: u32,
}

const NO_SPOT: Spot = Spot {
    role: None,
    degree: 0,
    first: NONE,
};

/// The graph as it is after some steps.
#[derive(Drop)]
pub struct Work {
    /// The steps, in their order.
    pub steps: Vec<Step>,
    /// The sum of the lengths of the edges that went with terminals of degree 1.
    pub taken: u64,
    /// The root.
    pub root: u32,
    spots: Vec<Spot>,
    links: Vec<Link>,
    // Of each edge its length, and whether it is there.
    lengths: Vec<u64>,
    open: Vec<bool>,
    // How many terminals there are.
    terminals: u32,
    // The vertices to look at.
    due: Vec<u32>,
}

impl Work {
    /// A graph, of which the longer ones of parallel edges are gone. An `Err` is want of memory.
    pub fn of(alloc: Global, graph: &NetGraph) -> Result<Work, AllocError> {
        let mut work = Work {
            steps: Vec::new(alloc),
            taken: 0,
            root: graph.root(),
            spots: Vec::new(alloc),
            links: Vec::new(alloc),
            lengths: Vec::new(alloc),
            open: Vec::new(alloc),
            terminals: 0,
            due: Vec::new(alloc),
        };
        for vertex in 0..graph.vertex_count() {
            let role = Some(Role::Plain);
            work.spots.push(Spot { role, ..NO_SPOT })?;
            work.due.push(vertex)?;
        }
        work.give(graph.root(), Role::Root);
        for terminal in graph.terminals() {
            work.give(*terminal, Role::Terminal);
        }
        for edge in graph.edges() {
            work.add_edge(edge.a, edge.b, edge.length)?;
        }
        Ok(work)
    }

    /// Does steps until none is left. An `Err` is want of memory.
    pub fn shrink(&mut self) -> Result<(), AllocError> {
        // Each vertex is due once, and at most two more with each vertex that goes.
        let most = self.vertices().saturating_mul(3);
        for _ in 0..most {
            let Some(vertex) = self.due.pop() else {
                break;
            };
            self.look_at(vertex)?;
        }
        Ok(())
    }

    /// How many vertices the given graph has.
    pub fn vertices(&self) -> u32 {
        count(&self.spots)
    }

    /// Whether a vertex of the given graph is left.
    pub fn has(&self, vertex: u32) -> bool {
        at(&self.spots, vertex, NO_SPOT).role.is_some()
    }

    /// Whether a vertex is left and a terminal, and not the root.
    pub fn has_terminal(&self, vertex: u32) -> bool {
        at(&self.spots, vertex, NO_SPOT).role == Some(Role::Terminal)
    }

    /// How many edges there were in all, also those that went.
    pub fn edges(&self) -> u32 {
        count(&self.lengths)
    }

    /// Whether an edge is left.
    pub fn has_edge(&self, edge: u32) -> bool {
        at(&self.open, edge, false)
    }

    /// An edge, also one that went.
    pub fn edge(&self, edge: u32) -> Edge {
        let arc = edge.wrapping_mul(2);
        Edge {
            a: self.side(arc.wrapping_add(1)).neighbour,
            b: self.side(arc).neighbour,
            length: at(&self.lengths, edge, 0),
        }
    }

    // An arc's head, and its edge with the length.
    fn side(&self, arc: u32) -> Side {
        let edge = arc / 2;
        Side {
            neighbour: at(&self.links, arc, NO_LINK).to,
            edge,
            length: at(&self.lengths, edge, 0),
        }
    }

    // Gives a vertex a role; the root keeps its own.
    fn give(&mut self, vertex: u32, role: Role) {
        let spot = at(&self.spots, vertex, NO_SPOT);
        if spot.role == Some(Role::Plain) {
            self.terminals = self.terminals.wrapping_add(1);
        }
        if spot.role != Some(Role::Root) {
            let role = Some(role);
            set(&mut self.spots, vertex, Spot { role, ..spot });
        }
    }

    // Does the step that a vertex allows, if there is one. An `Err` is want of memory.
    fn look_at(&mut self, vertex: u32) -> Result<(), AllocError> {
        let spot = at(&self.spots, vertex, NO_SPOT);
        let is_alone = self.terminals < 2;
        match spot.role {
            Some(Role::Plain) if spot.degree == 0 => self.remove(vertex),
            Some(Role::Plain) if spot.degree == 2 => self.take_between(vertex, spot.first)?,
            Some(role) if spot.degree == 1 && (role == Role::Plain || !is_alone) => {
                self.take_leaf(vertex, spot.first, role)?;
            }
            _ => {}
        }
        Ok(())
    }

    // Takes a vertex of degree 1 away. An `Err` is want of memory.
    fn take_leaf(&mut self, vertex: u32, arc: u32, role: Role) -> Result<(), AllocError> {
        let side = self.side(arc);
        self.close(side.edge);
        self.remove(vertex);
        if role != Role::Plain {
            self.terminals = self.terminals.wrapping_sub(1);
            self.taken = self.taken.saturating_add(side.length);
            self.give(side.neighbour, role);
        }
        if role == Role::Root {
            self.root = side.neighbour;
        }
        self.steps.push(Step::Leaf(Leaf { vertex, side, role }))?;
        self.due.push(side.neighbour)?;
        Ok(())
    }

    // Makes the two edges of a vertex one. An `Err` is want of memory.
    fn take_between(&mut self, vertex: u32, arc: u32) -> Result<(), AllocError> {
        let near = self.side(arc);
        let far = self.side(at(&self.links, arc, NO_LINK).next);
        self.close(near.edge);
        self.close(far.edge);
        self.remove(vertex);
        let between = Between {
            vertex,
            near,
            far,
            edge: self.edges(),
        };
        self.steps.push(Step::Between(between))?;
        let length = near.length.saturating_add(far.length);
        self.add_edge(near.neighbour, far.neighbour, length)?;
        self.due.push(near.neighbour)?;
        self.due.push(far.neighbour)?;
        Ok(())
    }

    // Takes a vertex away.
    fn remove(&mut self, vertex: u32) {
        set(&mut self.spots, vertex, NO_SPOT);
    }

    // Adds an edge, and takes it or one between the same vertices away if there is one. An `Err` is want of memory.
    fn add_edge(&mut self, tail: u32, head: u32, length: u64) -> Result<(), AllocError> {
        let edge = self.edges();
        let other = self.edge_between(tail, head);
        self.lengths.push(length)?;
        self.open.push(tail != head)?;
        self.add_link(tail, head)?;
        self.add_link(head, tail)?;
        if other != NONE {
            let is_longer = at(&self.lengths, other, 0) > length;
            let (kept, gone) = if is_longer {
                (edge, other)
            } else {
                (other, edge)
            };
            self.close(gone);
            self.steps.push(Step::Parallel(Parallel { kept, gone }))?;
        }
        Ok(())
    }

    // The edge between two vertices, or `NONE`. It is looked for from the one of less degree.
    fn edge_between(&self, one: u32, other: u32) -> u32 {
        let mut spot = at(&self.spots, one, NO_SPOT);
        let mut sought = other;
        let other_spot = at(&self.spots, other, NO_SPOT);
        if other_spot.degree < spot.degree {
            spot = other_spot;
            sought = one;
        }
        let mut arc = spot.first;
        for _ in 0..spot.degree {
            let link = at(&self.links, arc, NO_LINK);
            if link.to == sought {
                return arc / 2;
            }
            arc = link.next;
        }
        NONE
    }

    // Adds the next arc; one from a vertex to itself is in no list. An `Err` is want of memory.
    fn add_link(&mut self, tail: u32, head: u32) -> Result<(), AllocError> {
        let arc = count(&self.links);
        let spot = at(&self.spots, tail, NO_SPOT);
        let link = Link {
            to: head,
            next: spot.first,
            previous: NONE,
        };
        self.links.push(link)?;
        if tail != head {
            self.set_previous(spot.first, arc);
            let spot = Spot {
                role: spot.role,
                degree: spot.degree.wrapping_add(1),
                first: arc,
            };
            set(&mut self.spots, tail, spot);
        }
        Ok(())
    }

    // Takes an edge away.
    fn close(&mut self, edge: u32) {
        set(&mut self.open, edge, false);
        let arc = edge.wrapping_mul(2);
        self.unlink(arc);
        self.unlink(arc.wrapping_add(1));
    }

    // Takes an arc from the list that it is in.
    fn unlink(&mut self, arc: u32) {
        let link = at(&self.links, arc, NO_LINK);
        let tail = at(&self.links, partner(arc), NO_LINK).to;
        let mut spot = at(&self.spots, tail, NO_SPOT);
        spot.degree = spot.degree.wrapping_sub(1);
        if link.previous == NONE {
            spot.first = link.next;
        } else {
            let before = at(&self.links, link.previous, NO_LINK);
            let next = link.next;
            set(&mut self.links, link.previous, Link { next, ..before });
        }
        set(&mut self.spots, tail, spot);
        self.set_previous(link.next, link.previous);
    }

    // Notes the arc before another one.
    fn set_previous(&mut self, arc: u32, previous: u32) {
        let link = at(&self.links, arc, NO_LINK);
        set(&mut self.links, arc, Link { previous, ..link });
    }
}
