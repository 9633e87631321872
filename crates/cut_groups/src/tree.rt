//! The tree of a cleaned network, directed away from the root.

use crate::cells::{NONE, add_at, at, count, set};
use crate::ends::ends_of;
use crate::walk::{Walk, walked};
use net_graph::{EdgeSet, NetGraph};
use std::alloc::{AllocError, Global};

// The numbers of the vertices at or below one, when those below each follow one another: from
// `enter` to below `leave`. A vertex off the tree has none.
#[derive(Clone, Copy)]
struct Span {
    enter: u32,
    leave: u32,
}

// Some places of a list that follow one another.
#[derive(Clone, Copy)]
struct Places {
    first: u32,
    count: u32,
}

/// A tree. Each of its arcs has a group: the cuts that the tree enters once, there.
#[derive(Drop)]
pub struct Tree {
    // The arc of each group.
    arc_of: Vec<u32>,
    // The heads of these arcs.
    head_of: Vec<u32>,
    // The group of each arc, `NONE` off the tree.
    group_of: Vec<u32>,
    spans: Vec<Span>,
    // The least terminals of the groups, one group after the other; where those of each group are.
    least: Vec<u32>,
    places: Vec<Places>,
}

const NO_SPAN: Span = Span { enter: 1, leave: 0 };

const NO_PLACES: Places = Places { first: 0, count: 0 };

impl Tree {
    /// The tree of a network: an edge of each cycle goes, and what joins no terminal. `None` where it doesn't join the
    /// terminals. An `Err` is want of memory.
    pub fn of(
        alloc: Global,
        graph: &NetGraph,
        network: &EdgeSet,
    ) -> Result<Option<Tree>, AllocError> {
        let Some(walk) = walked(alloc, graph, network)? else {
            return Ok(None);
        };
        let vertices = graph.vertex_count() as usize;
        let mut tree = Tree {
            arc_of: Vec::new(alloc),
            head_of: Vec::new(alloc),
            group_of: vec![in alloc; NONE; graph.edges().len().saturating_mul(2)]?,
            spans: vec![in alloc; NO_SPAN; vertices]?,
            least: Vec::new(alloc),
            places: Vec::new(alloc),
        };
        let mut numbers = sizes_of(alloc, graph, &walk)?;
        for vertex in &walk.order {
            if at(&walk.held, *vertex, 0) > 0 {
                tree.number(graph, &walk, *vertex, &mut numbers)?;
            }
        }
        tree.place_least(alloc, graph, &walk)?;
        Ok(Some(tree))
    }

    /// How many groups there are.
    #[inline]
    pub fn groups(&self) -> u32 {
        count(&self.arc_of)
    }

    /// The arc of a group.
    #[inline]
    pub fn arc(&self, group: u32) -> u32 {
        at(&self.arc_of, group, NONE)
    }

    /// The head of a group's arc.
    #[inline]
    pub fn head(&self, group: u32) -> u32 {
        at(&self.head_of, group, NONE)
    }

    /// The group of an arc, `NONE` off the tree.
    #[inline]
    pub fn group(&self, arc: u32) -> u32 {
        at(&self.group_of, arc, NONE)
    }

    /// How many least terminals a group has: terminals at or below its arc's head with no other terminal on the way
    /// from there. Each cut of the group has one of them.
    pub fn terminal_count(&self, group: u32) -> u32 {
        at(&self.places, group, NO_PLACES).count
    }

    /// A least terminal of a group.
    pub fn terminal(&self, group: u32, place: u32) -> u32 {
        let places = at(&self.places, group, NO_PLACES);
        at(&self.least, places.first.wrapping_add(place), NONE)
    }

    /// Whether the tree may leave a cut, that it enters at `head` and that has `terminal`, towards
    /// a vertex: it must be strictly below the head, and not on the way from there to the terminal.
    #[inline]
    pub fn may_leave(&self, outside: u32, head: u32, terminal: u32) -> bool {
        let outer = at(&self.spans, outside, NO_SPAN);
        let upper = at(&self.spans, head, NO_SPAN);
        let lower = at(&self.spans, terminal, NO_SPAN);
        upper.enter < outer.enter
            && outer.enter < upper.leave
            && !(outer.enter <= lower.enter && lower.enter < outer.leave)
    }

    /// Whether the tree has a vertex, neither at another one nor below it.
    #[inline]
    pub fn is_beside(&self, vertex: u32, head: u32) -> bool {
        let span = at(&self.spans, vertex, NO_SPAN);
        let upper = at(&self.spans, head, NO_SPAN);
        let is_below = upper.enter <= span.enter && span.enter < upper.leave;
        span.enter < span.leave && !is_below
    }

    // Numbers a vertex, and makes the group of the arc into it; `numbers` has its size, then the next number of one
    // below it. An `Err` is want of memory.
    fn number(
        &mut self,
        graph: &NetGraph,
        walk: &Walk,
        vertex: u32,
        numbers: &mut [u32],
    ) -> Result<(), AllocError> {
        let into = at(&walk.into, vertex, NONE);
        let size = at(numbers, vertex, 0);
        let mut enter = 0;
        if into != NONE {
            let tail = ends_of(graph, into).tail;
            enter = at(numbers, tail, 0);
            add_at(numbers, tail, size);
            set(&mut self.group_of, into, count(&self.arc_of));
            self.arc_of.push(into)?;
            self.head_of.push(vertex)?;
        }
        let leave = enter.wrapping_add(size);
        set(&mut self.spans, vertex, Span { enter, leave });
        set(numbers, vertex, enter.wrapping_add(1));
        Ok(())
    }

    // Finds the least terminals of all groups. An `Err` is want of memory.
    fn place_least(
        &mut self,
        alloc: Global,
        graph: &NetGraph,
        walk: &Walk,
    ) -> Result<(), AllocError> {
        let mut pairs = Vec::new(alloc);
        for terminal in graph.terminals() {
            self.climb(graph, walk, *terminal, &mut pairs)?;
        }
        pairs.sort()?;
        pairs.dedup();
        for _ in 0..self.groups() {
            self.places.push(NO_PLACES)?;
        }
        for (group, terminal) in &pairs {
            let mut places = at(&self.places, *group, NO_PLACES);
            if places.count == 0 {
                places.first = count(&self.least);
            }
            places.count = places.count.wrapping_add(1);
            set(&mut self.places, *group, places);
            self.least.push(*terminal)?;
        }
        Ok(())
    }

    // Appends a terminal with each group of which it is a least terminal. An `Err` is want of memory.
    fn climb(
        &self,
        graph: &NetGraph,
        walk: &Walk,
        terminal: u32,
        pairs: &mut Vec<(u32, u32)>,
    ) -> Result<(), AllocError> {
        let mut vertex = terminal;
        for _ in 0..graph.vertex_count() {
            let into = at(&walk.into, vertex, NONE);
            if into == NONE {
                break;
            }
            pairs.push((self.group(into), terminal))?;
            vertex = ends_of(graph, into).tail;
            if at(&walk.own, vertex, true) {
                break;
            }
        }
        Ok(())
    }
}

// How many kept vertices are at or below each. An `Err` is want of memory.
fn sizes_of(alloc: Global, graph: &NetGraph, walk: &Walk) -> Result<Vec<u32>, AllocError> {
    let mut sizes = vec![in alloc; 0; graph.vertex_count() as usize]?;
    for vertex in walk.order.iter().rev() {
        if at(&walk.held, *vertex, 0) > 0 {
            add_at(&mut sizes, *vertex, 1);
            let size = at(&sizes, *vertex, 0);
            let into = at(&walk.into, *vertex, NONE);
            if into != NONE {
                add_at(&mut sizes, ends_of(graph, into).tail, size);
            }
        }
    }
    Ok(sizes)
}
