//! Levels of vertices: how many arcs with room lead from each to the inside of a cut.

use crate::query::Query;
use crate::steps::Steps;
use cut_groups::{NONE, at, count};
use std::alloc::{AllocError, Global};

/// The mark of a vertex that was reached.
#[derive(Clone, Copy)]
pub struct Mark {
    /// The number of the search that reached it last.
    search: u32,
    level: u32,
    /// The place of the arc into it by which a flow goes on.
    pub place: u32,
}

const NO_MARK: Mark = Mark {
    search: 0,
    level: NONE,
    place: NONE,
};

/// The levels of a search.
#[derive(Drop)]
pub struct Levels {
    marks: Vec<Mark>,
    // The number of the search.
    search: u32,
    /// The vertices that were reached and are not outside, in their order: first those inside.
    pub reached: Vec<u32>,
    // The level at which the outside was reached, or `NONE`.
    end: u32,
    /// How many arcs were looked at.
    pub looks: u64,
}

impl Levels {
    /// None, among so many vertices. An `Err` is want of memory.
    pub fn none(alloc: Global, vertices: u32) -> Result<Levels, AllocError> {
        Ok(Levels {
            marks: vec![in alloc; NO_MARK; vertices as usize]?,
            search: 0,
            reached: Vec::new(alloc),
            end: NONE,
            looks: 0,
        })
    }

    /// Searches from the inside against the arcs that have room; whether that reaches the outside. An `Err` is want of
    /// memory.
    pub fn search(
        &mut self,
        steps: &Steps,
        query: Query<'_>,
        flow: &[i64],
        inside: &[u32],
    ) -> Result<bool, AllocError> {
        self.begin(steps, inside)?;
        for rank in 0..steps.vertices() {
            let vertex = at(&self.reached, rank, NONE);
            if vertex == NONE || self.level(vertex) >= self.end {
                break;
            }
            self.go_on(steps, query, flow, vertex)?;
        }
        Ok(self.end != NONE)
    }

    // Begins with the inside. An `Err` is want of memory.
    fn begin(&mut self, steps: &Steps, inside: &[u32]) -> Result<(), AllocError> {
        self.search = self.search.wrapping_add(1);
        self.end = NONE;
        self.reached.clear();
        for vertex in inside {
            self.mark(steps, *vertex, 0);
            self.reached.push(*vertex)?;
        }
        Ok(())
    }

    // Goes on from a vertex that was reached. An `Err` is want of memory.
    fn go_on(
        &mut self,
        steps: &Steps,
        query: Query<'_>,
        flow: &[i64],
        vertex: u32,
    ) -> Result<(), AllocError> {
        let level = self.level(vertex).wrapping_add(1);
        let entering = steps.entering(vertex);
        self.looks = self.looks.wrapping_add(entering.len() as u64);
        for step in entering {
            if self.has(step.tail) || query.room(*step, flow) <= 0 {
                continue;
            }
            self.mark(steps, step.tail, level);
            if query.is_outside(step.tail) {
                self.end = level;
            } else {
                self.reached.push(step.tail)?;
            }
        }
        Ok(())
    }

    // Marks a vertex.
    #[inline]
    fn mark(&mut self, steps: &Steps, vertex: u32, level: u32) {
        if let Some(mark) = self.marks.get_mut(vertex as usize) {
            *mark = Mark {
                search: self.search,
                level,
                place: steps.first(vertex),
            };
        }
    }

    /// Whether a vertex was reached.
    #[inline]
    pub fn has(&self, vertex: u32) -> bool {
        at(&self.marks, vertex, NO_MARK).search == self.search
    }

    /// The mark of a vertex.
    #[inline]
    pub fn get(&self, vertex: u32) -> Mark {
        at(&self.marks, vertex, NO_MARK)
    }

    /// Sets the place by which a flow goes on from a vertex.
    #[inline]
    pub fn set_place(&mut self, vertex: u32, place: u32) {
        if let Some(mark) = self.marks.get_mut(vertex as usize) {
            mark.place = place;
        }
    }

    // The level of a vertex that was reached.
    #[inline]
    fn level(&self, vertex: u32) -> u32 {
        at(&self.marks, vertex, NO_MARK).level
    }

    /// Whether a vertex was reached from one with this mark.
    #[inline]
    pub fn follows(&self, vertex: u32, mark: Mark) -> bool {
        let next = self.get(vertex);
        next.search == self.search && next.level == mark.level.wrapping_add(1)
    }

    /// How many vertices were reached that are not outside.
    pub fn len(&self) -> u32 {
        count(&self.reached)
    }
}
