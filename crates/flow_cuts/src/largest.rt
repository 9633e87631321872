//! The largest of the cheapest cuts: what the outside does not reach along arcs that have room beside a greatest flow.

use crate::query::Query;
use crate::steps::Steps;
use cut_groups::{NONE, at, set};
use std::alloc::{AllocError, Global};

/// Work space.
#[derive(Drop)]
pub struct Largest {
    // The search that reached each vertex last: odd ones go from the outside, even ones from the inside.
    marks: Vec<u64>,
    search: u64,
    reached: Vec<u32>,
    /// How many arcs were looked at.
    pub looks: u64,
}

impl Largest {
    /// The work space for so many vertices. An `Err` is want of memory.
    pub fn none(alloc: Global, vertices: u32) -> Result<Largest, AllocError> {
        Ok(Largest {
            marks: vec![in alloc; 0; vertices as usize]?,
            search: 0,
            reached: Vec::new(alloc),
            looks: 0,
        })
    }

    /// Lists the arcs off the tree that enter the largest cheapest cut, as far as it hangs together. An `Err` is want
    /// of memory.
    pub fn list(
        &mut self,
        steps: &Steps,
        query: Query<'_>,
        flow: &[i64],
        entered: &mut Vec<u32>,
    ) -> Result<(), AllocError> {
        self.begin_outside(steps, query)?;
        self.spread(steps, query, flow)?;
        self.begin();
        self.reach(query.head)?;
        self.gather(steps, entered)
    }

    // Begins a search.
    fn begin(&mut self) {
        self.search = self.search.wrapping_add(1);
        self.reached.clear();
    }

    // Reaches a vertex. An `Err` is want of memory.
    #[inline]
    fn reach(&mut self, vertex: u32) -> Result<(), AllocError> {
        set(&mut self.marks, vertex, self.search);
        self.reached.push(vertex)?;
        Ok(())
    }

    // Whether a vertex was reached by this search.
    #[inline]
    fn has(&self, vertex: u32) -> bool {
        at(&self.marks, vertex, 0) == self.search
    }

    // Begins with the outside. An `Err` is want of memory.
    fn begin_outside(&mut self, steps: &Steps, query: Query<'_>) -> Result<(), AllocError> {
        self.begin();
        for vertex in 0..steps.vertices() {
            if query.is_outside(vertex) {
                self.reach(vertex)?;
            }
        }
        Ok(())
    }

    // Goes on along arcs with room. An `Err` is want of memory.
    fn spread(&mut self, steps: &Steps, query: Query<'_>, flow: &[i64]) -> Result<(), AllocError> {
        for rank in 0..steps.vertices() {
            let vertex = at(&self.reached, rank, NONE);
            if vertex == NONE {
                break;
            }
            self.spread_from(steps, query, flow, vertex)?;
        }
        Ok(())
    }

    // Goes on along those that leave a vertex. An `Err` is want of memory.
    fn spread_from(
        &mut self,
        steps: &Steps,
        query: Query<'_>,
        flow: &[i64],
        vertex: u32,
    ) -> Result<(), AllocError> {
        let entering = steps.entering(vertex);
        self.looks = self.looks.wrapping_add(entering.len() as u64);
        for step in entering {
            if !self.has(step.tail) && query.room_back(*step, flow) > 0 {
                self.reach(step.tail)?;
            }
        }
        Ok(())
    }

    // Goes on to all that the outside did not reach, and lists the arcs in between. An `Err` is want of memory.
    fn gather(&mut self, steps: &Steps, entered: &mut Vec<u32>) -> Result<(), AllocError> {
        for rank in 0..steps.vertices() {
            let vertex = at(&self.reached, rank, NONE);
            if vertex == NONE {
                break;
            }
            self.gather_at(steps, vertex, entered)?;
        }
        Ok(())
    }

    // Does so at a vertex. An `Err` is want of memory.
    fn gather_at(
        &mut self,
        steps: &Steps,
        vertex: u32,
        entered: &mut Vec<u32>,
    ) -> Result<(), AllocError> {
        let entering = steps.entering(vertex);
        self.looks = self.looks.wrapping_add(entering.len() as u64);
        for step in entering {
            if at(&self.marks, step.tail, 0) == self.search.wrapping_sub(1) {
                if !step.on_tree {
                    entered.push(step.arc)?;
                }
            } else if !self.has(step.tail) {
                self.reach(step.tail)?;
            }
        }
        Ok(())
    }
}
