//! A maximum flow from the outside of a cut to its inside (Dinic 1970).

use crate::levels::Levels;
use crate::query::Query;
use crate::steps::{Step, Steps};
use cut_groups::{at, set};
use std::alloc::{AllocError, Global};

/// A flow, which grows along ways by levels.
#[derive(Drop)]
pub struct Flow {
    pub levels: Levels,
    // Of each arc what flows along it, less what flows back.
    amounts: Vec<i64>,
    // The arcs whose amounts are not 0, and others.
    changed: Vec<u32>,
    // The places of the arcs on the way that is tried, from the inside.
    way: Vec<u32>,
    // How many arcs were looked at.
    looks: u64,
}

impl Flow {
    /// No flow, in a graph of such arcs. An `Err` is want of memory.
    pub fn none(alloc: Global, steps: &Steps, arcs: usize) -> Result<Flow, AllocError> {
        Ok(Flow {
            levels: Levels::none(alloc, steps.vertices())?,
            amounts: vec![in alloc; 0; arcs]?,
            changed: Vec::new(alloc),
            way: Vec::new(alloc),
            looks: 0,
        })
    }

    /// Makes a greatest flow, and tells how much it is; `None` where it comes to the limit. The levels are then of what
    /// has no way from the outside. An `Err` is want of memory.
    pub fn fill(
        &mut self,
        steps: &Steps,
        query: Query<'_>,
        inside: &[u32],
        limit: i64,
    ) -> Result<Option<i64>, AllocError> {
        self.clear();
        let mut total = 0i64;
        for _ in 0..u32::MAX {
            if total >= limit {
                return Ok(None);
            }
            if !self.levels.search(steps, query, &self.amounts, inside)? {
                break;
            }
            let more = self.push(steps, query, inside, limit.wrapping_sub(total))?;
            total = total.wrapping_add(more);
        }
        Ok(Some(total))
    }

    // Takes all flow off.
    fn clear(&mut self) {
        for arc in &self.changed {
            set(&mut self.amounts, *arc, 0);
            set(&mut self.amounts, *arc ^ 1, 0);
        }
        self.changed.clear();
    }

    // Pushes flow along ways by levels until there is no such way, or it comes to the limit; tells how much. An `Err`
    // is want of memory.
    fn push(
        &mut self,
        steps: &Steps,
        query: Query<'_>,
        inside: &[u32],
        limit: i64,
    ) -> Result<i64, AllocError> {
        let mut total = 0i64;
        for vertex in inside {
            let left = limit.wrapping_sub(total);
            let more = self.push_to(steps, query, *vertex, left)?;
            total = total.wrapping_add(more);
            if total >= limit {
                break;
            }
        }
        Ok(total)
    }

    // Does so for ways that end at an inner vertex.
    fn push_to(
        &mut self,
        steps: &Steps,
        query: Query<'_>,
        end: u32,
        limit: i64,
    ) -> Result<i64, AllocError> {
        let mut total = 0i64;
        let mut vertex = end;
        self.way.clear();
        for _ in 0..u32::MAX {
            if let Some(step) = self.next(steps, query, vertex) {
                vertex = step.tail;
                self.way.push(self.levels.get(step.head).place)?;
                if query.is_outside(vertex) {
                    let left = limit.wrapping_sub(total);
                    total = total.wrapping_add(self.carry(steps, query, left)?);
                    vertex = end;
                    self.way.clear();
                }
            } else if let Some(place) = self.way.pop() {
                vertex = steps.step(place).head;
                self.levels.set_place(vertex, place.wrapping_add(1));
            } else {
                break;
            }
            if total >= limit {
                break;
            }
        }
        Ok(total)
    }

    // The arc by which a way goes on from a vertex, if there is one; the vertex keeps its place.
    fn next(&mut self, steps: &Steps, query: Query<'_>, vertex: u32) -> Option<Step> {
        let mark = self.levels.get(vertex);
        let end = steps.first(vertex.wrapping_add(1));
        for place in mark.place..end {
            let step = steps.step(place);
            self.looks = self.looks.wrapping_add(1);
            if self.levels.follows(step.tail, mark) && query.room(step, &self.amounts) > 0 {
                self.levels.set_place(vertex, place);
                return Some(step);
            }
        }
        self.levels.set_place(vertex, end);
        None
    }

    // Pushes what the way can carry, and no more than the limit. An `Err` is want of memory.
    fn carry(&mut self, steps: &Steps, query: Query<'_>, limit: i64) -> Result<i64, AllocError> {
        let amount = self.least_room(steps, query).min(limit);
        for place in &self.way {
            let arc = steps.step(*place).arc;
            let flow = at(&self.amounts, arc, 0).wrapping_add(amount);
            set(&mut self.amounts, arc, flow);
            set(&mut self.amounts, arc ^ 1, flow.wrapping_neg());
            self.changed.push(arc)?;
        }
        Ok(amount)
    }

    // What the way can carry.
    fn least_room(&self, steps: &Steps, query: Query<'_>) -> i64 {
        let mut least = i64::MAX;
        for place in &self.way {
            least = least.min(query.room(steps.step(*place), &self.amounts));
        }
        least
    }

    /// How many arcs were looked at so far.
    pub fn looks(&self) -> u64 {
        self.looks.wrapping_add(self.levels.looks)
    }

    /// What flows along the arcs, less what flows back.
    pub fn amounts(&self) -> &[i64] {
        &self.amounts
    }
}
