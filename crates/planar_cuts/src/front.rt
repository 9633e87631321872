//! One end of a search for a curve.

use crate::buckets::{Buckets, Way};
use crate::steps::{Step, Steps};
use cut_groups::{BLOCKED, NONE, Tree, at, set};
use std::alloc::{AllocError, Global};

/// What both ends of a search go by.
#[derive(Clone, Copy)]
pub struct Search<'a> {
    pub tree: &'a Tree,
    /// The prices of the arcs.
    pub prices: &'a [i64],
    /// The head of the group's arc, and the terminal of the cut.
    pub head: u32,
    pub terminal: u32,
    /// Its number; labels of other numbers are void.
    pub number: u32,
}

/// The cheapest curve so far.
#[derive(Clone, Copy)]
pub struct Meeting {
    /// Its price, or the limit where there is none.
    pub bound: i64,
    /// Where the ends met, `NONE` where they didn't.
    pub face: u32,
}

// The cheapest way to a face so far: its price, and the arc crossed last, `NONE` where it begins.
#[derive(Clone, Copy)]
struct Label {
    price: i64,
    search: u32,
    arc: u32,
}

const NO_LABEL: Label = Label {
    price: BLOCKED,
    search: 0,
    arc: NONE,
};

/// One end: ways from a face.
#[derive(Drop)]
pub struct Front {
    steps: Steps,
    labels: Vec<Label>,
    waiting: Buckets,
    /// How many steps were looked at.
    pub work: u64,
}

impl Front {
    /// An end that goes by some steps. An `Err` is want of memory.
    pub fn new(alloc: Global, steps: Steps) -> Result<Front, AllocError> {
        let faces = steps.faces() as usize;
        Ok(Front {
            steps,
            labels: vec![in alloc; NO_LABEL; faces]?,
            waiting: Buckets::new(alloc)?,
            work: 0,
        })
    }

    /// Begins at a face; prices are below the limit. An `Err` is want of memory.
    pub fn begin(&mut self, face: u32, search: u32, limit: i64) -> Result<(), AllocError> {
        self.work = 0;
        self.waiting.clear(limit);
        let start = Label {
            price: 0,
            search,
            arc: NONE,
        };
        set(&mut self.labels, face, start);
        self.waiting.push(0, face)
    }

    /// A price that no way still to be gone on with is below; `None` where there is none.
    #[inline]
    pub fn low(&mut self) -> Option<i64> {
        self.waiting.low()
    }

    // The price of the cheapest way to a face so far, `BLOCKED` where there is none.
    #[inline]
    fn price(&self, face: u32, search: u32) -> i64 {
        price_in(&self.labels, face, search)
    }

    /// Goes on with a cheap way; the other end's ways to be gone on with cost at least `beyond`. An `Err` is want of
    /// memory.
    pub fn go_on(
        &mut self,
        search: Search<'_>,
        other: &Front,
        beyond: i64,
        meeting: &mut Meeting,
    ) -> Result<(), AllocError> {
        let Some(way) = self.waiting.pop() else {
            return Ok(());
        };
        let is_best = way.price == self.price(way.face, search.number);
        if !is_best || way.price.wrapping_add(beyond) >= meeting.bound {
            return Ok(());
        }
        let steps = self.steps.out_of(way.face);
        self.work = self.work.wrapping_add(steps.len() as u64);
        for step in steps {
            let price = way.price.wrapping_add(at(search.prices, step.arc, BLOCKED));
            let known = price_in(&self.labels, step.face, search.number);
            if price >= meeting.bound || price >= known {
                continue;
            }
            let rest = other.price(step.face, search.number);
            let ends = price.wrapping_add(beyond) >= meeting.bound;
            if (rest == BLOCKED && ends) || !search.allows(step) {
                continue;
            }
            let label = Label {
                price,
                search: search.number,
                arc: step.arc,
            };
            set(&mut self.labels, step.face, label);
            meeting.offer(price.wrapping_add(rest), step.face);
            if price.wrapping_add(beyond) < meeting.bound {
                self.waiting.push(price, step.face)?;
            }
        }
        Ok(())
    }

    /// Appends the arcs crossed on the way to a face. An `Err` is want of memory.
    pub fn trace(&self, face: u32, search: u32, arcs: &mut Vec<u32>) -> Result<(), AllocError> {
        let mut face = face;
        for _ in 0..self.steps.faces() {
            let label = at(&self.labels, face, NO_LABEL);
            if label.search != search || label.arc == NONE {
                break;
            }
            arcs.push(label.arc)?;
            face = self.steps.source(label.arc);
        }
        Ok(())
    }
}

impl Search<'_> {
    // Whether a curve may take a step.
    #[inline]
    fn allows(self, step: &Step) -> bool {
        step.outside == NONE || self.tree.may_leave(step.outside, self.head, self.terminal)
    }
}

impl Meeting {
    /// No curve between two faces, except where they are one: an edge that is alone parts the grid.
    pub fn at_first(left: u32, right: u32, limit: i64) -> Meeting {
        if left == right {
            return Meeting {
                bound: 0,
                face: left,
            };
        }
        Meeting {
            bound: limit,
            face: NONE,
        }
    }

    // Takes a curve into account.
    #[inline]
    fn offer(&mut self, price: i64, face: u32) {
        if price < self.bound {
            self.bound = price;
            self.face = face;
        }
    }
}

// The price of the cheapest way to a face so far, `BLOCKED` where there is none.
#[inline]
fn price_in(labels: &[Label], face: u32, search: u32) -> i64 {
    match labels.get(face as usize) {
        Some(label) if label.search == search => label.price,
        _ => BLOCKED,
    }
}
