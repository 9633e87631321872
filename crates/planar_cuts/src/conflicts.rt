//! Which edges that lead back can't lie on one side of the tree (the left-right test of de Fraysseix and Rosenstiehl
//! 1982, as Brandes 2009 writes it). Edges are known by their numbers.

use crate::nesting::Nesting;
use cut_groups::{NONE, at, count, set};
use std::alloc::{AllocError, Global};

// Edges that lead back on one side: the one that leads back lowest, and the one that does highest, from which the
// others follow by references.
#[derive(Clone, Copy)]
struct Interval {
    low: u32,
    high: u32,
}

const EMPTY: Interval = Interval {
    low: NONE,
    high: NONE,
};

// Two intervals on different sides.
#[derive(Clone, Copy)]
struct Pair {
    left: Interval,
    right: Interval,
}

const NO_PAIR: Pair = Pair {
    left: EMPTY,
    right: EMPTY,
};

/// The conflicts of the edges that lead back from below where a tour is.
#[derive(Drop)]
pub struct Conflicts {
    pairs: Vec<Pair>,
    // Of each edge the least height to which edges lead back at it or below it.
    lows: Vec<u32>,
    // Of each edge the one whose side tells its own, or `NONE`; and whether it lies on the other side than that one, or
    // on the left where there is none.
    references: Vec<u32>,
    turned: Vec<bool>,
    // Of each edge the one at it or below it that leads back lowest.
    lowest: Vec<u32>,
    // Of each edge how many pairs there were when the tour took it.
    bottoms: Vec<u32>,
}

impl Conflicts {
    /// No conflict. An `Err` is want of memory.
    pub fn none(alloc: Global, nesting: &Nesting) -> Result<Conflicts, AllocError> {
        let edges = nesting.lows.len();
        Ok(Conflicts {
            pairs: Vec::new(alloc),
            lows: nesting.lows.clone()?,
            references: vec![in alloc; NONE; edges]?,
            turned: vec![in alloc; false; edges]?,
            lowest: vec![in alloc; NONE; edges]?,
            bottoms: vec![in alloc; 0; edges]?,
        })
    }

    /// The tour takes an edge. An `Err` is want of memory.
    pub fn take(&mut self, edge: u32, leads_back: bool) -> Result<(), AllocError> {
        set(&mut self.bottoms, edge, count(&self.pairs));
        if leads_back {
            set(&mut self.lowest, edge, edge);
            let right = Interval {
                low: edge,
                high: edge,
            };
            self.pairs.push(Pair { left: EMPTY, right })?;
        }
        Ok(())
    }

    /// The tour comes back from an edge of the tree, whose upper end has a height: edges that lead back to this end are
    /// done with.
    pub fn come_back(&mut self, edge: u32, height: u32) {
        self.drop_pairs(height);
        let pair = self.trimmed(self.top(), height);
        let last = count(&self.pairs).wrapping_sub(1);
        set(&mut self.pairs, last, pair);
        if self.low(edge) < height {
            let Pair { left, right } = pair;
            let is_left = left.high != NONE
                && (right.high == NONE || self.low(left.high) > self.low(right.high));
            let reference = if is_left { left.high } else { right.high };
            self.refer(edge, reference);
        }
    }

    /// An edge that the tour came back from joins those before it at its upper end, which has a height; `into` is the
    /// edge down to it. Tells whether there are sides for all of them. An `Err` is want of memory.
    pub fn join(
        &mut self,
        edge: u32,
        into: u32,
        height: u32,
        is_first: bool,
    ) -> Result<bool, AllocError> {
        if self.low(edge) >= height {
            return Ok(true);
        }
        if is_first {
            let lowest = at(&self.lowest, edge, NONE);
            set(&mut self.lowest, into, lowest);
            return Ok(true);
        }
        let mut merged = NO_PAIR;
        if !self.merge_own(edge, into, &mut merged) || !self.merge_earlier(edge, &mut merged) {
            return Ok(false);
        }
        if !merged.left.is_empty() || !merged.right.is_empty() {
            self.pairs.push(merged)?;
        }
        Ok(true)
    }

    /// Of each edge whether it lies on the left. An `Err` is want of memory.
    pub fn into_sides(self, alloc: Global) -> Result<Vec<bool>, AllocError> {
        let mut conflicts = self;
        let mut chain = Vec::new(alloc);
        for edge in 0..count(&conflicts.lows) {
            conflicts.resolve(edge, &mut chain)?;
        }
        Ok(conflicts.turned)
    }

    // Makes of the pairs of an edge one interval on the right; whether that can be. What leads back as low as the edge
    // into its upper end lies where the lowest does.
    fn merge_own(&mut self, edge: u32, into: u32, merged: &mut Pair) -> bool {
        let bottom = at(&self.bottoms, edge, 0);
        for _ in bottom..count(&self.pairs) {
            let pair = self.top().with_left_empty();
            self.pairs.pop();
            if !pair.left.is_empty() {
                return false;
            }
            if self.low(pair.right.low) > self.low(into) {
                merged.right = self.joined(merged.right, pair.right);
            } else {
                let reference = at(&self.lowest, into, NONE);
                self.refer(pair.right.low, reference);
            }
        }
        true
    }

    // Puts what leads back higher than an edge, of the edges before it at its upper end, on the left, and what is on
    // the other side of it on the right; whether that can be.
    fn merge_earlier(&mut self, edge: u32, merged: &mut Pair) -> bool {
        for _ in 0..count(&self.pairs) {
            let pair = self.top();
            if !self.conflicts(pair.left, edge) && !self.conflicts(pair.right, edge) {
                break;
            }
            self.pairs.pop();
            let pair = if self.conflicts(pair.right, edge) {
                pair.turned()
            } else {
                pair
            };
            if self.conflicts(pair.right, edge) {
                return false;
            }
            self.refer(merged.right.low, pair.right.high);
            if pair.right.low != NONE {
                merged.right.low = pair.right.low;
            }
            merged.left = self.joined(merged.left, pair.left);
        }
        true
    }

    // Drops the pairs on top of which nothing leads back to less than a height.
    fn drop_pairs(&mut self, height: u32) {
        for _ in 0..count(&self.pairs) {
            let Pair { left, right } = self.top();
            if self.low(left.low).min(self.low(right.low)) != height {
                break;
            }
            self.pairs.pop();
            set(&mut self.turned, left.low, true);
        }
    }

    // A pair without the edges that lead back to a height.
    fn trimmed(&mut self, pair: Pair, height: u32) -> Pair {
        let left = self.trimmed_interval(pair.left, pair.right, height);
        let right = self.trimmed_interval(pair.right, left, height);
        Pair { left, right }
    }

    // An interval without the edges that lead back to a height; where none is left, they lie across from the other one.
    fn trimmed_interval(&mut self, interval: Interval, other: Interval, height: u32) -> Interval {
        let mut high = interval.high;
        for _ in 0..count(&self.lows) {
            if high == NONE || self.low(high) != height {
                break;
            }
            high = at(&self.references, high, NONE);
        }
        if high == NONE {
            self.refer(interval.low, other.low);
            set(&mut self.turned, interval.low, true);
            return EMPTY;
        }
        Interval { high, ..interval }
    }

    // Two intervals as one, of which the second leads back lower.
    fn joined(&mut self, upper: Interval, lower: Interval) -> Interval {
        if upper.is_empty() {
            return lower;
        }
        self.refer(upper.low, lower.high);
        Interval {
            low: lower.low,
            high: upper.high,
        }
    }

    // Whether an interval has an edge that leads back higher than an edge does.
    fn conflicts(&self, interval: Interval, edge: u32) -> bool {
        interval.high != NONE && self.low(interval.high) > self.low(edge)
    }

    // The height to which an edge leads back, or what is below it.
    #[inline]
    fn low(&self, edge: u32) -> u32 {
        at(&self.lows, edge, NONE)
    }

    // The last pair.
    fn top(&self) -> Pair {
        at(&self.pairs, count(&self.pairs).wrapping_sub(1), NO_PAIR)
    }

    // Tells the side of an edge by that of another one.
    fn refer(&mut self, edge: u32, reference: u32) {
        set(&mut self.references, edge, reference);
    }

    // Makes what is told of an edge by others its side, and so for these; `chain` is room. An `Err` is want of memory.
    fn resolve(&mut self, edge: u32, chain: &mut Vec<u32>) -> Result<(), AllocError> {
        chain.clear();
        let mut edge = edge;
        for _ in 0..count(&self.lows) {
            chain.push(edge)?;
            let reference = at(&self.references, edge, NONE);
            if reference == NONE {
                break;
            }
            self.refer(edge, NONE);
            edge = reference;
        }
        let mut is_left = false;
        for edge in chain.iter().rev() {
            is_left = at(&self.turned, *edge, false) != is_left;
            set(&mut self.turned, *edge, is_left);
        }
        Ok(())
    }
}

impl Interval {
    fn is_empty(self) -> bool {
        self.low == NONE && self.high == NONE
    }
}

impl Pair {
    // The sides in place of each other.
    fn turned(self) -> Pair {
        Pair {
            left: self.right,
            right: self.left,
        }
    }

    // With the left side empty, if one is.
    fn with_left_empty(self) -> Pair {
        if self.left.is_empty() {
            self
        } else {
            self.turned()
        }
    }
}
