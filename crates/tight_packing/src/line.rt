//! The line search: how much weight goes from one cut of a group to another.

use crate::loads::Loads;
use crate::marks::Marks;
use cut_groups::at;
use std::alloc::{AllocError, Global};

// Steps of the secant search: the amount need not be the best to the last part.
const STEPS: u8 = 6;

/// A move of weight from a cut to another of its group, by the arcs that enter just one of them.
#[derive(Drop)]
pub struct Line {
    // The arcs that enter the cut that loses weight, and not the other one.
    marks: Marks,
    // The overloads of the arcs whose loads fall.
    falling: Vec<i64>,
    // The loads above the thresholds, or below them, of the arcs whose loads rise.
    rising: Vec<i64>,
}

// Half the slope of the potential at some amount, and by how much it grows with a further part.
#[derive(Clone, Copy)]
struct Slope {
    height: i64,
    growth: i64,
}

// The amounts at which the slope is below 0 and not below.
#[derive(Clone, Copy)]
struct Bracket {
    low: i64,
    high: i64,
}

impl Line {
    /// No move. An `Err` is want of memory.
    pub fn new(alloc: Global, arcs: u32) -> Result<Line, AllocError> {
        Ok(Line {
            marks: Marks::none(alloc, arcs)?,
            falling: Vec::new(alloc),
            rising: Vec::new(alloc),
        })
    }

    /// Takes the arcs of a move of at most some weight, given by those that enter the cut that loses it and those that
    /// enter the other one. Arcs that stay below their thresholds count for nothing. An `Err` is want of memory.
    pub fn draw(
        &mut self,
        loads: &Loads,
        from: &[u32],
        to: &[u32],
        weight: i64,
    ) -> Result<(), AllocError> {
        self.marks.clear();
        for arc in from {
            self.marks.put(*arc);
        }
        self.gain(loads, to, weight)?;
        self.lose(loads, from)
    }

    // Takes the arcs of the cut that gains a weight, as far as they could come above their thresholds, and takes the
    // marks off those that enter both. An `Err` is want of memory.
    fn gain(&mut self, loads: &Loads, to: &[u32], weight: i64) -> Result<(), AllocError> {
        self.rising.clear();
        for arc in to {
            if self.marks.has(*arc) {
                self.marks.take(*arc);
            } else {
                let excess = loads.excess(*arc);
                if excess.wrapping_add(weight) > 0 {
                    self.rising.push(excess)?;
                }
            }
        }
        Ok(())
    }

    // Takes the marked arcs of those that enter the cut that loses a weight. An `Err` is want of memory.
    fn lose(&mut self, loads: &Loads, from: &[u32]) -> Result<(), AllocError> {
        self.falling.clear();
        for arc in from {
            let over = at(loads.overs(), *arc, 0);
            if over > 0 && self.marks.has(*arc) {
                self.falling.push(loads.excess(*arc))?;
            }
        }
        Ok(())
    }

    /// The amount, of at most a weight and in whole grains, that lowers the potential most, or nearly so; 0 where
    /// none does.
    pub fn best(&self, weight: i64, grain: i64) -> i64 {
        let most = weight.checked_div(grain).unwrap_or(0);
        let half = grain / 2;
        if most < 1 {
            return 0;
        }
        let slope = self.slope(half);
        if slope.height >= 0 {
            return 0;
        }
        let first = if half == 0 { slope } else { self.slope(0) };
        let lowest = self.lowest(most.wrapping_mul(grain), first);
        let amount = lowest.wrapping_add(half);
        let grains = amount.checked_div(grain).unwrap_or(0);
        grains.max(1).min(most).wrapping_mul(grain)
    }

    // The amount, of at most so much, at which the slope is 0, or nearly so, where that at 0 is given: secant steps
    // within a bracket.
    fn lowest(&self, most: i64, first: Slope) -> i64 {
        let mut bracket = Bracket { low: 0, high: most };
        let mut amount = 0i64;
        let mut slope = first;
        for _ in 0..STEPS {
            let next = bracket.next(amount, slope);
            if next == amount {
                break;
            }
            amount = next;
            slope = self.slope(amount);
            bracket.narrow(amount, slope);
            let is_near = slope.height <= 0 && slope.height.wrapping_add(slope.growth) > 0;
            if is_near || bracket.high.wrapping_sub(bracket.low) <= 1 {
                break;
            }
        }
        if slope.height > 0 {
            let up = slope.height.wrapping_add(slope.growth).wrapping_sub(1);
            let back = up.checked_div(slope.growth).unwrap_or(0);
            amount = amount.wrapping_sub(back).max(bracket.low);
        }
        amount
    }

    // The slope at an amount.
    fn slope(&self, amount: i64) -> Slope {
        let mut slope = Slope {
            height: 0,
            growth: 0,
        };
        for excess in &self.rising {
            slope.rise(excess.wrapping_add(amount));
        }
        for over in &self.falling {
            slope.fall(over.wrapping_sub(amount));
        }
        slope
    }
}

impl Slope {
    // Takes in an arc whose load rises, and is by so much above its threshold.
    #[inline]
    fn rise(&mut self, over: i64) {
        if over > 0 {
            self.height = self.height.wrapping_add(over);
            self.growth = self.growth.wrapping_add(1);
        }
    }

    // Takes in an arc whose load falls, and is by so much above its threshold.
    #[inline]
    fn fall(&mut self, over: i64) {
        if over > 0 {
            self.height = self.height.wrapping_sub(over);
            self.growth = self.growth.wrapping_add(1);
        }
    }
}

impl Bracket {
    // The amount to be tried after another one.
    fn next(self, amount: i64, slope: Slope) -> i64 {
        let Some(step) = slope.height.wrapping_neg().checked_div(slope.growth) else {
            return amount;
        };
        let next = amount.wrapping_add(step);
        if next <= self.low {
            let gap = self.high.wrapping_sub(self.low);
            return self.low.wrapping_add(gap / 2);
        }
        next.min(self.high)
    }

    // Takes an amount as an end.
    fn narrow(&mut self, amount: i64, slope: Slope) {
        if slope.height < 0 {
            self.low = amount;
        } else {
            self.high = amount;
        }
    }
}
