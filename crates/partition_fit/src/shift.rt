//! Shifts of weight from an edge to another, or to the spare, by halving on the slope of the sum of squared overloads.

use crate::fit::Fit;
use crate::fitted::weigh_crossing;
use crate::item::Item;
use crate::sets::single;
use std::alloc::AllocError;

/// A line of weights: from the edge that gives to the edge that takes, or to the spare, with their weights at first.
#[derive(Clone, Copy)]
pub struct Line {
    giver: u8,
    taker: Option<u8>,
    giver_weight: u64,
    taker_weight: u64,
    // Both edges, or the one that gives and none.
    gives: u64,
    takes: u64,
}

impl Line {
    /// The line from an edge to another, or to the spare.
    pub fn of(fit: &Fit, giver: u8, taker: Option<u8>) -> Line {
        let (taker_weight, takes) = match taker {
            Some(edge) => (fit.chain.weight(edge), single(edge)),
            None => (0, 0),
        };
        Line {
            giver,
            taker,
            giver_weight: fit.chain.weight(giver),
            taker_weight,
            gives: single(giver),
            takes,
        }
    }

    /// Shifts up to `most` units, where that lowers the sum of squared overloads; tells whether it did. An `Err` is
    /// want of memory.
    pub fn shift(&self, fit: &mut Fit, most: u64) -> Result<bool, AllocError> {
        self.gather(fit)?;
        let before = potential(fit);
        let amount = self.best_amount(fit, most);
        self.set(fit, amount);
        if amount == 0 {
            return Ok(false);
        }
        if potential(fit) >= before {
            self.set(fit, 0);
            return Ok(false);
        }
        weigh_crossing(&mut fit.items, self.gives | self.takes, &fit.chain);
        if self.taker.is_none() {
            fit.spare = fit.spare.saturating_sub(amount);
        }
        Ok(true)
    }

    // Gathers the items whose loads may change. An `Err` is want of memory.
    fn gather(&self, fit: &mut Fit) -> Result<(), AllocError> {
        fit.line.clear();
        for fitted in &fit.items {
            if fitted.crossed & (self.gives | self.takes) != 0 {
                fit.line.push(Item {
                    touched: fitted.item.touched,
                    length: fitted.item.length,
                })?;
            }
        }
        Ok(())
    }

    // Shifts an amount, from the weights at first.
    fn set(&self, fit: &mut Fit, amount: u64) {
        fit.chain
            .set_weight(self.giver, self.giver_weight.saturating_sub(amount));
        if let Some(taker) = self.taker {
            fit.chain
                .set_weight(taker, self.taker_weight.saturating_add(amount));
        }
        fit.chain.merge();
    }

    // By halving, an amount up to the most where the slope turns from at most 0 to above 0 (the most, if it doesn't); 0
    // if it is above 0 at once. The slope may turn more than once.
    fn best_amount(&self, fit: &mut Fit, most: u64) -> u64 {
        if self.rises(fit, 1) {
            return 0;
        }
        if !self.rises(fit, most) {
            return most;
        }
        let mut low = 1u64;
        let mut high = most;
        for _ in 0..64 {
            let half = high.saturating_sub(low) / 2;
            if half == 0 {
                break;
            }
            let middle = low.saturating_add(half);
            if self.rises(fit, middle) {
                high = middle;
            } else {
                low = middle;
            }
        }
        low
    }

    // Whether the sum of squared overloads rises at an amount.
    fn rises(&self, fit: &mut Fit, amount: u64) -> bool {
        self.set(fit, amount);
        let mut up = 0u64;
        let mut down = 0u64;
        for item in &fit.line {
            let load = fit.chain.load(item.touched);
            let overload = load.sum.saturating_sub(item.length);
            if load.used & self.takes != 0 {
                up = up.saturating_add(overload);
            }
            if load.used & self.gives != 0 {
                down = down.saturating_add(overload);
            }
        }
        up > down
    }
}

// The sum of the squared overloads of the line's items.
fn potential(fit: &Fit) -> u128 {
    let mut sum = 0u128;
    for item in &fit.line {
        let overload = u128::from(fit.chain.load(item.touched).sum.saturating_sub(item.length));
        sum = sum.saturating_add(overload.saturating_mul(overload));
    }
    sum
}
