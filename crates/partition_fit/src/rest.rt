//! Items that a fit leaves out until a chain overloads them.

use crate::chain::Chain;
use crate::fit::{Fit, is_among};
use crate::fitted::Fitted;
use crate::item::Numbered;
use crate::sides::sides;
use std::alloc::{AllocError, Global};

// An item, and whether the fit has it.
#[derive(Clone, Copy)]
struct Sleeper {
    item: Numbered,
    is_awake: bool,
}

/// The items that a fit may have.
#[derive(Drop)]
pub struct Rest {
    sleepers: Vec<Sleeper>,
}

impl Rest {
    /// No item. It takes no memory.
    pub fn new(alloc: Global) -> Rest {
        Rest {
            sleepers: Vec::new(alloc),
        }
    }

    /// Gives a fit the chosen items and those of less room than the gap under a chain that overloads none; the others
    /// are left out. An `Err` is want of memory.
    pub fn begin(
        &mut self,
        items: &[Numbered],
        chosen: &[Numbered],
        chain: &Chain,
        gap: u64,
        fit: &mut Fit,
    ) -> Result<(), AllocError> {
        self.sleepers.clear();
        let sides = sides(&fit.chain);
        for item in items {
            let room = item.length.saturating_sub(chain.load(item.touched).sum);
            let is_awake = room < gap || is_among(item.number, chosen);
            if is_awake {
                fit.add(*item, &sides)?;
            }
            self.sleepers.push(Sleeper {
                item: *item,
                is_awake,
            })?;
        }
        Ok(())
    }

    /// Gives a fit, and items under a chain with the same edges, those that this overloads of the items that it left
    /// out; tells whether there is one. An `Err` is want of memory.
    pub fn wake(
        &mut self,
        chain: &Chain,
        fit: &mut Fit,
        tried: &mut Vec<Fitted>,
    ) -> Result<bool, AllocError> {
        let sides = sides(&fit.chain);
        let mut woke = false;
        for sleeper in self.sleepers.iter_mut() {
            let item = sleeper.item;
            if !sleeper.is_awake && chain.load(item.touched).sum > item.length {
                sleeper.is_awake = true;
                woke = true;
                fit.add(item, &sides)?;
                tried.push(Fitted::of(item, chain, &sides))?;
            }
        }
        Ok(woke)
    }
}
