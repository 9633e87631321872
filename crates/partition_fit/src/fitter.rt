//! Proposals of partitions, and of a concatenation, for parts and items.

ghost use Rattle.std.specs.Prelude.{◌<◌, ◌≤◌, length, IfOk, IfSome};
ghost use Rattle.partition_fit.specs.Proposal.{IsInRange};

use crate::chain::Chain;
use crate::concatenation::length_of;
use crate::fit::Fit;
use crate::fitted::Fitted;
use crate::growth::{Growing, grow};
use crate::improve::Improver;
use crate::item::{Item, Numbered};
use crate::joining::Joining;
use crate::proposal::{Proposal, levels_of, numbers_of};
use crate::repair::repair;
use crate::rest::Rest;
use crate::sets::is_several;
use crate::sweep::sweep;
use std::alloc::{AllocError, Global};

// The units of a length.
const UNITS: u64 = 12;

// How many units the fit aims above the wanted bound, as room for the repair.
const RESERVE: u64 = 6;

// How many rounds the fit has at most, how many sweeps each has, and after how many without gain it stops.
const ROUNDS: u8 = 6;

const SWEEPS: u8 = 3;

const IDLE_ROUNDS: u8 = 2;

// How often items that were left out are taken in, in a round.
const WAKES: u8 = 10;

/// What proposing works with; it keeps its memory from call to call.
#[derive(Drop)]
pub struct Fitter {
    alloc: Global,
    items: Vec<Numbered>,
    growing: Vec<Growing>,
    merged: Vec<Numbered>,
    grown: Chain,
    chosen: Vec<Numbered>,
    improver: Improver,
    fit: Fit,
    rest: Rest,
    tried: Vec<Fitted>,
}

impl Fitter {
    /// The work space. It takes no memory before it proposes.
    pub fn new(alloc: Global) -> Fitter {
        Fitter {
            alloc,
            items: Vec::new(alloc),
            growing: Vec::new(alloc),
            merged: Vec::new(alloc),
            grown: Chain::empty(),
            chosen: Vec::new(alloc),
            improver: Improver::new(alloc),
            fit: Fit::new(alloc),
            rest: Rest::new(alloc),
            tried: Vec::new(alloc),
        }
    }

    /// Proposes a chain of partitions and a concatenation; `None` where the items don't join the parts. The same
    /// arguments give the same proposal, whatever was proposed before. An `Err` is want of memory.
    ///
    /// `guide` has numbers of items that may make a good concatenation. `best` is the length in units that one must
    /// stay below to be of use, a multiple of 12, or `u64::MAX` if there is none; the proposed one lowers it. The chain
    /// is made to bound more than that less 12, so that no whole length is left between, and overloads no item.
    pub fn propose(
        &mut self,
        parts: u8,
        items: &[Item],
        guide: &[u32],
        best: u64,
    ) -> Result<Option<Proposal>, AllocError>
        requires some { 0 < parts }
        ensures { IfOk result (λ found. IfSome found (IsInRange parts (length items.now))) }
    {
        self.take(items)?;
        if !grow(
            parts,
            &self.items,
            &mut self.growing,
            &mut self.grown,
            &mut self.merged,
        )? {
            return Ok(None);
        }
        self.choose(parts, items, guide)?;
        let (chain, split) = self.search(parts, best)?;
        Ok(Some(Proposal {
            levels: levels_of(self.alloc, parts, &chain)?,
            chosen: numbers_of(self.alloc, &self.chosen, items.len())?,
            split: number_below(split, items.len()),
        }))
    }

    // Takes the items, of those that touch the same parts the shortest, by number. An `Err` is want of memory.
    fn take(&mut self, items: &[Item]) -> Result<(), AllocError> {
        self.items.clear();
        let mut number = 0u32;
        for item in items {
            if is_several(item.touched) {
                self.items.push(Numbered {
                    touched: item.touched,
                    length: item.length,
                    number,
                })?;
            }
            number = number.wrapping_add(1);
        }
        self.items.sort_by_key(|item| (item.touched, item.length))?;
        self.items.dedup_by_key(|item| item.touched);
        self.items.sort_by_key(|item| item.number)?;
        Ok(())
    }

    // Chooses the items of the guide, or those that touch the same parts, and those of the growth that join more. An
    // `Err` is want of memory.
    fn choose(&mut self, parts: u8, items: &[Item], guide: &[u32]) -> Result<(), AllocError> {
        let mut joining = Joining::apart(parts);
        self.chosen.clear();
        for number in guide {
            if let Some(item) = shortest_like(items.get(*number as usize), &self.items) {
                joining.join(item.touched);
                self.chosen.push(item)?;
            }
        }
        for item in &self.merged {
            if joining.join(item.touched) {
                self.chosen.push(*item)?;
            }
        }
        Ok(())
    }

    // Improves the chosen items, and fits a chain along them where the one of the growth doesn't bound enough: the
    // chain, and the number of an item to split on. An `Err` is want of memory.
    fn search(&mut self, parts: u8, best: u64) -> Result<(Chain, Option<u32>), AllocError> {
        if self.grown.bound() >= wanted(best) {
            return Ok((self.grown, None));
        }
        self.improver.improve(parts, &self.items, &mut self.chosen)?;
        let wanted = wanted(best.min(length_of(&self.chosen)));
        if self.grown.bound() >= wanted {
            return Ok((self.grown, None));
        }
        let chain = self.fit(parts, wanted)?;
        let split = self
            .fit
            .most_overloaded(&self.chosen)
            .or(longest(&self.chosen));
        Ok((chain, split))
    }

    // The best chain of a fit along the chosen items, that overloads no item. An `Err` is want of memory.
    fn fit(&mut self, parts: u8, wanted: u64) -> Result<Chain, AllocError> {
        self.begin(parts, wanted)?;
        let mut best = Chain::empty();
        let mut idle = 0u8;
        for _ in 0..ROUNDS {
            let chain = self.round()?;
            if chain.bound() > best.bound() {
                best = chain;
                idle = 0;
            } else {
                idle = idle.wrapping_add(1);
            }
            if best.bound() >= wanted || idle >= IDLE_ROUNDS {
                break;
            }
        }
        Ok(if best.bound() > self.grown.bound() {
            best
        } else {
            self.grown
        })
    }

    // Begins a fit along the chosen items. An `Err` is want of memory.
    fn begin(&mut self, parts: u8, wanted: u64) -> Result<(), AllocError> {
        self.fit.begin(
            parts,
            &self.chosen,
            &self.grown,
            wanted.saturating_add(RESERVE),
        );
        let gap = wanted.saturating_sub(self.grown.bound());
        self.rest
            .begin(&self.items, &self.chosen, &self.grown, gap, &mut self.fit)
    }

    // A round of the fit: the chain that it gives, repaired; the empty one if that doesn't come to an end. An `Err` is
    // want of memory.
    fn round(&mut self) -> Result<Chain, AllocError> {
        for _ in 0..SWEEPS {
            self.fit.redraw();
            sweep(&mut self.fit)?;
        }
        let mut chain = self.fit.chain;
        self.tried.clear();
        self.tried.extend_from_slice(&self.fit.items)?;
        for _ in 0..WAKES {
            if !repair(&mut chain, &mut self.tried) {
                break;
            }
            if !self.rest.wake(&chain, &mut self.fit, &mut self.tried)? {
                return Ok(chain);
            }
        }
        Ok(Chain::empty())
    }
}

// The least bound that leaves no multiple of 12 below a length.
fn wanted(best: u64) -> u64 {
    best.saturating_sub(UNITS - 1)
}

// The item that touches the same parts as another.
fn shortest_like(like: Option<&Item>, items: &[Numbered]) -> Option<Numbered> {
    let touched = like?.touched;
    for item in items {
        if item.touched == touched {
            return Some(*item);
        }
    }
    None
}

// The number of the longest item.
fn longest(items: &[Numbered]) -> Option<u32> {
    let mut length = 0;
    let mut number = None;
    for item in items {
        if item.length > length || number.is_none() {
            length = item.length;
            number = Some(item.number);
        }
    }
    number
}

// A number, if it is below a count.
fn number_below(number: Option<u32>, count: usize) -> Option<u32>
    ensures { IfSome result (λ number. number < count) }
{
    match number {
        Some(number) if (number as usize) < count => Some(number),
        _ => None,
    }
}
