//! The best packing met, in whole units.

ghost use Rattle.std.specs.Prelude.{◌≡◌, length, All, IfOk};

use crate::flood::Flood;
use crate::pool::Pool;
use cut_groups::{NONE, Tree, at, count, set};
use net_graph::{Cut, NetGraph, Packing};
use std::alloc::{AllocError, Global};

// A cut that is kept, with its weight in units.
#[derive(Clone, Copy)]
struct KeptCut {
    weight: i64,
    group: u32,
    // The arcs off the tree that enter it: the places of the first and behind the last.
    first: u32,
    end: u32,
}

// No cut.
const NO_KEPT: KeptCut = KeptCut {
    weight: 0,
    group: NONE,
    first: 0,
    end: 0,
};

/// The best packing met.
#[derive(Drop)]
pub struct Kept {
    // Its overload in units.
    overload: i64,
    // Its cuts, each with some weight.
    cuts: Vec<KeptCut>,
    entered: Vec<u32>,
}

impl Kept {
    /// None yet. It takes no memory.
    pub fn none(alloc: Global) -> Kept {
        Kept {
            overload: i64::MAX,
            cuts: Vec::new(alloc),
            entered: Vec::new(alloc),
        }
    }

    /// Its overload in units; the greatest number before the first one.
    pub fn overload(&self) -> i64 {
        self.overload
    }

    /// Keeps weights of a pool's cuts, if their overload is less. An `Err` is want of memory.
    pub fn offer(&mut self, pool: &Pool, weights: &[i64], overload: i64) -> Result<(), AllocError> {
        if overload >= self.overload {
            return Ok(());
        }
        self.overload = overload;
        self.cuts.clear();
        self.entered.clear();
        for cut in 0..pool.len() {
            let weight = at(weights, cut, 0);
            if weight > 0 {
                let first = count(&self.entered);
                self.entered.extend_from_slice(pool.entered(cut))?;
                self.cuts.push(KeptCut {
                    weight,
                    group: pool.cut(cut).group,
                    first,
                    end: count(&self.entered),
                })?;
            }
        }
        Ok(())
    }

    /// Takes the overload off arcs of some lengths in units, from the heaviest cuts first; cuts without weight go. An
    /// `Err` is want of memory.
    pub fn relieve(&mut self, alloc: Global, lengths: &[i64]) -> Result<(), AllocError> {
        if self.overload == 0 {
            return Ok(());
        }
        self.cuts
            .sort_by_key(|cut| i64::MAX.wrapping_sub(cut.weight))?;
        let mut excess = self.excess(alloc, lengths)?;
        for cut in self.cuts.iter_mut() {
            let arcs = entered_of(&self.entered, *cut);
            let taken = most_of(&excess, arcs).max(0).min(cut.weight);
            cut.weight = cut.weight.wrapping_sub(taken);
            add_to_all(&mut excess, arcs, taken.wrapping_neg());
        }
        self.cuts.retain(|cut| cut.weight > 0);
        self.overload = 0;
        Ok(())
    }

    // Of each arc what it is loaded above its length, in units. An `Err` is want of memory.
    fn excess(&self, alloc: Global, lengths: &[i64]) -> Result<Vec<i64>, AllocError> {
        let mut excess = Vec::new(alloc);
        for length in lengths {
            excess.push(length.wrapping_neg())?;
        }
        for cut in &self.cuts {
            add_to_all(&mut excess, entered_of(&self.entered, *cut), cut.weight);
        }
        Ok(excess)
    }

    /// Gathers the weights of each group in fewer cuts: from the lightest on each cut gives its weight to a heavier one
    /// whose arcs, of some lengths in units, have room for all of it. An `Err` is want of memory.
    pub fn gather(&mut self, alloc: Global, lengths: &[i64]) -> Result<(), AllocError> {
        self.cuts
            .sort_by_key(|cut| (cut.group, i64::MAX.wrapping_sub(cut.weight)))?;
        let mut excess = self.excess(alloc, lengths)?;
        let cuts = count(&self.cuts);
        for behind in 0..cuts {
            let place = cuts.wrapping_sub(behind).wrapping_sub(1);
            self.give_away(place, &mut excess);
        }
        self.cuts.retain(|cut| cut.weight > 0);
        Ok(())
    }

    // Gives the weight of a cut to the heaviest cut of its group whose arcs have room for it, if one has.
    fn give_away(&mut self, place: u32, excess: &mut [i64]) {
        let cut = at(&self.cuts, place, NO_KEPT);
        let without = cut.weight.wrapping_neg();
        add_to_all(excess, entered_of(&self.entered, cut), without);
        let mut taker = place;
        for behind in 0..place {
            let heavier = place.wrapping_sub(behind).wrapping_sub(1);
            let other = at(&self.cuts, heavier, NO_KEPT);
            if other.group != cut.group {
                break;
            }
            if most_of(excess, entered_of(&self.entered, other)) <= without {
                taker = heavier;
            }
        }
        let mut taking = at(&self.cuts, taker, NO_KEPT);
        add_to_all(excess, entered_of(&self.entered, taking), cut.weight);
        if taker != place {
            taking.weight = taking.weight.wrapping_add(cut.weight);
            set(&mut self.cuts, taker, taking);
            set(&mut self.cuts, place, KeptCut { weight: 0, ..cut });
        }
    }

    /// Drops the cuts in whose place an arc stands.
    pub fn drop_slack(&mut self, slack: u32) {
        for cut in self.cuts.iter_mut() {
            if at(entered_of(&self.entered, *cut), 0, NONE) == slack {
                cut.weight = 0;
            }
        }
        self.cuts.retain(|cut| cut.weight > 0);
    }

    /// The cuts as sets of the vertices of a graph, along a tree of it, with their weights in a unit. An `Err` is want
    /// of memory.
    pub fn packing(
        &self,
        alloc: Global,
        graph: &NetGraph,
        tree: &Tree,
        unit: u64,
    ) -> Result<Packing, AllocError>
        ensures { IfOk result (All (λ c. length c.members ≡ graph.now.vertices)) }
    {
        let mut packing = Packing::empty(alloc);
        let mut flood = Flood::new(alloc, graph)?;
        for cut in &self.cuts {
            let arc = tree.arc(cut.group);
            let others = entered_of(&self.entered, *cut);
            packing.push(Cut {
                weight: cut.weight.unsigned_abs().wrapping_mul(unit),
                members: flood.filled(alloc, graph, arc, others)?,
            })?;
        }
        Ok(packing)
    }
}

// The arcs off the tree that enter a cut.
fn entered_of(entered: &Vec<u32>, cut: KeptCut) -> &[u32] {
    match entered.get(cut.first as usize..cut.end as usize) {
        Some(arcs) => arcs,
        None => &[],
    }
}

// Adds to the numbers of some arcs.
fn add_to_all(numbers: &mut [i64], arcs: &[u32], amount: i64) {
    for arc in arcs {
        let sum = at(numbers, *arc, 0).wrapping_add(amount);
        set(numbers, *arc, sum);
    }
}

// The greatest number of some arcs.
fn most_of(numbers: &[i64], arcs: &[u32]) -> i64 {
    let mut most = i64::MIN;
    for arc in arcs {
        most = most.max(at(numbers, *arc, i64::MIN));
    }
    most
}
