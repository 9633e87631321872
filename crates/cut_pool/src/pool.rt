//! The pool: cuts that the tree enters once, in groups by the arc of the tree that enters them.
//! Until it is handed out a cut is the list of the arcs off the tree that enter it.

use cut_groups::{NONE, at, count, set};
use std::alloc::{AllocError, Global};

/// Parts of a unit of weight.
pub const PARTS: i64 = 16;

/// A cut of the pool.
#[derive(Clone, Copy)]
pub struct Cut {
    /// Its weight in parts of a unit.
    pub weight: i64,
    /// Its group.
    pub group: u32,
    /// The next cut of its group, or `NONE`.
    pub next: u32,
    // How often the pool was tidied since it was the cheapest of its group.
    pub(crate) age: u32,
    // The arcs off the tree that enter it: the places of the first and behind the last.
    first: u32,
    end: u32,
    // A number made of these arcs: equal cuts have equal ones.
    print: u64,
}

/// Cuts in groups, by their numbers.
#[derive(Drop)]
pub struct Pool {
    cuts: Vec<Cut>,
    entered: Vec<u32>,
    // The first and the last cut of each group.
    firsts: Vec<u32>,
    lasts: Vec<u32>,
}

/// What became of a cut that was offered to the pool.
#[derive(Clone, Copy)]
pub enum Offered {
    /// It was there, with this number.
    Known(u32),
    /// It was taken in, with this number.
    Taken(u32),
}

impl Offered {
    /// The number of the cut.
    pub fn cut(self) -> u32 {
        match self {
            Offered::Known(cut) | Offered::Taken(cut) => cut,
        }
    }
}

// No cut.
const NO_CUT: Cut = Cut {
    weight: 0,
    group: NONE,
    next: NONE,
    age: 0,
    first: 0,
    end: 0,
    print: 0,
};

impl Pool {
    /// The empty pool. An `Err` is want of memory.
    pub fn empty(alloc: Global, groups: u32) -> Result<Pool, AllocError> {
        Ok(Pool {
            cuts: Vec::new(alloc),
            entered: Vec::new(alloc),
            firsts: vec![in alloc; NONE; groups as usize]?,
            lasts: vec![in alloc; NONE; groups as usize]?,
        })
    }

    /// How many cuts there are.
    pub fn len(&self) -> u32 {
        count(&self.cuts)
    }

    /// How many groups there are.
    pub fn groups(&self) -> u32 {
        count(&self.firsts)
    }

    /// A cut.
    #[inline]
    pub fn cut(&self, cut: u32) -> Cut {
        at(&self.cuts, cut, NO_CUT)
    }

    /// A cut, if it is there.
    #[inline]
    pub fn get(&self, cut: u32) -> Option<&Cut> {
        self.cuts.get(cut as usize)
    }

    /// The first cut of a group, or `NONE`.
    #[inline]
    pub fn first(&self, group: u32) -> u32 {
        at(&self.firsts, group, NONE)
    }

    /// The next cut of the same group, or `NONE`.
    #[inline]
    pub fn next(&self, cut: u32) -> u32 {
        match self.cuts.get(cut as usize) {
            Some(cut) => cut.next,
            None => NONE,
        }
    }

    /// The arcs off the tree that enter a cut.
    #[inline]
    pub fn entered(&self, cut: u32) -> &[u32] {
        match self.cuts.get(cut as usize) {
            Some(cut) => self.entered_by(cut),
            None => &[],
        }
    }

    // The arcs off the tree that enter a cut.
    #[inline]
    fn entered_by(&self, cut: &Cut) -> &[u32] {
        match self.entered.get(cut.first as usize..cut.end as usize) {
            Some(arcs) => arcs,
            None => &[],
        }
    }

    /// What a cut costs where arcs cost so much: the sum over the arcs off the tree that enter it; or, where that is no
    /// less than a limit, some number that isn't less either.
    #[inline]
    pub fn cost_below(&self, cut: &Cut, costs: &[u32], limit: i64) -> i64 {
        let (eights, rest) = self.entered_by(cut).as_chunks::<8>();
        let mut sum = 0i64;
        for eight in eights {
            if sum >= limit {
                return sum;
            }
            sum = sum.wrapping_add(sum_of(costs, eight));
        }
        sum.wrapping_add(sum_of(costs, rest))
    }

    /// The least cost of a group's cuts where arcs cost so much; `None` where it has none.
    pub fn least_cost(&self, group: u32, costs: &[u32]) -> Option<i64> {
        let mut least = None;
        let mut number = self.first(group);
        for _ in 0..self.len() {
            let Some(cut) = self.get(number) else {
                break;
            };
            let before = least.unwrap_or(i64::MAX);
            least = Some(before.min(self.cost_below(cut, costs, before)));
            number = cut.next;
        }
        least
    }

    /// The price of a cut: the sum of those of the arcs off the tree that enter it.
    pub fn price(&self, cut: u32, prices: &[i64]) -> i64 {
        let mut sum = 0i64;
        for arc in self.entered(cut) {
            sum = sum.saturating_add(at(prices, *arc, 0));
        }
        sum
    }

    /// Adds to the weight of a cut.
    #[inline]
    pub fn add_weight(&mut self, cut: u32, amount: i64) {
        if let Some(cut) = self.cuts.get_mut(cut as usize) {
            cut.weight = cut.weight.wrapping_add(amount);
        }
    }

    /// Notes that a cut is the cheapest of its group.
    pub fn refresh(&mut self, cut: u32) {
        if let Some(cut) = self.cuts.get_mut(cut as usize) {
            cut.age = 0;
        }
    }

    /// Offers a cut of a group by the arcs off the tree that enter it: it is taken in with weight 0 if it isn't
    /// there. An `Err` is want of memory.
    pub fn offer(&mut self, group: u32, arcs: &[u32]) -> Result<Offered, AllocError> {
        let print = print_of(arcs);
        if let Some(known) = self.find(group, print) {
            return Ok(Offered::Known(known));
        }
        let number = self.len();
        let mut cut = NO_CUT;
        cut.group = group;
        cut.print = print;
        self.append(cut, arcs)?;
        Ok(Offered::Taken(number))
    }

    // The cut of a group with a print, if it is there.
    fn find(&self, group: u32, print: u64) -> Option<u32> {
        let mut number = self.first(group);
        for _ in 0..self.len() {
            let cut = self.cuts.get(number as usize)?;
            if cut.print == print {
                return Some(number);
            }
            number = cut.next;
        }
        None
    }

    // Appends a cut with its arcs. An `Err` is want of memory.
    fn append(&mut self, cut: Cut, arcs: &[u32]) -> Result<(), AllocError> {
        let number = self.len();
        let last = at(&self.lasts, cut.group, NONE);
        let mut cut = cut;
        cut.next = NONE;
        cut.first = count(&self.entered);
        self.entered.extend_from_slice(arcs)?;
        cut.end = count(&self.entered);
        self.cuts.push(cut)?;
        set(&mut self.lasts, cut.group, number);
        match self.cuts.get_mut(last as usize) {
            Some(last) => last.next = number,
            None => set(&mut self.firsts, cut.group, number),
        }
        Ok(())
    }

    /// Drops all cuts.
    pub fn clear(&mut self) {
        self.cuts.clear();
        self.entered.clear();
        self.firsts.fill(NONE);
        self.lasts.fill(NONE);
    }

    /// Copies a cut of another pool, one round older. An `Err` is want of memory.
    pub fn copy(&mut self, other: &Pool, number: u32) -> Result<(), AllocError> {
        let mut cut = other.cut(number);
        cut.age = cut.age.wrapping_add(1);
        self.append(cut, other.entered(number))
    }
}

// The sum of what some arcs have in a row.
#[inline]
fn sum_of(row: &[u32], arcs: &[u32]) -> i64 {
    let mut sum = 0i64;
    for arc in arcs {
        sum = sum.wrapping_add(i64::from(at(row, *arc, 0)));
    }
    sum
}

// A number made of some arcs in any order: the sum of a mixed number of each.
fn print_of(arcs: &[u32]) -> u64 {
    let mut sum = 0u64;
    for arc in arcs {
        let mixed = u64::from(*arc)
            .wrapping_add(1)
            .wrapping_mul(0x9e37_79b9_7f4a_7c15);
        sum = sum.wrapping_add(mixed.wrapping_mul(mixed ^ mixed.wrapping_shr(29)));
    }
    sum
}
