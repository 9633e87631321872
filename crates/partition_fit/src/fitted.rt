//! Items with what a chain takes of them.

use crate::chain::Chain;
use crate::item::Numbered;
use crate::sets::{lowest, place, single, without_lowest};

/// An item with its load under a chain, the edges whose weights that sums, and the edges on the ways between its parts.
#[derive(Clone, Copy)]
pub struct Fitted {
    pub item: Numbered,
    pub load: u64,
    pub used: u64,
    pub crossed: u64,
}

impl Fitted {
    /// An item under a chain, whose edges have these sides.
    pub fn of(item: Numbered, chain: &Chain, sides: &[u64; 64]) -> Fitted {
        let load = chain.load(item.touched);
        Fitted {
            item,
            load: load.sum,
            used: load.used,
            crossed: crossed(item.touched, chain.count, sides),
        }
    }

    /// Weighs it anew.
    pub fn weigh(&mut self, chain: &Chain) {
        let load = chain.load(self.item.touched);
        self.load = load.sum;
        self.used = load.used;
    }

    /// What its load is above its length.
    pub fn overload(&self) -> u64 {
        self.load.saturating_sub(self.item.length)
    }
}

/// Weighs those items anew whose loads hang on one of some edges.
pub fn weigh_crossing(items: &mut [Fitted], edges: u64, chain: &Chain) {
    for fitted in items.iter_mut() {
        if fitted.crossed & edges != 0 {
            fitted.weigh(chain);
        }
    }
}

/// The edges that a tree of these parts crosses: those with parts of it on both sides.
pub fn crossed(touched: u64, count: u8, sides: &[u64; 64]) -> u64 {
    let mut crossed = 0;
    for edge in 0..count {
        let side = sides[place(edge)];
        if touched & side != 0 && touched & !side != 0 {
            crossed |= single(edge);
        }
    }
    crossed
}

/// The pull of each edge: the sum of the overloads of the items whose loads use it.
pub fn pulls(items: &[Fitted]) -> [u64; 64] {
    let mut pulls = [0; 64];
    for fitted in items {
        let overload = fitted.overload();
        if overload > 0 {
            add_pull(&mut pulls, fitted.used, overload);
        }
    }
    pulls
}

// Adds an overload to the pulls of some edges.
fn add_pull(pulls: &mut [u64; 64], edges: u64, overload: u64) {
    let mut rest = edges;
    for _ in 0..64 {
        if rest == 0 {
            break;
        }
        let edge = place(lowest(rest));
        pulls[edge] = pulls[edge].saturating_add(overload);
        rest = without_lowest(rest);
    }
}
