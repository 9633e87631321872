//! Groups of edges along a concatenation: the edges between the parts of one item, whose weights sum to its length.

use crate::chain::{Chain, Edge};
use crate::item::Numbered;
use crate::joining::Joining;
use crate::sets::{lowest, place, single, without_lowest};

/// The group of an item: the parts that it touches, and the edges.
#[derive(Clone, Copy)]
pub struct Group {
    pub touched: u64,
    pub edges: u64,
}

/// The groups of a concatenation, and the one of each edge.
#[derive(Clone, Copy)]
pub struct Groups {
    groups: [Group; 64],
    /// How many there are.
    pub count: u8,
    of_edge: [u8; 64],
}

const NO_GROUP: Group = Group {
    touched: 0,
    edges: 0,
};

impl Groups {
    /// No group.
    pub fn empty() -> Groups {
        Groups {
            groups: [NO_GROUP; 64],
            count: 0,
            of_edge: [0; 64],
        }
    }

    /// The group of a number.
    pub fn group(&self, number: u8) -> Group {
        self.groups[place(number)]
    }

    /// The group of an edge.
    pub fn group_of(&self, edge: u8) -> Group {
        self.groups[place(self.of_edge[place(edge)])]
    }

    /// Adds the group of an item: least spanning edges by the weights at which a growth merged their ends, as far as
    /// they join blocks that no group before has joined.
    pub fn add(&mut self, item: Numbered, grown: &Chain, chain: &mut Chain, joining: &mut Joining) {
        let mut edges = 0;
        let mut sum = 0u64;
        for _ in 0..63 {
            let Some(pair) = lowest_pair(item.touched, grown, joining) else {
                break;
            };
            joining.join(single(pair.from) | single(pair.to));
            let edge = chain.add(pair.from, pair.to, pair.weight);
            self.of_edge[place(edge)] = self.count;
            edges |= single(edge);
            sum = sum.saturating_add(pair.weight);
        }
        if edges == 0 {
            return;
        }
        spread_more(chain, edges, item.length.saturating_sub(sum));
        spread_less(chain, edges, sum.saturating_sub(item.length));
        self.groups[place(self.count)] = Group {
            touched: item.touched,
            edges,
        };
        self.count = self.count.wrapping_add(1);
    }
}

// The pair of parts in different blocks that the growth merged at the least weight, the first of several.
fn lowest_pair(touched: u64, grown: &Chain, joining: &Joining) -> Option<Edge> {
    let mut lowest_pair = None;
    let mut rest = touched;
    for _ in 0..64 {
        if rest == 0 {
            break;
        }
        let from = lowest(rest);
        rest = without_lowest(rest);
        lowest_pair = lower(lowest_pair, lowest_from(from, rest, grown, joining));
    }
    lowest_pair
}

// The pair of a part with one of a set in another block, that the growth merged at the least weight.
fn lowest_from(from: u8, others: u64, grown: &Chain, joining: &Joining) -> Option<Edge> {
    let mut lowest_pair = None;
    let mut rest = others & !joining.block(from);
    for _ in 0..64 {
        if rest == 0 {
            break;
        }
        let to = lowest(rest);
        rest = without_lowest(rest);
        let weight = grown.load(single(from) | single(to)).sum;
        lowest_pair = lower(lowest_pair, Some(Edge { from, to, weight }));
    }
    lowest_pair
}

// The pair of less weight, the first one if both have the same.
fn lower(first: Option<Edge>, second: Option<Edge>) -> Option<Edge> {
    match (first, second) {
        (Some(one), Some(other)) if other.weight < one.weight => second,
        (None, _) => second,
        _ => first,
    }
}

// Spreads what is missing about evenly over some edges.
fn spread_more(chain: &mut Chain, edges: u64, missing: u64) {
    let mut missing = missing;
    let mut rest = edges;
    for _ in 0..64 {
        if rest == 0 {
            break;
        }
        let edge = lowest(rest);
        let change = missing
            .checked_div(u64::from(rest.count_ones()))
            .unwrap_or(0);
        chain.set_weight(edge, chain.weight(edge).saturating_add(change));
        missing = missing.saturating_sub(change);
        rest = without_lowest(rest);
    }
}

// Takes what is too much about evenly off some edges, and what that leaves off the first ones.
fn spread_less(chain: &mut Chain, edges: u64, excess: u64) {
    let left = take_off(chain, edges, excess, true);
    take_off(chain, edges, left, false);
}

// Takes an excess off some edges, evenly or off the first ones; gives what is left of it.
fn take_off(chain: &mut Chain, edges: u64, excess: u64, evenly: bool) -> u64 {
    let mut left = excess;
    let mut rest = edges;
    for _ in 0..64 {
        if rest == 0 {
            break;
        }
        let edge = lowest(rest);
        let share = if evenly {
            u64::from(rest.count_ones())
        } else {
            1
        };
        let change = left.checked_div(share).unwrap_or(0).min(chain.weight(edge));
        chain.set_weight(edge, chain.weight(edge).saturating_sub(change));
        left = left.saturating_sub(change);
        rest = without_lowest(rest);
    }
    left
}
