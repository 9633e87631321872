//! Nested chains of partitions, by trees with weighted edges on the parts.

use crate::sets::{is_several, place, single};

/// An edge between two parts.
#[derive(Clone, Copy)]
pub struct Edge {
    pub from: u8,
    pub to: u8,
    pub weight: u64,
}

/// A merge of two blocks along an edge: the block `a` has its end `from`, and `b` its end `to`.
#[derive(Clone, Copy)]
pub struct Merge {
    pub a: u64,
    pub b: u64,
    pub weight: u64,
    pub edge: u8,
}

/// A nested chain of partitions, given as a tree with weighted edges: the parts are merged along the edges in ascending
/// weight (the rule of Kruskal 1956). Each merge has its partition, that of the blocks just before it; the amount is
/// the weight of the merge less that of the one before. So what the chain bounds is the sum of all weights, and the
/// load of a tree is the sum of the weights of those merges that have parts of it on both sides.
#[derive(Clone, Copy)]
pub struct Chain {
    pub edges: [Edge; 64],
    pub count: u8,
    // The edges in the order of their merges.
    order: [u8; 64],
    // The merges in ascending weight; past the last one they are of empty blocks.
    merges: [Merge; 64],
}

/// A load, and the edges whose weights it sums.
#[derive(Clone, Copy)]
pub struct Load {
    pub sum: u64,
    pub used: u64,
}

const NO_EDGE: Edge = Edge {
    from: 0,
    to: 0,
    weight: 0,
};

const NO_MERGE: Merge = Merge {
    a: 0,
    b: 0,
    weight: 0,
    edge: 0,
};

impl Chain {
    /// The chain of no edge.
    pub fn empty() -> Chain {
        let mut order = [0; 64];
        for edge in 0..64u8 {
            order[edge as usize] = edge;
        }
        Chain {
            edges: [NO_EDGE; 64],
            count: 0,
            order,
            merges: [NO_MERGE; 64],
        }
    }

    /// Takes an edge in, as far as there is room; `merge` is to be called after the last one. It gives the number.
    pub fn add(&mut self, from: u8, to: u8, weight: u64) -> u8 {
        let number = self.count;
        if number < 63 {
            self.edges[place(number)] = Edge { from, to, weight };
            self.count = number.wrapping_add(1);
        }
        number
    }

    /// The weight of an edge.
    pub fn weight(&self, edge: u8) -> u64 {
        self.edges[place(edge)].weight
    }

    /// Gives an edge a weight; `merge` is to be called after the last one.
    pub fn set_weight(&mut self, edge: u8, weight: u64) {
        self.edges[place(edge)].weight = weight;
    }

    /// Gives an edge other ends, in the same blocks.
    pub fn set_ends(&mut self, edge: u8, from: u8, to: u8) {
        let weight = self.weight(edge);
        self.edges[place(edge)] = Edge { from, to, weight };
    }

    /// The sum of all weights.
    pub fn bound(&self) -> u64 {
        let mut bound = 0u64;
        for edge in &self.edges {
            bound = bound.saturating_add(edge.weight);
        }
        bound
    }

    /// The merge of a rank.
    pub fn at_rank(&self, rank: u8) -> Merge {
        self.merges[place(rank)]
    }

    /// The load of a tree that touches these parts.
    pub fn load(&self, touched: u64) -> Load {
        let mut sum = 0u64;
        let mut used = 0;
        let mut left = touched;
        for merge in &self.merges {
            if !is_several(left) {
                break;
            }
            if touched & merge.a != 0 && touched & merge.b != 0 {
                sum = sum.saturating_add(merge.weight);
                used |= single(merge.edge);
                left &= left.wrapping_sub(1);
            }
        }
        Load { sum, used }
    }

    /// Sorts the edges by weight and number, and merges along them.
    pub fn merge(&mut self) {
        for place in 1..self.count {
            self.settle(place);
        }
        self.merge_in_order();
    }

    // Moves the edge at a place of the order to where it belongs among those before, which are in order.
    fn settle(&mut self, from: u8) {
        for back in 0..from {
            let here = from - back;
            let edge = self.order[place(here)];
            let other = self.order[place(here - 1)];
            if !self.is_later(other, edge) {
                break;
            }
            self.order[place(here)] = other;
            self.order[place(here - 1)] = edge;
        }
    }

    // Whether an edge comes after another.
    fn is_later(&self, edge: u8, other: u8) -> bool {
        let weight = self.weight(edge);
        let limit = self.weight(other);
        weight > limit || (weight == limit && edge > other)
    }

    // Merges along the edges in their order.
    fn merge_in_order(&mut self) {
        let mut blocks = Blocks::apart();
        for rank in 0..self.count {
            let edge = self.order[place(rank)];
            let Edge { from, to, weight } = self.edges[place(edge)];
            let (a, b) = blocks.join(from, to);
            self.merges[place(rank)] = Merge { a, b, weight, edge };
        }
    }
}

// Blocks of parts: following `up` from a part leads to the one that names its block.
#[derive(Clone, Copy)]
struct Blocks {
    up: [u8; 64],
    blocks: [u64; 64],
}

impl Blocks {
    // Each part by itself.
    fn apart() -> Blocks {
        let mut up = [0; 64];
        let mut blocks = [0; 64];
        for part in 0..64u8 {
            up[part as usize] = part;
            blocks[part as usize] = single(part);
        }
        Blocks { up, blocks }
    }

    // The part that names a part's block.
    fn name(&mut self, part: u8) -> u8 {
        let mut name = part;
        for _ in 0..64 {
            let next = self.up[place(name)];
            if next == name {
                break;
            }
            let after = self.up[place(next)];
            self.up[place(name)] = after;
            name = after;
        }
        name
    }

    // Joins the blocks of two parts; gives them.
    fn join(&mut self, from: u8, to: u8) -> (u64, u64) {
        let one = self.name(from);
        let other = self.name(to);
        let a = self.blocks[place(one)];
        let b = self.blocks[place(other)];
        self.up[place(other)] = one;
        self.blocks[place(one)] = a | b;
        (a, b)
    }
}
