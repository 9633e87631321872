//! The sides of the edges of a chain's tree.

use crate::chain::Chain;
use crate::sets::{lowest, place, single, without_lowest};

// A walk through the tree from the part 0: the parts in the order in which they are come to, and how each is.
#[derive(Clone, Copy)]
struct Walk {
    queue: [u8; 64],
    count: u8,
    seen: u64,
    before: [u8; 64],
    along: [u8; 64],
}

/// For each edge of a chain's tree the parts on the side of it that hasn't the part 0.
pub fn sides(chain: &Chain) -> [u64; 64] {
    let walk = walked(chain);
    let mut sides = [0; 64];
    let mut below = [0; 64];
    for back in 0..64u8 {
        let rank = 63 - back;
        if rank > 0 && rank < walk.count {
            let part = walk.queue[place(rank)];
            let side = below[place(part)] | single(part);
            below[place(walk.before[place(part)])] |= side;
            sides[place(walk.along[place(part)])] = side;
        }
    }
    sides
}

// The walk through a chain's tree.
fn walked(chain: &Chain) -> Walk {
    let edges_at = edges_at(chain);
    let mut walk = Walk {
        queue: [0; 64],
        count: 1,
        seen: 1,
        before: [0; 64],
        along: [0; 64],
    };
    for rank in 0..64u8 {
        if rank < walk.count {
            let part = walk.queue[place(rank)];
            walk.go_on(chain, part, edges_at[place(part)]);
        }
    }
    walk
}

// The edges at each part.
fn edges_at(chain: &Chain) -> [u64; 64] {
    let mut edges_at = [0; 64];
    for edge in 0..chain.count {
        let ends = chain.edges[place(edge)];
        edges_at[place(ends.from)] |= single(edge);
        edges_at[place(ends.to)] |= single(edge);
    }
    edges_at
}

impl Walk {
    // Comes to the parts at the other ends of the edges at a part.
    fn go_on(&mut self, chain: &Chain, part: u8, edges: u64) {
        let mut rest = edges;
        for _ in 0..64 {
            if rest == 0 {
                break;
            }
            let edge = lowest(rest);
            let ends = chain.edges[place(edge)];
            let other = if ends.from == part {
                ends.to
            } else {
                ends.from
            };
            self.come_to(other, part, edge);
            rest = without_lowest(rest);
        }
    }

    // Comes to a part, if it is new.
    fn come_to(&mut self, part: u8, before: u8, edge: u8) {
        if self.seen & single(part) == 0 {
            self.seen |= single(part);
            self.queue[place(self.count)] = part;
            self.before[place(part)] = before;
            self.along[place(part)] = edge;
            self.count = self.count.wrapping_add(1);
        }
    }
}
