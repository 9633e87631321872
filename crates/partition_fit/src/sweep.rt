//! Sweeps over the groups of a fit: in each, weight goes from the edge with the greatest pull to the spare or to the
//! edge with the least pull.

use crate::chain::Chain;
use crate::fit::Fit;
use crate::fitted::pulls;
use crate::groups::Group;
use crate::sets::{lowest, place, without_lowest};
use crate::shift::Line;
use std::alloc::AllocError;

// How often weight is shifted in a group in a sweep.
const MOVES: u8 = 2;

/// The edges of a set with the greatest pull, where one has a weight, and with the least one.
#[derive(Clone, Copy)]
pub struct Extremes {
    pub most: Option<u8>,
    pub least: u8,
}

/// Sweeps over all groups. An `Err` is want of memory.
pub fn sweep(fit: &mut Fit) -> Result<(), AllocError> {
    for number in 0..fit.groups.count {
        let group = fit.groups.group(number);
        for _ in 0..MOVES {
            if !move_in(fit, group)? {
                break;
            }
        }
    }
    Ok(())
}

// Shifts weight in a group; tells whether it did. An `Err` is want of memory.
fn move_in(fit: &mut Fit, group: Group) -> Result<bool, AllocError> {
    let pulls = pulls(&fit.items);
    let Extremes { most, least } = extremes_of(&fit.chain, group.edges, &pulls);
    let Some(most) = most else {
        return Ok(false);
    };
    let pull = pulls[place(most)];
    if pull == 0 {
        return Ok(false);
    }
    let weight = fit.chain.weight(most);
    let spare = weight.min(fit.spare);
    if spare > 0 && Line::of(fit, most, None).shift(fit, spare)? {
        return Ok(true);
    }
    if pulls[place(least)] < pull {
        return Line::of(fit, most, Some(least)).shift(fit, weight);
    }
    Ok(false)
}

/// The edges with the greatest pull, among those with a weight, and with the least one.
pub fn extremes_of(chain: &Chain, edges: u64, pulls: &[u64; 64]) -> Extremes {
    let mut extremes = Extremes {
        most: None,
        least: lowest(edges),
    };
    let mut rest = edges;
    for _ in 0..64 {
        if rest == 0 {
            break;
        }
        let edge = lowest(rest);
        rest = without_lowest(rest);
        if chain.weight(edge) > 0 && is_above(edge, extremes.most, pulls) {
            extremes.most = Some(edge);
        }
        if pulls[place(edge)] < pulls[place(extremes.least)] {
            extremes.least = edge;
        }
    }
    extremes
}

// Whether an edge has a greater pull than another, or there is no other.
fn is_above(edge: u8, other: Option<u8>, pulls: &[u64; 64]) -> bool {
    match other {
        Some(other) => pulls[place(edge)] > pulls[place(other)],
        None => true,
    }
}
