//! What is proposed for choices: partitions that may bound all that respects them, and a concatenation. Nothing here is
//! trusted: what is proposed is judged by others.

use crate::best::Best;
use crate::bound::SCALE;
use crate::level::Level;
use crate::touching::{Parts, Touching};
use concatenation::Choice;
use full_tree::{Places, Tree};
use partition_fit::{Fitter, Level as PartLevel, Proposal as Fitted};
use std::alloc::{AllocError, Global};

/// What is proposed for choices.
#[derive(Drop)]
pub struct Proposal {
    levels: Vec<Level>,
    bound: u128,
    chosen: Vec<u32>,
    split: Option<u32>,
}

impl Proposal {
    /// Whether the levels may show that nothing beside what is taken is below the best total.
    pub fn reaches(&self, taken: u128, best: u128) -> bool {
        taken.saturating_add(self.bound.div_ceil(u128::from(SCALE))) >= best
    }

    /// The levels where they may show that, else none.
    pub fn levels_for(&self, taken: u128, best: u128) -> &[Level] {
        if self.reaches(taken, best) {
            &self.levels
        } else {
            &[]
        }
    }

    /// Puts the trees that are proposed beside the taken ones into a set.
    pub fn add_to(&self, set: &mut [bool]) {
        for place in &self.chosen {
            if let Some(flag) = set.get_mut(*place as usize) {
                *flag = true;
            }
        }
    }

    /// The place of the tree on which a split is proposed.
    pub fn split(&self) -> Option<u32> {
        self.split
    }
}

/// What is proposed where trees of a total are taken and the labels are those of the parts that they join. An `Err` is
/// want of memory.
pub fn propose(
    alloc: Global,
    trees: &[Tree],
    listed: &[Places],
    choices: &[Choice],
    labels: &[u8],
    taken: u128,
    best: &Best,
) -> Result<Proposal, AllocError> {
    let parts = Parts::of(labels);
    let touching = Touching::of(alloc, trees, listed, choices, labels, &parts)?;
    let guide = touching.numbers_of(alloc, best.places.as_slice())?;
    let found = Fitter::new(alloc).propose(
        parts.count().max(1),
        touching.items(),
        &guide,
        room_in_units(taken, best.total),
    )?;
    match found {
        Some(fitted) => proposal_of(alloc, labels, &parts, &touching, &fitted),
        None => Ok(Proposal {
            levels: Vec::new(alloc),
            bound: 0,
            chosen: Vec::new(alloc),
            split: None,
        }),
    }
}

// What a fit of the parts proposes for the terminals. An `Err` is want of memory.
fn proposal_of(
    alloc: Global,
    labels: &[u8],
    parts: &Parts,
    touching: &Touching,
    fitted: &Fitted,
) -> Result<Proposal, AllocError> {
    Ok(Proposal {
        levels: levels_of(alloc, labels, parts, &fitted.levels)?,
        bound: bound_of(parts.count(), &fitted.levels),
        chosen: touching.places_of(alloc, &fitted.chosen)?,
        split: match fitted.split {
            Some(number) => touching.place(number),
            None => None,
        },
    })
}

// How far a total lies above what is taken, in units.
fn room_in_units(taken: u128, best: u128) -> u64 {
    let room = best.saturating_sub(taken).saturating_mul(u128::from(SCALE));
    room.min(u128::from(u64::MAX)) as u64
}

// The levels of parts as levels of terminals. An `Err` is want of memory.
fn levels_of(
    alloc: Global,
    labels: &[u8],
    parts: &Parts,
    fitted: &[PartLevel],
) -> Result<Vec<Level>, AllocError> {
    let mut levels = Vec::with_capacity(alloc, fitted.len())?;
    for level in fitted {
        levels.push(Level {
            labels: parts.labels_of(labels, level),
            amount: level.amount,
        })?;
    }
    Ok(levels)
}

// What the levels bound, in units.
fn bound_of(parts: u8, levels: &[PartLevel]) -> u128 {
    let mut bound = 0;
    for level in levels {
        let joins = parts_of(parts, level).saturating_sub(1);
        bound = u128::saturating_add(
            bound,
            u128::from(level.amount).saturating_mul(u128::from(joins)),
        );
    }
    bound
}

// How many parts a level tells apart.
fn parts_of(parts: u8, level: &PartLevel) -> u32 {
    let mut seen: u64 = 0;
    for label in level.labels.iter().take(usize::from(parts)) {
        seen |= 1u64.wrapping_shl(u32::from(*label));
    }
    seen.count_ones()
}
