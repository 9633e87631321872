//! Proposals of partitions and concatenations.

use crate::tree::places::places;
use partition_fit::{Fitter, Item, Level, Proposal};
use row_tables::{Call, Fault, Told, exactly};
use std::alloc::Global;

/// What is proposed for parts and items, without a total to stay below: the length of what is chosen, and what the
/// levels bound; or that the items leave parts apart.
pub fn proposal(alloc: Global, call: &Call, told: &mut Told) -> Result<(), Fault> {
    let parts = call.byte("parts")?;
    if parts == 0 {
        return Err(Fault::NotAllowed);
    }
    let items = items(alloc, call)?;
    let guide = places(alloc, call, "guide", items.len())?;
    match Fitter::new(alloc).propose(parts, &items, &guide, u64::MAX)? {
        Some(found) => tell(parts, &items, &found, told),
        None => told.word("apart\n"),
    }
    Ok(())
}

// Tells the length of what is chosen, and what the levels bound.
fn tell(parts: u8, items: &[Item], found: &Proposal, told: &mut Told) {
    told.line("chosen ", &length_of(items, &found.chosen));
    told.line("bound ", &bound_of(parts, &found.levels));
}

// The items under the key `items`, a line each: the parts that it touches, as a word, and its length.
fn items(alloc: Global, call: &Call) -> Result<Vec<Item>, Fault> {
    let lines = call.text("items")?;
    let mut items = Vec::new(alloc);
    for line in lines.lines() {
        let [touched, length] = exactly::<2>(line)?;
        items.push(Item { touched, length })?;
    }
    Ok(items)
}

// The length of the items of some numbers.
fn length_of(items: &[Item], chosen: &[u32]) -> u64 {
    let mut length = 0u64;
    for number in chosen {
        if let Some(item) = items.get(*number as usize) {
            length = length.saturating_add(item.length);
        }
    }
    length
}

// What levels bound: each amount as often as it has blocks of parts, less one.
fn bound_of(parts: u8, levels: &[Level]) -> u64 {
    let mut bound = 0u64;
    for level in levels {
        let mut labels = 0u64;
        for label in level.labels.iter().take(parts as usize) {
            labels |= 1u64.wrapping_shl(u32::from(*label));
        }
        let blocks = u64::from(labels.count_ones().saturating_sub(1));
        bound = bound.saturating_add(level.amount.saturating_mul(blocks));
    }
    bound
}
