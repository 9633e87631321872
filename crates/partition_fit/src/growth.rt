//! Growth: the amounts of all blocks grow evenly, and the blocks of the item that is used up first are merged.

use crate::chain::Chain;
use crate::item::Numbered;
use crate::sets::{is_several, joins, lowest, single, without_lowest};
use std::alloc::AllocError;

/// An item under growth: the blocks that it touches, each named by its least part, and what is left of its length.
#[derive(Clone, Copy)]
pub struct Growing {
    blocks: u64,
    rest: u64,
    item: Numbered,
}

// The item that is used up first, after so much further growth.
#[derive(Clone, Copy)]
struct Pick {
    blocks: u64,
    growth: u64,
    item: Numbered,
}

/// Grows all parts until they are one (the growth of moats of Agrawal, Klein and Ravi 1995, on sets of more than two
/// parts). The chain overloads no item, and `merged` has the items that were used up, in the order of merging. False
/// where the items don't join the parts. An `Err` is want of memory.
pub fn grow(
    parts: u8,
    items: &[Numbered],
    growing: &mut Vec<Growing>,
    chain: &mut Chain,
    merged: &mut Vec<Numbered>,
) -> Result<bool, AllocError> {
    begin(items, growing)?;
    merged.clear();
    *chain = Chain::empty();
    let mut height = 0u64;
    for _ in 0..63 {
        let Some(pick) = first_used_up(growing) else {
            break;
        };
        height = height.saturating_add(pick.growth);
        merged.push(pick.item)?;
        add_edges(chain, pick.blocks, height);
        take_growth(growing, pick);
        growing.retain(|item| is_several(item.blocks));
    }
    chain.merge();
    Ok(chain.count.wrapping_add(1) == parts)
}

// All items, before any growth. An `Err` is want of memory.
fn begin(items: &[Numbered], growing: &mut Vec<Growing>) -> Result<(), AllocError> {
    growing.clear();
    for item in items {
        growing.push(Growing {
            blocks: item.touched,
            rest: item.length,
            item: *item,
        })?;
    }
    Ok(())
}

// The item that is used up first when all blocks grow evenly; of several that with the fewest blocks, then the first.
fn first_used_up(growing: &[Growing]) -> Option<Pick> {
    let mut pick: Option<Pick> = None;
    for grown in growing {
        if let Some(growth) = grown.rest.checked_div(joins(grown.blocks)) {
            if is_before(growth, grown.blocks, pick) {
                pick = Some(Pick {
                    blocks: grown.blocks,
                    growth,
                    item: grown.item,
                });
            }
        }
    }
    pick
}

// Whether an item is used up before another.
fn is_before(growth: u64, blocks: u64, pick: Option<Pick>) -> bool {
    match pick {
        Some(pick) => growth < pick.growth
            || (growth == pick.growth && joins(blocks) < joins(pick.blocks)),
        None => true,
    }
}

// Edges from the least of the blocks to the others.
fn add_edges(chain: &mut Chain, blocks: u64, height: u64) {
    let name = lowest(blocks);
    let mut rest = without_lowest(blocks);
    for _ in 0..64 {
        if rest == 0 {
            break;
        }
        chain.add(name, lowest(rest), height);
        rest = without_lowest(rest);
    }
}

// What the growth leaves of the items, and which blocks they touch after the merge.
fn take_growth(growing: &mut [Growing], pick: Pick) {
    let name = single(lowest(pick.blocks));
    for grown in growing.iter_mut() {
        let loss = pick.growth.saturating_mul(joins(grown.blocks));
        grown.rest = grown.rest.saturating_sub(loss);
        if grown.blocks & pick.blocks != 0 {
            grown.blocks = (grown.blocks & !pick.blocks) | name;
        }
    }
}
