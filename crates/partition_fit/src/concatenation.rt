//! Concatenations: lists of items that join all parts.

use crate::item::Numbered;
use crate::joining::Joining;
use std::alloc::AllocError;

/// The sum of the lengths.
pub fn length_of(chosen: &[Numbered]) -> u64 {
    let mut length = 0u64;
    for item in chosen {
        length = length.saturating_add(item.length);
    }
    length
}

/// Drops the items that the others do without, the longest first. An `Err` is want of memory.
pub fn drop_needless(parts: u8, chosen: &mut Vec<Numbered>) -> Result<(), AllocError> {
    chosen.sort_by_key(|item| (!item.length, item.number))?;
    let mut place = 0;
    for _ in 0..chosen.len() {
        if place < chosen.len() && joins_without(parts, chosen, place) {
            let _ = chosen.remove(place);
        } else {
            place = usize::wrapping_add(place, 1);
        }
    }
    Ok(())
}

// Whether the items other than that at a place join all parts.
fn joins_without(parts: u8, chosen: &[Numbered], left_out: usize) -> bool {
    let mut joining = Joining::apart(parts);
    for (place, item) in chosen.iter().enumerate() {
        if place != left_out {
            joining.join(item.touched);
        }
    }
    joining.is_one(parts)
}
