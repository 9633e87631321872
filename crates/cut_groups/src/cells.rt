//! Checked access to lists: a default where a place is past the end.

/// No number of an arc, a face, a cut or a group.
pub const NONE: u32 = u32::MAX;

/// The value at a place, or the default.
#[inline]
pub fn at<T: Copy>(list: &[T], place: u32, default: T) -> T {
    match list.get(place as usize) {
        Some(value) => *value,
        None => default,
    }
}

/// Writes a value at a place, if there is one.
#[inline]
pub fn set<T: Copy>(list: &mut [T], place: u32, value: T) {
    if let Some(slot) = list.get_mut(place as usize) {
        *slot = value;
    }
}

/// Adds to the number at a place, if there is one.
#[inline]
pub fn add_at(list: &mut [u32], place: u32, amount: u32) {
    if let Some(slot) = list.get_mut(place as usize) {
        *slot = slot.wrapping_add(amount);
    }
}

/// How long a list is.
#[inline]
pub fn count<T>(list: &Vec<T>) -> u32 {
    u32::try_from(list.len()).unwrap_or(NONE)
}
