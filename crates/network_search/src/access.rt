//! Readings and writings at any place: past the end nothing is read, and nothing is written.

/// The item at a place, or another one past the end.
pub fn at<T: Copy>(items: &[T], place: u32, other: T) -> T {
    match items.get(place as usize) {
        Some(item) => *item,
        None => other,
    }
}

/// Writes the item at a place, where there is one.
pub fn put<T: Copy>(items: &mut [T], place: u32, item: T) {
    if (place as usize) < items.len() {
        items[place as usize] = item;
    }
}
