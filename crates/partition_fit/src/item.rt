//! Trees that may be used, as the parts that they touch.

/// A tree that may be used.
#[derive(Clone, Copy)]
pub struct Item {
    /// The parts that it touches, one bit for each: at least two, below 50.
    pub touched: u64,
    /// Its length, in units of a twelfth: at most 2 ^ 44.
    pub length: u64,
}

/// An item in hand, by its number in the list that it comes from.
#[derive(Clone, Copy)]
pub struct Numbered {
    pub touched: u64,
    pub length: u64,
    pub number: u32,
}
