//! Sets of numbers below 64, one bit for each: of parts, of edges and of places.

ghost use Rattle.std.specs.Prelude.{◌<◌};

/// A number as a place in a table of 64.
pub fn place(number: u8) -> usize
    ensures { result < 64 }
{
    (number & 63) as usize
}

/// The set of one number.
pub fn single(number: u8) -> u64 {
    1u64.wrapping_shl(u32::from(number))
}

/// The least number of a set that isn't empty.
pub fn lowest(set: u64) -> u8
    ensures { result < 64 }
{
    (set.trailing_zeros() & 63) as u8
}

/// A set without its least number.
pub fn without_lowest(set: u64) -> u64 {
    set & set.wrapping_sub(1)
}

/// Whether a set has at least two numbers.
pub fn is_several(set: u64) -> bool {
    without_lowest(set) != 0
}

/// How many numbers a set has besides its least one.
pub fn joins(set: u64) -> u64 {
    u64::from(set.count_ones().saturating_sub(1))
}

/// The set of all numbers below one.
pub fn all_below(number: u8) -> u64 {
    if number < 64 {
        single(number).wrapping_sub(1)
    } else {
        u64::MAX
    }
}
