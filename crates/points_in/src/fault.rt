//! Why a text gives no points.

use std::alloc::AllocError;
use thiserror::Error;

/// The first fault of a text of points, as it is read from the left, or want of memory. Bytes count from 0.
#[derive(Debug, Drop, Error)]
pub enum PointFault {
    /// The word that begins at this byte isn't a sign or none and then digits.
    #[error("not a whole number at byte {0}")]
    BadNumber(u64),
    /// The number whose word begins at this byte is below -2^63 or above 2^63-1.
    #[error("number out of range at byte {0}")]
    NumberTooLarge(u64),
    /// The point whose x begins at this byte is the 51st distinct one.
    #[error("more than 50 points at byte {0}")]
    TooManyPoints(u64),
    /// The last x has no y.
    #[error("a coordinate is missing")]
    OddCount,
    /// There is no word.
    #[error("no points")]
    NoPoints,
    /// There was no memory.
    #[error(transparent)]
    Memory(#[from(alloc)] AllocError),
}
