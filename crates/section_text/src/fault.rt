//! What is wrong with a line in every format.

/// Why a line is wrong in whatever format. Lines are counted from 1.
#[derive(Clone, Copy)]
pub enum LineFault {
    /// The line is not in the format. A text that ends too soon fails in the line counted as one more than its line
    /// feeds, and one that goes on after its end in the line after it.
    BadLine(u64),
    /// The line asks for more than 50 points.
    TooManyPoints(u64),
    /// The line's point stands in an earlier one.
    RepeatedPoint(u64),
    /// The line asks for more items than a text of the format lists.
    TooManyItems(u64),
}
