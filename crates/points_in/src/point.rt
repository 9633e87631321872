//! A point of the plane.

/// A point with whole coordinates.
#[derive(Clone, Copy, Debug, PartialEq, Eq)]
pub struct Point {
    /// Rightwards.
    pub x: i64,
    /// Upwards.
    pub y: i64,
}
