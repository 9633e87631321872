//! A rectangle of the plane.

/// A rectangle with whole coordinates and sides along the axes. Its interior is what lies strictly between its sides.
#[derive(Clone, Copy)]
pub struct Rectangle {
    /// Its left side.
    pub x1: i64,
    /// Its lower side.
    pub y1: i64,
    /// Its right side.
    pub x2: i64,
    /// Its upper side.
    pub y2: i64,
}
