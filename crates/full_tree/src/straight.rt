//! Straight pieces of trees.

use points_in::Point;

/// A straight line between two points of one x or of one y.
#[derive(Clone, Copy)]
pub struct Piece {
    /// Where the piece begins.
    pub from: Point,
    /// Where it ends.
    pub to: Point,
}
