//! The beginnings of long codes.

use full_tree::{Places, Stations, Way};
use points_in::Point;

/// A root, a direction and the first drops of a long code, with what a further drop needs.
#[derive(Drop)]
pub struct Prefix {
    /// The terminal at which the long leg begins.
    pub root: u8,
    /// The direction of the long leg.
    pub toward: Way,
    /// The drops so far.
    pub drops: Places,
    /// The last drop, or the root where there is none.
    pub last: u8,
    /// The last drop's foot, or the root's point.
    pub foot: Point,
    /// The stations of the root and of the drops.
    pub stations: Stations,
}
