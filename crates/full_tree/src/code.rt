//! Codes of full trees. The shapes are Hwang's (1976); the codes are this project's own.

use crate::places::Places;
use crate::way::Way;
use lists::ItemList;

/// A full Steiner tree, named by the places of its terminals in a list of points, counted from 0.
#[derive(Drop)]
pub enum TreeCode {
    /// A long leg runs from the root in a direction to a corner. From there a short leg runs across
    /// it to the tip; where the tip lies straight ahead, it is the corner itself.
    Long {
        /// The terminal at which the long leg begins.
        root: u8,
        /// The direction of the long leg.
        toward: Way,
        /// The terminals that hang on the long leg, each by a piece across it, in the order in which
        /// the long leg meets these pieces. They lie on both sides of it in turn.
        drops: Places,
        /// The terminal that hangs on the short leg by a piece along the long leg's direction, where
        /// there is one.
        side: Option<u8>,
        /// The terminal at which the short leg ends.
        tip: u8,
    },
    /// A horizontal piece from west to east and a vertical one from south to north that cross.
    Cross {
        /// The terminal at the western end.
        west: u8,
        /// The terminal at the southern end.
        south: u8,
        /// The terminal at the eastern end.
        east: u8,
        /// The terminal at the northern end.
        north: u8,
    },
}

/// A full tree with its length.
#[derive(Drop)]
pub struct Tree {
    /// The sum of the lengths of the tree's pieces, where `tree_length` made it.
    pub length: u64,
    pub code: TreeCode,
}

/// A list of trees.
pub type TreeList = ItemList<Tree>;
