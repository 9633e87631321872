//! What a line of an answer tells, its names resolved.

use crate::claim::Claim;
use cert_tree::SplitOn;

/// A step of an answer, whose edges and vertices are known by their numbers, counted from 0.
#[derive(Clone, Copy)]
pub enum Step {
    /// What the answer claims.
    Claims(Claim),
    /// How many edges follow.
    EdgeCount(u32),
    /// An edge of the network.
    Edge(u32),
    /// The tree follows.
    Tree,
    /// A split: its part outside follows, and then its part inside.
    Split(SplitOn),
    /// A leaf, with how many cuts follow.
    Leaf(u32),
    /// A cut of a leaf, with its weight. Its members stand aside.
    Cut(u64),
    /// The end.
    End,
}
