//! An edge of a file.

/// An edge between two nodes, which are counted from 1, and its length.
#[derive(Clone, Copy)]
pub struct StpEdge {
    /// One end.
    pub i: u32,
    /// The other end.
    pub j: u32,
    /// The length.
    pub length: u64,
}
