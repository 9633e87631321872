//! What a rule chooses from.

/// One of those that a rule chooses from.
#[derive(Clone, Copy)]
pub struct Candidate {
    /// The number of the vertex or the edge that it stands for.
    pub number: u32,
    /// How much it weighs: for a vertex how many vertices its cut has, for an edge its length.
    pub size: u64,
}
