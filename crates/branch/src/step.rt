//! What a step of a search came to.

/// What a step of a search came to.
#[derive(Clone, Copy)]
pub enum Step {
    /// One leaf was replaced by a split with two leaves.
    Split,
    /// No leaf's value is below the best network's length, so that network is shortest.
    Settled,
}
