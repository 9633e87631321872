//! What an answer claims.

/// What an answer claims of its network and its tree.
#[derive(Clone, Copy)]
pub struct Claim {
    /// The length of the network.
    pub length: u64,
    /// The bound: no network is said to be shorter.
    pub bound: u64,
    /// Whether bound and length agree.
    pub optimal: bool,
}
