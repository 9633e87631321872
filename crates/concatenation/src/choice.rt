//! What a search has decided of a tree of its list.

/// What a search has decided of a tree of its list.
#[derive(Clone, Copy)]
pub enum Choice {
    /// Nothing is decided yet.
    Open,
    /// The tree is part of the concatenation.
    Taken,
    /// The tree is no part of it.
    LeftOut,
}
