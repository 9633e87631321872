//! The steps by which a graph becomes smaller.

/// A step. Edges are known by their numbers in the given graph; edges that came up later have the numbers after those,
/// in the order of the steps that made them.
#[derive(Clone, Copy)]
pub enum Step {
    /// A vertex of degree 1 went.
    Leaf(Leaf),
    /// A vertex of degree 2 went that is no terminal, and its edges became one.
    Between(Between),
    /// Of two edges that joined the same vertices one went that was no shorter.
    Parallel(Parallel),
}

/// An edge from a vertex that went.
#[derive(Clone, Copy)]
pub struct Side {
    pub neighbour: u32,
    pub edge: u32,
    pub length: u64,
}

/// A vertex with its only edge.
#[derive(Clone, Copy)]
pub struct Leaf {
    pub vertex: u32,
    pub side: Side,
    pub role: Role,
}

/// What a vertex was. The neighbour of one that is not plain has its role once it went.
#[derive(Clone, Copy, PartialEq, Eq)]
pub enum Role {
    Plain,
    Terminal,
    Root,
}

/// A vertex with its two edges, and the edge that they became.
#[derive(Clone, Copy)]
pub struct Between {
    pub vertex: u32,
    pub near: Side,
    pub far: Side,
    pub edge: u32,
}

/// Two edges.
#[derive(Clone, Copy)]
pub struct Parallel {
    pub kept: u32,
    pub gone: u32,
}
