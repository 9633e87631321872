//! Why an answer is refused.

/// Why an answer is refused. Lines count from 1; edges, vertices and terminals from 0.
#[derive(Clone, Copy, Debug)]
pub enum Cause {
    /// The line in which the text ceases to begin an answer's text.
    NotAnswer(u64),
    /// The line names no edge, where edges have names.
    OffGrid(u64),
    /// The line names no vertex, where vertices have names.
    OffGridVertex(u64),
    /// The line's edge doesn't have a higher number than the edges before it.
    EdgeOrder(u64),
    /// The edges don't join this terminal to the first one, though all those before it.
    NotJoined(u8),
    /// The answer says one length, and its edges have another.
    WrongLength {
        printed: u64,
        found: u64,
    },
    /// The line is a split on an edge that isn't undecided there.
    Decided {
        line: u64,
        edge: u32,
    },
    /// The line is a split on a vertex that isn't undecided there: the root, a required vertex, or a missed one.
    DecidedVertex {
        line: u64,
        vertex: u32,
    },
    /// The line is the 256th split.
    TooDeep(u64),
    /// The line's cut holds the root.
    RootInCut(u64),
    /// The line's cut holds no required vertex.
    IdleCut(u64),
    /// With the line's cut the edge is the lowest of which an arc is loaded above its room.
    Overload {
        line: u64,
        edge: u32,
        load: u128,
        room: u64,
    },
    /// The answer says one bound, and the lesser of its tree's value and its length is another.
    WrongBound {
        printed: u64,
        found: u64,
    },
    /// The answer says optimal though bound and length differ, or stopped though they agree.
    WrongStatus,
}
