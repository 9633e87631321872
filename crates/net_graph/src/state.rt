//! What is decided of an edge, and of a vertex.

/// What a decision says of an edge. An edge that can't be in the root part any more is outside, whatever kept it out.
#[derive(Clone, Copy, Debug)]
pub enum EdgeState {
    Undecided,
    Inside,
    Outside,
}

/// What a decision says of a vertex: that it has to be reached, that it must not be, or nothing.
#[derive(Clone, Copy)]
pub enum VertexState {
    Undecided,
    Met,
    Missed,
}
