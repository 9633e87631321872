//! Which line of an answer's text is due.

// What is due: a line of the head, so many more edges before the tree, so many more cuts of a leaf and
// nodes behind them before the end, or nothing. The note on the concatenation is due on a grid alone.
#[derive(Clone, Copy)]
pub(crate) enum Stage {
    Title,
    Length,
    Bound,
    Status,
    Openings,
    Concat,
    Count,
    Edges(u32),
    Body(u32, u64),
    Done,
}
