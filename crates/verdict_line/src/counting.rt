//! From which number edges and vertices count.

ghost use Rattle.std.specs.Prelude.{◌≡◌};
ghost use Rattle.verdict_line.specs.Verdicts.{counted};

/// From which number the edges and the vertices count that a line tells.
#[derive(Clone, Copy)]
pub enum Counting {
    /// From 0, as in the grid of points.
    FromZero,
    /// From 1, as in an STP file.
    FromOne,
}

impl Counting {
    /// What is told of the edge or the vertex that has this number when they count from 0.
    pub(crate) fn told(self, number: u32) -> u64
        ensures { result ≡ counted self number }
    {
        match self {
            Counting::FromZero => u64::from(number),
            Counting::FromOne => u64::from(number) + 1,
        }
    }
}
