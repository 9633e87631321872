//! The four directions.

/// A direction along one of the axes.
#[derive(Clone, Copy)]
pub enum Way {
    /// Towards greater x.
    East,
    /// Towards greater y.
    North,
    /// Towards smaller x.
    West,
    /// Towards smaller y.
    South,
}
