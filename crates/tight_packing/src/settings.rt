//! How an exchange goes.

/// How an exchange goes in graphs that are drawn in the plane, and how in others.
#[derive(Clone, Copy)]
pub struct Settings {
    /// Whether an arc that isn't overloaded is charged by how full it is.
    pub charges_all: bool,
    /// A new cut is to be cheaper than all others of its group by one in so many; the greatest number: by anything.
    pub worth: i64,
    /// A group that failed f times in a row to find one looks with chance 1 / (1 + min(f, this)).
    pub most_skips: u32,
    /// The rounding first begins at no greater an overload in units.
    pub most_excess: i64,
    /// Later roundings begin at this overload in units, or before.
    pub least_excess: i64,
    /// In each round of the rounding so many parts of the groups become whole: all are after so many rounds.
    pub rounding_rounds: u32,
    /// Rounds in which all groups are whole; then it is back to the fine phase.
    pub whole_rounds: u32,
    /// The least rounds of a later fine phase.
    pub fine_rounds: u32,
}

impl Settings {
    /// In graphs that are drawn in the plane, as grids are.
    pub const GRIDS: Settings = Settings {
        charges_all: true,
        worth: 16,
        most_skips: 12,
        most_excess: i64::MAX,
        least_excess: 10,
        rounding_rounds: 10,
        whole_rounds: 30,
        fine_rounds: 10,
    };

    /// In other graphs: an edge may be one unit long, and where nothing is charged a flow lives on overloaded arcs
    /// alone.
    pub const GRAPHS: Settings = Settings {
        charges_all: false,
        worth: i64::MAX,
        most_skips: 6,
        most_excess: 2,
        least_excess: 2,
        rounding_rounds: 1,
        whole_rounds: 15,
        fine_rounds: 30,
    };
}
