//! Lists of drawn points.

ghost use Rattle.std.specs.Prelude.{◌≡◌};
ghost use Rattle.drawn_points.specs.Drawn.{AreDrawn};

use points_in::Point;
use std::marker::Model;

/// 1 to 50 points with coordinates from 0 to 9999, in the order in which they were drawn. A point may stand in it more
/// than once. Contracts see the list of the points.
#[derive(Drop)]
pub struct Drawn {
    pub(crate) items: Vec<Point>,
}

impl Model for Drawn {
    ghost use Rattle.std.specs.Prelude.{List};
    ghost use Rattle.points_in.specs.declared.point.Point.{Point};
    ghost use Rattle.drawn_points.specs.Drawn.{AreDrawn};

    ghost Value = { List Point };

    ghost view = { λ d. d.items.items };

    ghost invariant = { λ d. AreDrawn d.items.items };
}

impl Drawn {
    /// The points in their order. All else is asked of the slice.
    pub fn as_slice(&self) -> &[Point]
        ensures points { result.now ≡ self.now }
        ensures drawn { AreDrawn self.now }
    {
        self.items.as_slice()
    }
}
