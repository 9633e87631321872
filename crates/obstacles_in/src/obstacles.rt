//! Points and the boxes around which they are joined.

ghost use Rattle.std.specs.Prelude.{◌≡◌};
ghost use Rattle.obstacles_in.specs.Obstacles.{AreObstacles};

use crate::rectangle::Rectangle;
use lists::ItemList;
use points_in::Points;
use std::marker::Model;

/// 1 to 50 distinct points, and at most 25 boxes of some width and height, with no point strictly inside a box. Boxes
/// may overlap, touch and contain one another. The lines through the points and along the sides of the boxes cross in
/// at most 2,500 places. Contracts see the list of the points and the list of the boxes. It is made by
/// `read_obstacles` alone.
#[derive(Drop)]
pub struct Obstacles {
    pub(crate) points: Points,
    pub(crate) boxes: ItemList<Rectangle>,
}

impl Model for Obstacles {
    ghost use Rattle.obstacles_in.specs.Obstacles.{ObstaclesValue, AreObstacles};

    ghost Value = { ObstaclesValue };

    ghost view = { λ o. record { points = o.points; boxes = o.boxes } };

    ghost invariant = { λ o. AreObstacles (record { points = o.points; boxes = o.boxes }) };
}

impl Obstacles {
    /// The points, in the order of the text.
    pub fn points(&self) -> &Points
        ensures points { result.now ≡ self.now.points }
        ensures obstacles { AreObstacles self.now }
    {
        &self.points
    }

    /// The boxes, in the order of the text.
    pub fn boxes(&self) -> &[Rectangle]
        ensures boxes { result.now ≡ self.now.boxes }
        ensures obstacles { AreObstacles self.now }
    {
        self.boxes.as_slice()
    }
}
