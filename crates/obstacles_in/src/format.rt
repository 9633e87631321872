//! What the text has of its own among the texts of sections.

ghost use Rattle.std.specs.Prelude.{◌≡◌, ◌≤◌, length, IfOk, IfErr, OnOk};
ghost use Rattle.obstacles_in.specs.Format.{obstacles_format};

use crate::boxes::{box_fault, coordinates_in};
use crate::fault::ObstacleFault;
use crate::obstacles::Obstacles;
use crate::rectangle::Rectangle;
use crate::size::sized;
use lists::ItemList;
use points_in::Points;
use section_text::{LineFault, SectionFormat};
use std::alloc::{AllocError, Global};
use text_in::LineWords;

// How many boxes a text lists at most.
const MAX_BOXES: u32 = 25;

/// The format of the text: its items are boxes, which are judged by the points.
pub struct ObstaclesFormat;

impl SectionFormat for ObstaclesFormat {
    type Item = Rectangle;

    type Basis = Points;

    type Whole = Obstacles;

    type Fault = ObstacleFault;

    ghost format = { obstacles_format };

    ghost points_of = { λ points. points };

    fn lawful() {}

    fn title() -> &'static [u8] {
        b"rst obstacles 1"
    }

    fn kind() -> &'static [u8] {
        b"boxes"
    }

    fn most() -> u32 {
        MAX_BOXES
    }

    fn fault(fault: LineFault) -> ObstacleFault {
        match fault {
            LineFault::BadLine(line) => ObstacleFault::BadLine(line),
            LineFault::TooManyPoints(line) => ObstacleFault::TooManyPoints(line),
            LineFault::RepeatedPoint(line) => ObstacleFault::RepeatedPoint(line),
            LineFault::TooManyItems(line) => ObstacleFault::TooManyBoxes(line),
        }
    }

    fn of_memory(error: AllocError) -> ObstacleFault {
        ObstacleFault::Memory(error)
    }

    fn basis(_alloc: Global, points: Points) -> Result<Points, ObstacleFault> {
        Ok(points)
    }

    fn item(
        _alloc: Global,
        points: &Points,
        _boxes: &ItemList<Rectangle>,
        line: u64,
        words: &mut LineWords<'_>,
    ) -> Result<Rectangle, ObstacleFault> {
        let Some(rectangle) = coordinates_in(words) else {
            return Err(ObstacleFault::BadLine(line));
        };
        match box_fault(points, line, rectangle) {
            Some(fault) => Err(fault),
            None => Ok(rectangle),
        }
    }

    fn whole(
        alloc: Global,
        points: Points,
        boxes: ItemList<Rectangle>,
    ) -> Result<Obstacles, ObstacleFault>
        requires fit { obstacles_format.PointsFit points }
        requires few { length boxes ≤ obstacles_format.most }
        requires items { obstacles_format.AreItems points boxes }
        ensures value { IfOk result (λ whole. whole ≡ obstacles_format.value_of points boxes) }
        ensures whole { OnOk result (obstacles_format.IsWhole points boxes) }
        ensures err { IfErr result (λ f. (obstacles_format.IsMemory f → ⊥)
            → obstacles_format.IsWholeFault points boxes f) }
    {
        sized(alloc, points, boxes)
    }
}
