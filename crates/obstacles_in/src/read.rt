//! Reading points and boxes.

ghost use Rattle.std.specs.Prelude.{Ok, Err, IfOk, IfErr};
ghost use Rattle.section_text.specs.Judged.{IsOutcome, IsFirstFault, Answers};
ghost use Rattle.obstacles_in.specs.declared.fault.ObstacleFault.{ObstacleFault};
ghost use Rattle.obstacles_in.specs.Obstacles.{ObstaclesValue};
ghost use Rattle.obstacles_in.specs.Format.{obstacles_format};
ghost use Rattle.obstacles_in.specs.Text.{SpellsObstacles};

use crate::fault::ObstacleFault;
use crate::format::ObstaclesFormat;
use crate::obstacles::Obstacles;
use section_text::read_sections;
use std::alloc::Global;

/// Reads a text of points and boxes: its value, where the bytes spell one, or else its first fault. Want of memory may
/// come anywhere.
#[tactic(auto, using(crate::specs::TextLaws::spelled_obstacles, crate::specs::TextLaws::obstacles_spelled))]
pub fn read_obstacles(alloc: Global, bytes: &[u8]) -> Result<Obstacles, ObstacleFault>
    // What is read is spelled so, each byte of it, and a fault is the first one.
    ensures spelled { IfOk result (SpellsObstacles bytes.now) }
    ensures fault { IfErr result (IsFirstFault obstacles_format bytes.now) }
    // What is spelled so is read, and a first fault is told, unless memory runs out.
    ensures only { (v : ObstaclesValue) → SpellsObstacles bytes.now v → Answers obstacles_format result (Ok v) }
    ensures only_fault { (f : ObstacleFault) → IsOutcome obstacles_format bytes.now (Err f)
        → Answers obstacles_format result (Err f) }
{
    read_sections::<ObstaclesFormat>(alloc, bytes)
}
