//! Points to be joined around rectangles whose interiors no wire may cross, and the text that lists them.
#![tactic(auto)]

mod boxes;
mod fault;
mod format;
mod obstacles;
mod read;
mod rectangle;
mod size;

pub use fault::ObstacleFault;
pub use format::ObstaclesFormat;
pub use obstacles::Obstacles;
pub use read::read_obstacles;
pub use rectangle::Rectangle;
