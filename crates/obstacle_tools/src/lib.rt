//! The tool for points with rectangles around which they are joined: the graph of their grid without the edges that run
//! through a rectangle, an answer in it, or the graph itself as an STP file.
#![tactic(auto)]

mod around;
mod graph_file;
mod reading;
mod text_fault;

pub use around::obstacles;
pub use graph_file::GraphFile;
pub use reading::around_has_no_fault;
pub use text_fault::ObstacleTextFault;
