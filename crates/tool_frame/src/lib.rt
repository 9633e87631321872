//! What every tool of the program shares: how a run ends, what is read whole, and what is said on `err`.
#![tactic(auto)]

mod answer;
mod ending;
mod fault;
mod format;
mod points;
mod reports;
mod status;
mod stop;
mod take;
mod text_fault;
mod text_tool;

pub use answer::Answer;
pub use ending::{end_found, end_refused, end_starved, end_written};
pub use fault::Fault;
pub use format::faults_apart;
pub use points::{ListFault, PointsFault, grid_in, grid_in_file};
pub use reports::report;
pub use status::{AnswerStatus, FaultStatus, MISUSED, NO_MEMORY, UNWRITTEN};
pub use stop::{Stop, within};
pub use take::{FileFault, InputFault, TEXT_LIMIT, feed_input, whole_file, whole_input};
pub use text_fault::TextFault;
pub use text_tool::{TextTool, run_on_text};
