//! The file between the phases: points and full trees of them as a text, both ways.
#![tactic(auto)]

mod fault;
mod file;
mod format;
mod read;
mod tree_line;
mod trees;
mod write;

pub use fault::FstFault;
pub use file::FstFile;
pub use format::{FstFormat, MAX_TREES};
pub use read::read_file;
pub use write::write_file;
