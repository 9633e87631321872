//! The system's own streams and files as a source, sinks and a shelf. No contract says what the system gives or
//! takes, so they tell no contents, but only how many calls failed.

mod shelf;
mod sink;
mod source;

pub use shelf::DirShelf;
pub use sink::StdSink;
pub use source::StdSource;
