//! Sources, sinks and a shelf in memory, which fail at stated calls or never.

mod copy;
mod plan;
mod shelf;
mod sink;
mod source;
mod sure;

pub use shelf::{MemShelf, ShelfFile};
pub use sink::MemSink;
pub use source::MemSource;
pub use sure::{SureSink, SureSource};
