//! The outside of the program, as traits whose ghost members say what a contract may know of it.
#![tactic(auto)]

mod adapters;
mod consumer;
mod faults;
mod memory;
mod shelf;
mod sink;
mod source;
mod take;

pub use adapters::{DirShelf, StdSink, StdSource};
pub use consumer::Consumer;
pub use memory::{MemShelf, MemSink, MemSource, ShelfFile, SureSink, SureSource};
pub use shelf::Shelf;
pub use sink::{PutFault, Sink, put_all};
pub use source::{Failed, Source};
pub use take::{FeedFault, TakeFault, feed_all, take_all, take_named};
