//! Whole sources and files, read to their end.

mod feed;
mod shelf;
mod source;

pub use feed::{FeedFault, feed_all};
pub use shelf::take_named;
pub use source::take_all;
use std::alloc::AllocError;

/// How many bytes are asked for at once.
const BLOCK: usize = 4096;

/// Why a source or a file was not taken whole.
#[derive(Clone, Copy, Debug)]
pub enum TakeFault {
    /// A read failed.
    Failed,
    /// More bytes came than were allowed.
    TooLong,
    /// Memory ran out.
    Memory(AllocError),
}
