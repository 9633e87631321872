//! Inputs and files that are read whole, within a limit.

ghost use Rattle.std.specs.Prelude.{◌≡◌, ◌<◌, length};
ghost use Rattle.text_out.specs.Gathers.{Gathers};
ghost use Rattle.tool_frame.specs.Stops.{IfFound};
ghost use Rattle.tool_frame.specs.Taking.{TakesInput, FeedsInput, TakesSome, TakesFile, KeepsFiles};
ghost use Rattle.tool_frame.specs.FaultTexts.{input_fault_text, input_fault_status, file_fault_text, file_fault_status, too_long_text};

use crate::fault::Fault;
use crate::status::FaultStatus;
use crate::stop::Stop;
use rst_outside::{
    Consumer, FeedFault, Shelf, Sink, Source, TakeFault, feed_all, take_all, take_named,
};
use std::alloc::Global;
use text_out::{Block, literal, number};

/// The greatest number of bytes of a text that is taken whole.
pub const TEXT_LIMIT: u64 = 1 << 26;

/// Why an input is not taken whole.
#[derive(Clone, Copy)]
pub enum InputFault {
    /// A read failed.
    Unread,
    /// It has more than this number of bytes.
    TooLong { limit: u64 },
}

/// Why a file is not taken whole.
#[derive(Clone, Copy)]
pub enum FileFault {
    /// A read failed.
    Unread,
    /// It has more than this number of bytes.
    TooLong { limit: u64 },
}

/// All bytes of the input, of which there may be `limit`.
pub fn whole_input<I: Source>(
    alloc: Global,
    input: &mut I,
    limit: u64,
) -> Result<Vec<u8>, Stop<InputFault>>
    ensures takes { IfFound result (TakesInput limit (I.state input.old) (I.state input.new)) }
    ensures some { TakesSome (I.state input.old) (I.state input.new) }
{
    take_all(alloc, input, limit).map_err(|fault| match fault {
        TakeFault::Failed => Stop::Fault(InputFault::Unread),
        TakeFault::TooLong => Stop::Fault(InputFault::TooLong { limit }),
        TakeFault::Memory(error) => Stop::Memory(error),
    })
}

/// Feeds the consumer all bytes of the input, of which there may be `limit`, by way of the buffer. It takes no memory.
pub fn feed_input<I: Source, C: Consumer>(
    input: &mut I,
    buffer: &mut [u8],
    consumer: &mut C,
    limit: u64,
) -> Result<(), InputFault>
    requires { 0 < length buffer.old }
    ensures feeds { FeedsInput C.stands limit (I.state input.old) (I.state input.new) consumer.old consumer.new result }
    ensures some { TakesSome (I.state input.old) (I.state input.new) }
{
    feed_all(input, buffer, consumer, limit).map_err(|fault| match fault {
        FeedFault::Failed => InputFault::Unread,
        FeedFault::TooLong => InputFault::TooLong { limit },
    })
}

/// All bytes of the file of this name, of which there may be `limit`.
pub fn whole_file<S: Shelf>(
    alloc: Global,
    shelf: &mut S,
    name: &str,
    limit: u64,
) -> Result<Vec<u8>, Stop<FileFault>>
    ensures takes { IfFound result (TakesFile limit (S.state shelf.old) (S.state shelf.new) name.now) }
    ensures files { KeepsFiles (S.state shelf.old) (S.state shelf.new) }
{
    take_named(alloc, shelf, name, limit).map_err(|fault| match fault {
        TakeFault::Failed => Stop::Fault(FileFault::Unread),
        TakeFault::TooLong => Stop::Fault(FileFault::TooLong { limit }),
        TakeFault::Memory(error) => Stop::Memory(error),
    })
}

impl Fault for InputFault {
    ghost text = { input_fault_text };

    ghost status = { input_fault_status };

    fn status(&self) -> FaultStatus {
        match self {
            InputFault::Unread => FaultStatus::Unread,
            InputFault::TooLong { .. } => FaultStatus::TooLarge,
        }
    }

    fn write<R: Sink>(&self, block: &mut Block, err: &mut R) {
        match self {
            InputFault::Unread => literal(block, err, b"cannot read input"),
            InputFault::TooLong { limit } => write_too_long(block, err, *limit),
        }
    }
}

impl FileFault {
    /// The status that a tool ends with which reads the file.
    pub fn status(&self) -> FaultStatus
        ensures { result ≡ file_fault_status self.now }
    {
        match self {
            FileFault::Unread => FaultStatus::Unread,
            FileFault::TooLong { .. } => FaultStatus::TooLarge,
        }
    }

    /// Writes what is said of it, of which the last bytes wait in the block, where the file is to hold what the words
    /// say.
    #[tactic(auto, using(text_out::specs::GatherLaws::pieces))]
    pub fn write<R: Sink>(&self, block: &mut Block, err: &mut R, content: &[u8])
        ensures { Gathers (R.state err.old) block.old (file_fault_text content.now self.now)
            (R.state err.new) block.new }
    {
        match self {
            FileFault::Unread => {
                literal(block, err, b"cannot read ");
                literal(block, err, content);
            }
            FileFault::TooLong { limit } => write_too_long(block, err, *limit),
        }
    }
}

// What is said of too many bytes.
#[tactic(auto, using(text_out::specs::GatherLaws::pieces))]
fn write_too_long<R: Sink>(block: &mut Block, err: &mut R, limit: u64)
    ensures { Gathers (R.state err.old) block.old (too_long_text limit) (R.state err.new) block.new }
{
    literal(block, err, b"more than ");
    number(block, err, limit);
    literal(block, err, b" bytes");
}
