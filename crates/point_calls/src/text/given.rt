//! What rows give to sources and sinks in memory, and what these have in the end.

ghost use Rattle.std.specs.Prelude.{◌≤◌, IfOk};

use row_tables::{Call, Fault, count, shown};
use rst_outside::{MemSink, MemSource};
use std::alloc::Global;
use text_in::FormatFault;
use text_out::{Block, finish};

/// How many bytes a sink takes where the row doesn't say it.
const ROOM: usize = 1 << 16;

/// A source of the bytes under `bytes`, in steps of `step`, that fails at the calls under `failing`.
pub(crate) fn source(alloc: Global, call: &Call) -> Result<MemSource, Fault> {
    let bytes = Vec::from_slice(alloc, call.bytes("bytes")?)?;
    Ok(MemSource::new(bytes, step(call)?, failing(alloc, call)?))
}

/// A sink with the room under `room`, that takes steps of `step`, and fails at the calls under `failing`.
pub(crate) fn sink(alloc: Global, call: &Call) -> Result<MemSink, Fault> {
    let room = if call.has("room") {
        count(call.word("room")?)?
    } else {
        ROOM
    };
    Ok(MemSink::with_room(alloc, room, step(call)?, failing(alloc, call)?)?)
}

/// What is said of a fault of a text. An `Err` may be want of memory, its own or that of the reader.
pub fn said_of<F: FormatFault + Drop>(alloc: Global, fault: F) -> Result<String, Fault> {
    let fault = fault.of_text()?;
    let mut sink = MemSink::with_room(alloc, ROOM, ROOM, Vec::new(alloc))?;
    let mut block = Block::new();
    fault.write(&mut block, &mut sink);
    let _ = finish(block, &mut sink);
    Ok(String::from_str(alloc, shown(sink.bytes())?)?)
}

// The step of a row: 1 or more, and 4096 where it says none.
fn step(call: &Call) -> Result<usize, Fault>
    ensures { IfOk result (λ step. 1 ≤ step) }
{
    if !call.has("step") {
        return Ok(4096);
    }
    let step = count(call.word("step")?)?;
    Ok(step.max(1))
}

// The calls that fail, by their numbers, counted from 0.
fn failing(alloc: Global, call: &Call) -> Result<Vec<u64>, Fault> {
    if call.has("failing") {
        call.numbers(alloc, "failing")
    } else {
        Ok(Vec::new(alloc))
    }
}
