//! Answers that are read.

use answer_text::{Event, EventReader};
use graph_calls::told::tell_vertices;
use net_graph::VertexSet;
use row_tables::{Call, Fault, Told, narrow};
use std::alloc::Global;

/// The greatest number of bytes that are fed.
const MOST_BYTES: u64 = 1 << 20;

/// What is told of the text under `bytes`, fed byte by byte, where cuts are sets of as many vertices as `vertices`
/// says: its events, or where it stops. Under `piece` may stand what is then fed as digits of a set, as far as it is
/// taken, and else byte by byte.
pub fn read(alloc: Global, call: &Call, told: &mut Told) -> Result<(), Fault> {
    let vertices = narrow(call.number("vertices")?)?;
    let mut reader = EventReader::begin(vertices, VertexSet::empty(alloc, vertices)?);
    tell_read(call, &mut reader, told)
}

// Tells what a reader makes of the bytes, and where it stands in the end.
fn tell_read(call: &Call, reader: &mut EventReader, told: &mut Told) -> Result<(), Fault> {
    feed(reader, call.bytes("bytes")?, told)?;
    if call.has("piece") {
        feed_piece(reader, call.bytes("piece")?, told)?;
    }
    told.value("line ", &reader.line());
    told.value(" fed ", &reader.fed());
    told.line(" ended ", &reader.ended());
    Ok(())
}

// Feeds a piece as digits of a set as far as it is taken, and else byte by byte.
fn feed_piece(reader: &mut EventReader, piece: &[u8], told: &mut Told) -> Result<(), Fault> {
    if piece.len() as u64 > MOST_BYTES || reader.fed() > MOST_BYTES {
        return Err(Fault::NotAllowed);
    }
    let taken = reader.feed_digits(piece);
    told.line("taken ", &taken);
    feed(reader, &piece[taken..], told)
}

// Feeds bytes up to the one that is refused, and tells a line for each event, and for the refusal.
fn feed(reader: &mut EventReader, bytes: &[u8], told: &mut Told) -> Result<(), Fault> {
    for byte in bytes {
        if reader.fed() > MOST_BYTES {
            return Err(Fault::NotAllowed);
        }
        let line = reader.line();
        match reader.feed(*byte) {
            Ok(Some(event)) => tell_event(line, &event, reader.members(), told),
            Ok(None) => {}
            Err(fault) => {
                told.debug_line("", &fault);
                break;
            }
        }
    }
    Ok(())
}

// Tells an event behind its line, and of a cut the members.
fn tell_event(line: u64, event: &Event, members: &VertexSet, told: &mut Told) {
    told.show(&line);
    told.word(" ");
    told.debug(event);
    if matches!(event, Event::Cut(_)) {
        tell_vertices(told, "", members);
    } else {
        told.word("\n");
    }
}
