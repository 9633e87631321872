//! Whether bytes are an answer's text.

ghost use Rattle.std.specs.Prelude.{ℕ, ◌≡◌, ◌+◌, ◌<◌, ◌≤◌, ◌^◌, List, ◌++◌, length, take, IfOk, IfErr};
ghost use Rattle.answer_text.specs.Reader.{bytes_fed};
ghost use Rattle.answer_upgrade.specs.Spelling.{IsReading, Stops, TellsSpelling};

use crate::told::Spelled;
use answer_text::{EventReader, Spelling};
use net_graph::VertexSet;
use std::alloc::{AllocError, Global};

/// Tells whether the bytes are the text of an answer on a grid, for cuts that are sets of so many vertices. An `Err`
/// comes for want of memory alone: it takes that of one set.
pub fn spelled(alloc: Global, vertices: u32, bytes: &[u8]) -> Result<Spelled, AllocError>
    requires { length bytes.now < 2 ^ 32 }
    ensures { IfOk result (TellsSpelling vertices bytes.now) }
{
    let mut reader = EventReader::begin(vertices, VertexSet::empty(alloc, vertices)?);
    let mut rest = bytes;
    while !rest.is_empty() {
        match feed_some(&mut reader, rest) {
            Ok(taken) => rest = &rest[taken..],
            Err(fault) => return Ok(Spelled::Fault { line: fault.line }),
        }
    }
    let line = reader.line();
    if reader.ended() {
        Ok(Spelled::Whole {
            version: reader.version(),
        })
    } else {
        Ok(Spelled::Fault { line })
    }
}

// Feeds the first of these bytes, or as many of them as are digits of the set that is due, and gives how many.
fn feed_some(reader: &mut EventReader, piece: &[u8]) -> Result<usize, Spelling>
    requires some { 0 < length piece.now }
    requires room { bytes_fed reader.old + length piece.now < 2 ^ 32 }
    ensures some { IfOk result (λ taken. 0 < taken) }
    ensures few { IfOk result (λ taken. taken ≤ length piece.now) }
    ensures fed { IfOk result (λ taken. bytes_fed reader.new ≡ bytes_fed reader.old + taken) }
    ensures reads { IfOk result (λ taken. (V : ℕ) (bytes : List ℕ) → IsReading V bytes reader.old →
        IsReading V (bytes ++ take taken piece.now) reader.new) }
    ensures stops { IfErr result (λ fault. (V : ℕ) (bytes : List ℕ) → IsReading V bytes reader.old →
        Stops V (bytes ++ piece.now) fault.line) }
{
    let digits = reader.feed_digits(piece);
    if digits > 0 {
        return Ok(digits);
    }
    let _event = reader.feed(piece[0])?;
    Ok(1)
}
