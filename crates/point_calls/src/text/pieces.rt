//! Texts written piece by piece.

use crate::text::given::sink as given_sink;
use row_tables::{Call, Fault, Told, number as number_of, shown, signed as signed_of};
use rst_outside::MemSink;
use std::alloc::Global;
use text_out::{Block, finish, literal, number, signed};

/// What a sink has of a text whose pieces stand under `literal`, `number` and `signed`, and whether it was cut short.
pub(crate) fn pieces(alloc: Global, call: &Call, told: &mut Told) -> Result<(), Fault> {
    let mut sink = given_sink(alloc, call)?;
    let mut block = Block::new();
    for piece in &call.arguments {
        write_piece(
            &mut block,
            &mut sink,
            piece.name.as_str(),
            &piece.text.bytes,
        )?;
    }
    let written = finish(block, &mut sink);
    told.word(shown(sink.bytes())?);
    if written.is_err() {
        told.word(" is cut short\n");
    }
    Ok(())
}

// Writes the piece that stands under this key, if one does.
fn write_piece(
    block: &mut Block,
    sink: &mut MemSink,
    key: &str,
    bytes: &[u8],
) -> Result<(), Fault> {
    match key {
        "literal" => literal(block, sink, bytes),
        "number" => number(block, sink, number_of(shown(bytes)?.trim_end())?),
        "signed" => signed(block, sink, &signed_of(shown(bytes)?.trim_end())?),
        _ => (),
    }
    Ok(())
}
