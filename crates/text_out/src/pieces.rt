//! The pieces that texts are made of. Each is written after what waits in a block, unless the sink has failed.

ghost use Rattle.std.specs.Fmt.{signed_decimal};
ghost use Rattle.text_out.specs.Gathers.{Gathers};

use crate::block::Block;
use itoa::{Buffer, Integer};
use rst_outside::Sink;

/// Writes a text as it stands.
pub fn literal<S: Sink>(block: &mut Block, sink: &mut S, text: &[u8])
    ensures { Gathers (S.state sink.old) block.old text.now (S.state sink.new) block.new }
{
    if block.has_room(text) {
        block.append(text);
    } else {
        block.spill(sink, text);
    }
}

/// Writes an unsigned number in decimal. For a signed one, whose clause is less handy here, see [`signed`].
pub fn number<I: Integer, S: Sink>(block: &mut Block, sink: &mut S, number: I)
    ensures { Gathers (S.state sink.old) block.old (I.text number) (S.state sink.new) block.new }
{
    let mut buffer = Buffer::new();
    literal(block, sink, buffer.format(number).as_bytes());
}

/// Writes a signed number in decimal. It takes a reference, since a clause then names the number as it stands.
pub fn signed<S: Sink>(block: &mut Block, sink: &mut S, number: &i64)
    ensures { Gathers (S.state sink.old) block.old (signed_decimal number.now) (S.state sink.new) block.new }
{
    let mut buffer = Buffer::new();
    literal(block, sink, buffer.format(*number).as_bytes());
}
