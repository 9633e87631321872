//! Lines of texts, and the numbers that their words spell.

use row_tables::{Call, Fault, Told, shown};
use text_in::{LineWords, TextLines, signed_spelled, unsigned_spelled};

/// The lines of the text under `bytes` by their numbers, the words of each with the numbers that they spell, and the
/// number of the line where no whole one is left.
pub(crate) fn lines(call: &Call, told: &mut Told) -> Result<(), Fault> {
    let text = call.bytes("bytes")?;
    let mut lines = TextLines::of(text);
    for _ in 0..text.len() {
        let number = lines.number();
        let Some(words) = lines.next_line() else {
            break;
        };
        told.line("line ", &number);
        tell_words(words, told)?;
    }
    told.value("line ", &lines.number());
    told.word(if lines.is_ended() {
        " ended\n"
    } else {
        " cut\n"
    });
    Ok(())
}

// Tells the words of a line, each with the number that it spells as an unsigned one, as a count, and as a signed one.
fn tell_words(mut words: LineWords<'_>, told: &mut Told) -> Result<(), Fault> {
    for _ in 0..u64::MAX {
        let Some(word) = words.next_word() else {
            break;
        };
        told.debug(&shown(word)?);
        told.word(" ");
        told.debug(&unsigned_spelled(word));
        told.word(" ");
        told.debug(&LineWords::of(word).next_count());
        told.debug_line(" ", &signed_spelled(word));
    }
    Ok(())
}
