//! Changes of a text that was stated.

use crate::call::shown;
use crate::counting::count;
use crate::fault::Fault;
use crate::section::Section;
use crate::text::Text;
use std::alloc::{AllocError, Global};

/// Changes a text as a section says: other lines in place of one, a line feed more or less at its end, or the text
/// several times.
pub fn change(alloc: Global, text: &mut Text, section: &Section<'_>) -> Result<(), Fault> {
    match section.key {
        "line" => change_line(alloc, text, section),
        "times" => repeat(text, section.argument),
        "line_feed" => Ok(text.bytes.push(b'\n')?),
        "no_line_feed" => take_line_feed(text),
        _ => Err(Fault::UnknownMarker),
    }
}

/// Has the text stand as often as a word says.
fn repeat(text: &mut Text, word: &str) -> Result<(), Fault> {
    text.times = count(word)?;
    Ok(())
}

/// Takes the line feed at the end.
fn take_line_feed(text: &mut Text) -> Result<(), Fault> {
    if text.bytes.pop() != Some(b'\n') {
        return Err(Fault::NoSuchLine);
    }
    Ok(())
}

/// Puts the lines of a section in place of the one with the number that its marker says, counted from 1.
fn change_line(alloc: Global, text: &mut Text, section: &Section<'_>) -> Result<(), Fault> {
    let number = count(section.argument)?;
    let mut made = Vec::new(alloc);
    let lines = copy_lines(&mut made, shown(&text.bytes)?, number, &section.text)?;
    if number == 0 || lines < number {
        return Err(Fault::NoSuchLine);
    }
    text.bytes = made;
    Ok(())
}

/// Copies the lines of a text, others in place of the one with this number, and tells how many it has.
fn copy_lines(
    made: &mut Vec<u8>,
    text: &str,
    number: usize,
    others: &[u8],
) -> Result<usize, AllocError> {
    let mut at: usize = 0;
    for line in text.split_inclusive('\n') {
        at = at.saturating_add(1);
        made.extend_from_slice(if at == number {
            others
        } else {
            line.as_bytes()
        })?;
    }
    Ok(at)
}
