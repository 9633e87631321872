//! Where bytes differ from those that a row states.

use crate::told::Told;
use std::alloc::{AllocError, Global};

/// Tells the line with the first byte in which the bytes that came differ from a text.
pub fn tell_difference(
    alloc: Global,
    came: &[u8],
    wanted: &[u8],
    report: &mut Told,
) -> Result<(), AllocError> {
    let (number, start) = same_lines(came, wanted);
    let came = String::from_utf8_lossy(alloc, line_from(came, start))?;
    let wanted = String::from_utf8_lossy(alloc, line_from(wanted, start))?;
    report.value("line ", &number);
    report.word(": ");
    report.debug(&came);
    report.debug_line(", wanted ", &wanted);
    Ok(())
}

/// The number, counted from 1, of the line in which two texts first differ, and the place where it begins in both.
fn same_lines(a: &[u8], b: &[u8]) -> (usize, usize) {
    let mut number: usize = 1;
    let mut start = 0;
    for place in 0..a.len().min(b.len()) {
        if a[place] != b[place] {
            break;
        }
        if a[place] == b'\n' {
            number = number.saturating_add(1);
            start = place + 1;
        }
    }
    (number, start)
}

/// The line that begins at a place.
fn line_from(text: &[u8], start: usize) -> &[u8] {
    for place in start..text.len() {
        if text[place] == b'\n' {
            return &text[start..place + 1];
        }
    }
    &text[start.min(text.len())..]
}
