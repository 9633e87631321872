//! Rows that are run with many texts in place of one: a text cut at each byte, and one with other bytes in it.

use crate::outcome::{Outcome, outcome_on, shelf_files};
use crate::row::{Row, Variants, Variation, Varied};
use row_tables::{NamedText, Told};
use rst_outside::ShelfFile;
use std::alloc::{AllocError, Global};

/// Runs a row with each of the texts that come of one, adds a line to the report for each that ends otherwise than it
/// may, or one that says `ok` and how many texts there were, and tells whether all ended as they may.
pub fn tell_variants(
    alloc: Global,
    row: &Row,
    variants: &Variants,
    report: &mut Told,
) -> Result<bool, AllocError> {
    let text = varied_text(alloc, row, variants.varied)?;
    let count = count_of(variants.variation, text.len());
    let all_well = tell_all(alloc, row, variants, &text, count, report)?;
    if all_well {
        report.word(row.name.as_str());
        report.value(": ok, ", &count);
        report.word(" texts\n");
    }
    Ok(all_well)
}

/// Runs a row with so many of the texts that come of one, and tells whether all ended as they may.
fn tell_all(
    alloc: Global,
    row: &Row,
    variants: &Variants,
    text: &[u8],
    count: usize,
    report: &mut Told,
) -> Result<bool, AllocError> {
    let mut all_well = true;
    for number in 0..count {
        let is_well = tell_one(alloc, row, variants, text, number, report)?;
        all_well = all_well && is_well;
    }
    Ok(all_well)
}

/// Runs a row with the text of this number, adds a line where it ends otherwise than it may, and tells whether it
/// does not.
fn tell_one(
    alloc: Global,
    row: &Row,
    variants: &Variants,
    text: &[u8],
    number: usize,
    report: &mut Told,
) -> Result<bool, AllocError> {
    let came = outcome_with(alloc, row, variants, text, number)?;
    if may_come(&came, &variants.statuses) {
        return Ok(true);
    }
    report.word(row.name.as_str());
    report.value(": text ", &number);
    report.value(": status ", &came.status);
    report.word(", or what it printed\n");
    Ok(false)
}

/// The text that is varied.
fn varied_text(alloc: Global, row: &Row, varied: Varied) -> Result<Vec<u8>, AllocError> {
    match (varied, row.files.last()) {
        (Varied::File, Some(file)) => file.text.whole(alloc),
        _ => row.input.whole(alloc),
    }
}

/// How many texts come of one of so many bytes.
fn count_of(variation: Variation, len: usize) -> usize {
    match variation {
        Variation::Cuts => len,
        Variation::Bytes => len.saturating_mul(256),
    }
}

/// The text of this number that comes of one.
fn variant(
    alloc: Global,
    text: &[u8],
    variation: Variation,
    number: usize,
) -> Result<Vec<u8>, AllocError> {
    match variation {
        Variation::Cuts => Vec::from_slice(alloc, &text[..number.min(text.len())]),
        Variation::Bytes => {
            let mut made = Vec::from_slice(alloc, text)?;
            if let Some(byte) = made.get_mut(number / 256) {
                *byte = (number % 256) as u8;
            }
            Ok(made)
        }
    }
}

/// The run of a row with the text of this number in its place.
fn outcome_with(
    alloc: Global,
    row: &Row,
    variants: &Variants,
    text: &[u8],
    number: usize,
) -> Result<Outcome, AllocError> {
    let made = variant(alloc, text, variants.variation, number)?;
    match variants.varied {
        Varied::Input => outcome_on(alloc, row, made, shelf_files(alloc, &row.files)?),
        Varied::File => {
            let files = files_with(alloc, &row.files, made)?;
            outcome_on(alloc, row, row.input.whole(alloc)?, files)
        }
    }
}

/// The files of a row for the shelf, the last one with these bytes.
fn files_with(
    alloc: Global,
    files: &[NamedText],
    bytes: Vec<u8>,
) -> Result<Vec<ShelfFile>, AllocError> {
    let mut made = shelf_files(alloc, files)?;
    if let Some(last) = made.last_mut() {
        last.bytes = bytes;
    }
    Ok(made)
}

/// Whether a run ended as it may: with one of the statuses, and with a text on `out` alone where it is a result, and
/// with one line on `err` alone where it is a refusal.
fn may_come(came: &Outcome, statuses: &[u64]) -> bool {
    let is_result = matches!(came.status, 0 | 1 | 3);
    let is_told = if is_result {
        !came.out.is_empty() && came.err.is_empty()
    } else {
        came.out.is_empty() && is_refusal(&came.err)
    };
    is_told && statuses.contains(&u64::from(came.status))
}

/// Whether the bytes are one line that says what was refused.
fn is_refusal(err: &[u8]) -> bool {
    err.starts_with(b"rst: ")
        && err.iter().position(|byte| *byte == b'\n') == err.len().checked_sub(1)
}
