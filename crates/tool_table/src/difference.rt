//! What came of a row, compared with what it states.

use crate::outcome::Outcome;
use crate::row::{Relation, Row, Wanted};
use row_tables::{Told, tell_difference};
use std::alloc::{AllocError, Global};

/// Adds a line to the report for all that differs, or one that says `ok`, and tells whether nothing differs.
pub fn tell(
    alloc: Global,
    row: &Row,
    came: &Outcome,
    report: &mut Told,
) -> Result<bool, AllocError> {
    let name = row.name.as_str();
    let status_ok = came.status == row.status;
    if !status_ok {
        report.word(name);
        report.value(": status ", &came.status);
        report.line(", wanted ", &row.status);
    }
    let out_ok = tell_stream(alloc, name, "out", &came.out, &row.out, report)?;
    let err_ok = tell_stream(alloc, name, "err", &came.err, &row.err, report)?;
    let is_ok = status_ok && out_ok && err_ok;
    if is_ok {
        report.word(name);
        report.word(": ok\n");
    }
    Ok(is_ok)
}

/// Adds a line where the bytes on a stream are not those that are wanted, with the first difference, or that a text
/// came whole where a part of it was wanted; and tells whether they are.
fn tell_stream(
    alloc: Global,
    name: &str,
    stream: &str,
    came: &[u8],
    wanted: &Wanted,
    report: &mut Told,
) -> Result<bool, AllocError> {
    let text = wanted.text.whole(alloc)?;
    if is_met(wanted.relation, came, &text) {
        return Ok(true);
    }
    report.word(name);
    report.word(": ");
    report.word(stream);
    if came == text.as_slice() {
        report.word(": not cut short\n");
    } else {
        report.word(", ");
        tell_difference(alloc, came, &text, report)?;
    }
    Ok(false)
}

/// Whether the bytes that came stand in a relation to a row's text.
fn is_met(relation: Relation, came: &[u8], text: &[u8]) -> bool {
    match relation {
        Relation::Same => came == text,
        Relation::BeginWith => came.starts_with(text),
        Relation::CutFrom => text.starts_with(came) && came.len() < text.len(),
    }
}
