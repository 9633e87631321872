//! A table cut into sections: a marker line, and the lines behind it.

use crate::fault::{Fault, TableFault};
use crate::texts::first_word;
use std::alloc::{AllocError, Global};

/// A marker line, and the text of the lines up to the next one.
#[derive(Drop)]
pub struct Section<'t> {
    /// The number of the marker line, counted from 1.
    pub line: usize,
    /// The word behind its `@`.
    pub key: &'t str,
    /// What stands behind the blank that follows the word.
    pub argument: &'t str,
    /// The lines behind it, without the empty ones at their end.
    pub text: Vec<u8>,
    /// How many empty lines came since the last line of the text.
    empty_lines: usize,
}

/// Cuts a table into its sections. Before the first one only empty lines and comments stand.
pub fn sections_of<'t>(alloc: Global, table: &'t str) -> Result<Vec<Section<'t>>, TableFault> {
    let mut sections: Vec<Section<'t>> = Vec::new(alloc);
    let mut number: usize = 0;
    for line in table.split_inclusive('\n') {
        number = number.saturating_add(1);
        if let Err(fault) = add_line(alloc, &mut sections, number, line) {
            return Err(fault.at(number));
        }
    }
    Ok(sections)
}

/// Adds a line: as the marker of a new section, or to the text of the last one. A text's line that begins with `@`
/// has one more in the table.
fn add_line<'t>(
    alloc: Global,
    sections: &mut Vec<Section<'t>>,
    number: usize,
    line: &'t str,
) -> Result<(), Fault> {
    let text = match line.strip_prefix('@') {
        None => line,
        Some(rest) if rest.starts_with('@') => rest,
        Some(marker) => return add_marker(alloc, sections, number, marker),
    };
    match sections.last_mut() {
        Some(section) => add_text(section, text),
        None if text == "\n" => Ok(()),
        None => Err(Fault::StrayLines),
    }
}

/// Adds a section with this marker. One without a key is a comment.
fn add_marker<'t>(
    alloc: Global,
    sections: &mut Vec<Section<'t>>,
    line: usize,
    marker: &'t str,
) -> Result<(), Fault> {
    let (key, argument) = first_word(marker.strip_suffix('\n').unwrap_or(marker));
    if key.is_empty() {
        return Ok(());
    }
    Ok(sections.push(Section {
        line,
        key,
        argument,
        text: Vec::new(alloc),
        empty_lines: 0,
    })?)
}

/// Adds a line to the text of a section, an empty one only once another line follows it.
fn add_text(section: &mut Section<'_>, line: &str) -> Result<(), Fault> {
    if line == "\n" {
        section.empty_lines = section.empty_lines.saturating_add(1);
        return Ok(());
    }
    add_line_feeds(&mut section.text, section.empty_lines)?;
    section.empty_lines = 0;
    Ok(section.text.extend_from_slice(line.as_bytes())?)
}

/// Adds so many line feeds.
fn add_line_feeds(text: &mut Vec<u8>, count: usize) -> Result<(), AllocError> {
    for _ in 0..count {
        text.push(b'\n')?;
    }
    Ok(())
}
