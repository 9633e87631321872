//! The run of a row.

use crate::row::Row;
use row_tables::NamedText;
use rst_outside::{MemShelf, MemSink, MemSource, ShelfFile};
use std::alloc::{AllocError, Global};
use suite::run;

/// What a run left behind.
#[derive(Drop)]
pub struct Outcome {
    pub status: u8,
    pub out: Vec<u8>,
    pub err: Vec<u8>,
}

/// How many bytes `err` takes.
const ERR_ROOM: usize = 1 << 12;

/// Runs a row over a source, sinks and a shelf in memory, which fail as its plan says.
pub fn outcome_of(alloc: Global, row: &Row) -> Result<Outcome, AllocError> {
    outcome_on(
        alloc,
        row,
        row.input.whole(alloc)?,
        shelf_files(alloc, &row.files)?,
    )
}

/// Runs a row with this input and these files in place of its own.
pub fn outcome_on(
    alloc: Global,
    row: &Row,
    input: Vec<u8>,
    files: Vec<ShelfFile>,
) -> Result<Outcome, AllocError> {
    let reads = Vec::from_slice(alloc, &row.plan.failing_reads)?;
    let mut input = MemSource::new(input, row.plan.step.max(1), reads);
    let mut shelf = MemShelf::new(files, Vec::from_slice(alloc, &row.plan.failing_files)?);
    outcome_over(alloc, row, &mut input, &mut shelf)
}

/// Runs a row over a source and a shelf.
fn outcome_over(
    alloc: Global,
    row: &Row,
    input: &mut MemSource,
    shelf: &mut MemShelf,
) -> Result<Outcome, AllocError> {
    let plan = &row.plan;
    let mut out = sink(alloc, plan.room, plan.step, &plan.failing_writes)?;
    let mut err = sink(alloc, ERR_ROOM, plan.step, &plan.failing_reports)?;
    let status = run(
        alloc,
        row.words.as_slice(),
        input,
        &mut out,
        &mut err,
        shelf,
    );
    left_behind(alloc, status, &out, &err)
}

/// A sink with so much room, which takes steps of so many bytes, and fails at these calls.
fn sink(alloc: Global, room: usize, step: usize, failing: &[u64]) -> Result<MemSink, AllocError> {
    MemSink::with_room(alloc, room, step.max(1), Vec::from_slice(alloc, failing)?)
}

/// What a run left behind that ended with a status.
fn left_behind(
    alloc: Global,
    status: u8,
    out: &MemSink,
    err: &MemSink,
) -> Result<Outcome, AllocError> {
    Ok(Outcome {
        status,
        out: Vec::from_slice(alloc, out.bytes())?,
        err: Vec::from_slice(alloc, err.bytes())?,
    })
}

/// The files of a row for the shelf.
pub fn shelf_files(alloc: Global, files: &[NamedText]) -> Result<Vec<ShelfFile>, AllocError> {
    let mut made = Vec::new(alloc);
    for file in files {
        made.push(shelf_file(alloc, file)?)?;
    }
    Ok(made)
}

/// A file of a row for the shelf.
fn shelf_file(alloc: Global, file: &NamedText) -> Result<ShelfFile, AllocError> {
    Ok(ShelfFile {
        name: file.name.clone()?,
        bytes: file.text.whole(alloc)?,
    })
}
