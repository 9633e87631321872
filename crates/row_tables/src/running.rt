//! Running the rows of tables.

use crate::call::shown;
use crate::fault::{Fault, TableFault};
use crate::section::{Section, sections_of};
use crate::told::Told;
use rst_outside::{DirShelf, Shelf, take_named};
use std::alloc::Global;
use std::process::ExitCode;
use std::{env, io};

/// The greatest number of bytes of a table.
const LIMIT: u64 = 1 << 26;

/// Reads the sections of tables, one after the other, and runs the rows that they describe.
pub trait RowRunner {
    /// A row.
    type Row: Drop;

    /// Begins a table: no row is open.
    fn begin(&mut self);

    /// Takes a section, and gives the row that it ends.
    fn take(&mut self, section: &Section<'_>) -> Result<Option<Self::Row>, Fault>;

    /// Ends a table: no row may be open.
    fn end(&self) -> Result<(), Fault>;

    /// Runs a row, adds its lines to the report, `ok` or what differs, and tells whether nothing does.
    fn run(&mut self, alloc: Global, row: &Self::Row, report: &mut Told) -> Result<bool, Fault>;
}

/// Runs the rows of the tables that the words of the program name, prints their lines, and gives the status: 1 where a
/// row differs, or a table cannot be read or has a fault.
pub fn run_tables<R: RowRunner>(rt: &HostRuntime, runner: &mut R) -> io::Result<ExitCode> {
    let mut shelf = DirShelf::new(rt);
    let mut all_well = true;
    for name in env::args(rt)?.skip(1) {
        let is_well = prints_well(rt, &mut shelf, runner, name.as_str());
        all_well = all_well && is_well;
    }
    Ok(if all_well {
        ExitCode::SUCCESS
    } else {
        ExitCode::FAILURE
    })
}

/// Prints the lines of the table in a file, and tells whether all is well.
fn prints_well<S: Shelf, R: RowRunner>(
    rt: &HostRuntime,
    shelf: &mut S,
    runner: &mut R,
    name: &str,
) -> bool {
    let mut report = Told::new(rt.alloc());
    let is_well = run_file(rt.alloc(), shelf, runner, name, &mut report);
    match report.finish() {
        Ok(report) => print!(rt; "{report}").is_ok() && is_well,
        Err(_) => false,
    }
}

/// Runs the rows of the table in a file, adds their lines to the report, and tells whether all is well.
fn run_file<S: Shelf, R: RowRunner>(
    alloc: Global,
    shelf: &mut S,
    runner: &mut R,
    name: &str,
    report: &mut Told,
) -> bool {
    match take_named(alloc, shelf, name, LIMIT) {
        Ok(table) => run_named(alloc, runner, name, &table, report),
        Err(_) => {
            report.word(name);
            report.word(": cannot be read\n");
            false
        }
    }
}

/// Runs the rows of a table, adds their lines to the report, and its fault, if it has one.
fn run_named<R: RowRunner>(
    alloc: Global,
    runner: &mut R,
    name: &str,
    table: &[u8],
    report: &mut Told,
) -> bool {
    match run_table(alloc, runner, table, report) {
        Ok(is_well) => is_well,
        Err(fault) => {
            report.word(name);
            report.word(": ");
            fault.tell(report);
            false
        }
    }
}

/// Runs the rows of a table, adds their lines to the report, and tells whether nothing differs. The first fault of the
/// table, or of a row, ends the run; the rows before it are in the report.
pub fn run_table<R: RowRunner>(
    alloc: Global,
    runner: &mut R,
    table: &[u8],
    report: &mut Told,
) -> Result<bool, TableFault> {
    match shown(table) {
        Ok(table) => run_sections(alloc, runner, &sections_of(alloc, table)?, report),
        Err(fault) => Err(fault.at(1)),
    }
}

/// Runs the rows of these sections.
fn run_sections<R: RowRunner>(
    alloc: Global,
    runner: &mut R,
    sections: &[Section<'_>],
    report: &mut Told,
) -> Result<bool, TableFault> {
    runner.begin();
    let mut is_well = true;
    let mut line = 0;
    for section in sections {
        line = section.line;
        match runs_on(alloc, runner, section, report) {
            Ok(is_ok) => is_well = is_well && is_ok,
            Err(fault) => return Err(fault.at(line)),
        }
    }
    match runner.end() {
        Ok(()) => Ok(is_well),
        Err(fault) => Err(fault.at(line)),
    }
}

/// Takes a section, runs the row that it ends, if it ends one, and tells whether nothing differs.
fn runs_on<R: RowRunner>(
    alloc: Global,
    runner: &mut R,
    section: &Section<'_>,
    report: &mut Told,
) -> Result<bool, Fault> {
    match runner.take(section)? {
        Some(row) => runner.run(alloc, &row, report),
        None => Ok(true),
    }
}
