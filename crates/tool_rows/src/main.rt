//! Runs the rows of its tables through the top call of the suite, over fakes of the outside, and prints a line a row:
//! `ok`, or what differs. It ends with status 1 where a row differs or a table has a fault. How a table is written:
//! docs/ROWS.md.
#![tactic(auto)]

use row_tables::run_tables;
use std::io;
use std::process::ExitCode;
use tool_table::Reader;

fn main(rt: HostRuntime) -> io::Result<ExitCode> {
    run_tables(&rt, &mut Reader::new(rt.alloc()))
}
