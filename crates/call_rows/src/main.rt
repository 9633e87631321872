//! Makes the calls that its tables describe, and prints a line a row: `ok`, or what differs. It ends with status 1
//! where a row differs or a table has a fault. How a table is written: docs/ROWS.md.
#![tactic(auto)]

mod session;
mod tool_tables;

use row_tables::run_tables;
use session::CallRunner;
use std::io;
use std::process::ExitCode;

fn main(rt: HostRuntime) -> io::Result<ExitCode> {
    run_tables(&rt, &mut CallRunner::new(rt.alloc()))
}
