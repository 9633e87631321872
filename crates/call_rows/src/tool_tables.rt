//! Tables of rows of tools, whose report is the answer.

use row_tables::{Call, Fault, Told, run_table};
use std::alloc::Global;
use tool_table::Reader;

/// The report on the rows of the table under `table`, and its fault if it has one. Under `byte` may stand one more
/// byte of the table, by its number.
pub fn answer(alloc: Global, call: &Call, told: &mut Told) -> Result<(), Fault> {
    let mut table = Vec::from_slice(alloc, call.bytes("table")?)?;
    if call.has("byte") {
        table.push(call.byte("byte")?)?;
    }
    if let Err(fault) = run_table(alloc, &mut Reader::new(alloc), &table, told) {
        fault.tell(told);
    }
    Ok(())
}
