//! Tables of rows, as the programs of the gate read them: a text cut into sections by its marker lines, texts that
//! sections name and change, numbers, the calls that a table describes, and the running of its rows. How a table is
//! written: docs/ROWS.md.
#![tactic(auto)]

mod call;
mod changing;
mod counting;
mod difference;
mod fault;
mod reader;
mod running;
mod section;
mod text;
mod texts;
mod told;

pub use call::{Call, shown};
pub use changing::change;
pub use counting::{byte, count, exactly, narrow, narrow_numbers, number, numbers, signed};
pub use difference::tell_difference;
pub use fault::{Fault, TableFault};
pub use reader::{Asked, CallReader};
pub use running::{RowRunner, run_table, run_tables};
pub use section::{Section, sections_of};
pub use text::{NamedText, Text};
pub use texts::{Texts, named, no_lines};
pub use told::Told;
