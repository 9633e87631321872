//! Rows of tools: runs of the program through the top call of the suite, over fakes of the outside, each compared with
//! what its row states. How a table is written: docs/ROWS.md.
#![tactic(auto)]

mod difference;
mod outcome;
mod row;
mod table;
mod variants;

pub use table::Reader;
