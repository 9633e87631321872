//! A text of two sections, points and what is said about them, as every format that has such a text reads it.
//!
//! A [`SectionFormat`] says what is its own: its title, the items of the second section and their faults. The lines
//! around them, the points and their faults, and the one outcome of each text stand here, once for all of them.
#![tactic(auto)]

mod fault;
mod format;
mod head;
mod items;
mod laws;
mod line;
mod points;
mod read;

pub use fault::LineFault;
pub use format::SectionFormat;
pub use laws::{one_outcome, one_reading, values_are_spelled};
pub use read::read_sections;
