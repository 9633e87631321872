//! Texts as they are read: numbers in their one spelling, words and lines, and why a text is not in its format.
//!
//! [`TextLines`] gives the whole lines of a text one after another, in one pass and without a copy, and knows
//! the number of the next one: where no whole line is left, that is one more than the line feeds of the text.
//! [`LineWords`] gives the words of a line, between which stands one blank. [`FormatFault`] is what the crates of
//! the formats say alike of a fault.
#![tactic(auto)]

mod fault;
mod laws;
mod lines;
mod number;
mod pieces;
mod split;
mod words;

pub use fault::FormatFault;
pub use laws::{line_count, lines_written, one_text};
pub use lines::TextLines;
pub use number::{signed_spelled, unsigned_spelled};
pub use pieces::{write_line, write_total};
pub use split::{BLANK, LINE_FEED, split_at_byte, split_line, split_word};
pub use words::LineWords;
