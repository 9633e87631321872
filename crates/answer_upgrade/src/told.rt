//! What is told of bytes that may be an answer's text.

/// What bytes are that may be an answer's text.
#[derive(Clone, Copy)]
pub enum Spelled {
    /// The text of an answer, in this version.
    Whole {
        /// The version, 1 or 2.
        version: u8,
    },
    /// The text of no answer.
    Fault {
        /// The line in which the bytes cease to begin one, counted from 1.
        line: u64,
    },
}
