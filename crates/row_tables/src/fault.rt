//! What is wrong with a table.

use crate::told::Told;
use std::alloc::{AllocError, AllocFailed};

/// What is wrong with a section of a table.
#[derive(Clone, Copy, Drop)]
pub enum Fault {
    /// No marker has this name.
    UnknownMarker,
    /// Lines stand where none belong.
    StrayLines,
    /// No text has this name.
    UnknownText,
    /// The name stands already.
    NameTwice,
    /// A name is missing.
    NoName,
    /// Not a number in range.
    BadNumber,
    /// There is no text to change before this.
    NoText,
    /// The text has no such line.
    NoSuchLine,
    /// This stands in a row alone.
    OutsideRow,
    /// The row before this has no status.
    NoStatus,
    /// The row before this has no answer.
    NoAnswer,
    /// An argument is missing.
    NoArgument,
    /// No subject has this name.
    UnknownSubject,
    /// The call may not be made on this.
    NotAllowed,
    /// Not UTF-8.
    NotUtf8,
    /// Memory is wanting.
    Memory,
}

impl Fault {
    /// The fault with the number of its line.
    pub fn at(self, line: usize) -> TableFault {
        TableFault { line, fault: self }
    }

    /// What is said of it.
    fn said(self) -> &'static str {
        match self {
            Fault::UnknownMarker => "no marker has this name",
            Fault::StrayLines => "lines stand where none belong",
            Fault::UnknownText => "no text has this name",
            Fault::NameTwice => "the name stands already",
            Fault::NoName => "a name is missing",
            Fault::BadNumber => "not a number in range",
            Fault::NoText => "there is no text to change before this",
            Fault::NoSuchLine => "the text has no such line",
            Fault::OutsideRow => "this stands in a row alone",
            Fault::NoStatus => "the row before this has no status",
            Fault::NoAnswer => "the row before this has no answer",
            Fault::NoArgument => "an argument is missing",
            Fault::UnknownSubject => "no subject has this name",
            Fault::NotAllowed => "the call may not be made on this",
            Fault::NotUtf8 => "not UTF-8",
            Fault::Memory => "memory is wanting",
        }
    }
}

impl From<AllocError> for Fault {
    fn from(_error: AllocError) -> Fault {
        Fault::Memory
    }
}

impl<T: Drop> From<AllocFailed<T>> for Fault {
    fn from(_failed: AllocFailed<T>) -> Fault {
        Fault::Memory
    }
}

/// What is wrong with a table, and in which line, counted from 1.
#[derive(Clone, Copy, Drop)]
pub struct TableFault {
    /// The line.
    pub line: usize,
    /// What is wrong there.
    pub fault: Fault,
}

impl TableFault {
    /// Tells the line and what is wrong there, as a line.
    pub fn tell(self, report: &mut Told) {
        report.value("line ", &self.line);
        report.word(": ");
        report.word(self.fault.said());
        report.word("\n");
    }
}
