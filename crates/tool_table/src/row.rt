//! A row: one run of the program, and what has to come of it.

use row_tables::{NamedText, Text};
use std::alloc::{AllocError, Global};

/// How many bytes the fakes of the outside move in a call, and which of their calls fail, counted from 0.
#[derive(Drop)]
pub struct Plan {
    /// The most bytes that a call of the input, of `out` or of `err` moves. 0 counts as 1.
    pub step: usize,
    /// How many bytes `out` takes in all.
    pub room: usize,
    pub failing_reads: Vec<u64>,
    pub failing_files: Vec<u64>,
    pub failing_writes: Vec<u64>,
    pub failing_reports: Vec<u64>,
}

impl Plan {
    /// Nothing fails, and there is ample room.
    pub fn without_faults(alloc: Global) -> Plan {
        Plan {
            step: 4096,
            room: 1 << 20,
            failing_reads: Vec::new(alloc),
            failing_files: Vec::new(alloc),
            failing_writes: Vec::new(alloc),
            failing_reports: Vec::new(alloc),
        }
    }
}

/// How the bytes that came are compared with those that a row states.
#[derive(Clone, Copy)]
pub enum Relation {
    /// They are the same.
    Same,
    /// They begin with those of the row.
    BeginWith,
    /// They are a proper prefix of those of the row: a text that a failed write cut short.
    CutFrom,
}

/// What a row states of the bytes on `out` or on `err`.
#[derive(Drop)]
pub struct Wanted {
    pub relation: Relation,
    pub text: Text,
}

impl Wanted {
    /// No bytes.
    pub fn nothing(alloc: Global) -> Wanted {
        Wanted {
            relation: Relation::Same,
            text: Text::empty(alloc),
        }
    }
}

/// Which text of a row is varied.
#[derive(Clone, Copy)]
pub enum Varied {
    /// The input.
    Input,
    /// The last of its files.
    File,
}

/// Which texts come of one: the row is run with each of them in its place.
#[derive(Clone, Copy)]
pub enum Variation {
    /// Each proper front of the text, the empty one first.
    Cuts,
    /// The text with each of the 256 bytes in place of each of its own.
    Bytes,
}

/// Runs of a row with other texts in place of one, of which only the status is stated.
#[derive(Drop)]
pub struct Variants {
    pub varied: Varied,
    pub variation: Variation,
    /// The statuses that the program may end with.
    pub statuses: Vec<u64>,
}

/// One run of the program, and what has to come of it.
#[derive(Drop)]
pub struct Row {
    pub name: String,
    /// The words after the program's name.
    pub words: Vec<String>,
    /// The files of the shelf.
    pub files: Vec<NamedText>,
    pub input: Text,
    pub plan: Plan,
    pub out: Wanted,
    pub err: Wanted,
    /// The status that the program ends with.
    pub status: u8,
    /// What stands in place of the wanted texts and the status where the row is run with many texts.
    pub variants: Option<Variants>,
}

impl Row {
    /// A row without words, files and input, of which nothing comes but the status 0.
    pub fn new(alloc: Global, name: &str) -> Result<Row, AllocError> {
        Ok(Row {
            name: String::from_str(alloc, name)?,
            words: Vec::new(alloc),
            files: Vec::new(alloc),
            input: Text::empty(alloc),
            plan: Plan::without_faults(alloc),
            out: Wanted::nothing(alloc),
            err: Wanted::nothing(alloc),
            status: 0,
            variants: None,
        })
    }
}
