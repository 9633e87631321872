//! The calls of tables, made one by one.

use crate::tool_tables;
use row_tables::{Asked, Call, CallReader, Fault, RowRunner, Section, Told, tell_difference};
use std::alloc::Global;

/// Reads calls, and makes them.
#[derive(Drop)]
pub struct CallRunner {
    reader: CallReader,
}

impl CallRunner {
    /// A runner that knows no text.
    pub fn new(alloc: Global) -> CallRunner {
        CallRunner {
            reader: CallReader::new(alloc),
        }
    }
}

impl RowRunner for CallRunner {
    type Row = Asked;

    fn begin(&mut self) {
        self.reader.begin();
    }

    fn take(&mut self, section: &Section<'_>) -> Result<Option<Asked>, Fault> {
        self.reader.take(section)
    }

    fn end(&self) -> Result<(), Fault> {
        self.reader.end()
    }

    /// Makes a call, and adds its line to the report.
    fn run(&mut self, alloc: Global, asked: &Asked, report: &mut Told) -> Result<bool, Fault> {
        is_answered(alloc, asked, report)
    }
}

/// Makes a call, adds its line to the report, `ok` or what differs, and tells whether nothing does.
fn is_answered(alloc: Global, asked: &Asked, report: &mut Told) -> Result<bool, Fault> {
    let answer = answer_of(alloc, &asked.call)?;
    let is_ok = answer.as_bytes() == asked.answer.as_slice();
    report.word(asked.call.name.as_str());
    if is_ok {
        report.word(": ok\n");
    } else {
        report.word(": ");
        tell_difference(alloc, answer.as_bytes(), &asked.answer, report)?;
    }
    Ok(is_ok)
}

/// What comes of a call.
fn answer_of(alloc: Global, call: &Call) -> Result<String, Fault> {
    let mut told = Told::new(alloc);
    make(alloc, call, &mut told)?;
    told.finish()
}

/// Makes the call of a row by what knows its subject: the word before the point names it.
fn make(alloc: Global, call: &Call, told: &mut Told) -> Result<(), Fault> {
    match call.family() {
        "graph" => graph_calls::answer(alloc, call, told),
        "search" => graph_calls::search::answer(alloc, call, told),
        "grid" => point_calls::grid::answer(alloc, call, told),
        "tree" => point_calls::tree::answer(alloc, call, told),
        "text" => point_calls::text::answer(alloc, call, told),
        "task" => point_calls::task::answer(alloc, call, told),
        "answer" => point_calls::answer::answer(alloc, call, told),
        "table" => tool_tables::answer(alloc, call, told),
        _ => Err(Fault::UnknownSubject),
    }
}
