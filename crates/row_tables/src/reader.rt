//! The reader of a table's sections, which makes calls of them.

use crate::call::Call;
use crate::changing::change;
use crate::fault::Fault;
use crate::section::Section;
use crate::text::{NamedText, Text};
use crate::texts::{Texts, named, no_lines};
use std::alloc::Global;

/// A call, and the answer that a table wants of it.
#[derive(Drop)]
pub struct Asked {
    /// The call.
    pub call: Call,
    /// The lines that have to come of it.
    pub answer: Vec<u8>,
}

/// Reads the sections of tables, one after the other. A text that was named stays known in the tables behind.
#[derive(Drop)]
pub struct CallReader {
    alloc: Global,
    texts: Texts,
    call: Option<Call>,
}

impl CallReader {
    /// A reader that knows no text.
    pub fn new(alloc: Global) -> CallReader {
        CallReader {
            alloc,
            texts: Texts::new(alloc),
            call: None,
        }
    }

    /// Begins a table: no call is open.
    pub fn begin(&mut self) {
        self.call = None;
    }

    /// Takes a section, and gives the call that it ends.
    pub fn take(&mut self, section: &Section<'_>) -> Result<Option<Asked>, Fault> {
        if section.key == "answer" {
            return Ok(Some(self.end_call(section)?));
        }
        self.add(section)?;
        Ok(None)
    }

    /// Ends a table: no call may be open.
    pub fn end(&self) -> Result<(), Fault> {
        if self.call.is_some() {
            return Err(Fault::NoAnswer);
        }
        Ok(())
    }

    /// Takes a section that ends no call.
    fn add(&mut self, section: &Section<'_>) -> Result<(), Fault> {
        match section.key {
            "text" => self.texts.add(section),
            "call" => self.begin_call(section),
            "line" | "line_feed" | "no_line_feed" | "times" => self.change_last(section),
            _ => self.add_argument(section),
        }
    }

    /// Begins a call, by its own name and that of its subject.
    fn begin_call(&mut self, section: &Section<'_>) -> Result<(), Fault> {
        no_lines(section)?;
        if self.call.is_some() {
            return Err(Fault::NoAnswer);
        }
        let (subject, name) = named(section.argument)?;
        if name.is_empty() {
            return Err(Fault::NoName);
        }
        self.texts.keep(name, Text::empty(self.alloc))?;
        self.call = Some(Call::new(self.alloc, name, subject)?);
        Ok(())
    }

    /// Gives the call an argument, under the key of its marker.
    fn add_argument(&mut self, section: &Section<'_>) -> Result<(), Fault> {
        let text = self.texts.text(section.argument, &section.text)?;
        let argument = NamedText::new(self.alloc, section.key, text)?;
        match &mut self.call {
            Some(call) => Ok(call.arguments.push(argument)?),
            None => Err(Fault::OutsideRow),
        }
    }

    /// Changes the text of the last section that has one.
    fn change_last(&mut self, section: &Section<'_>) -> Result<(), Fault> {
        let alloc = self.alloc;
        match self.last_text() {
            Some(text) => change(alloc, text, section),
            None => Err(Fault::NoText),
        }
    }

    /// Ends the call with the answer that is wanted.
    fn end_call(&mut self, section: &Section<'_>) -> Result<Asked, Fault> {
        let answer = self.texts.whole(section.argument, &section.text)?;
        match self.call.take() {
            Some(call) => Ok(Asked {
                call: call.with_whole_arguments(self.alloc)?,
                answer,
            }),
            None => Err(Fault::OutsideRow),
        }
    }

    /// The text of the last section that has one: an argument of the open call, or else a named text.
    fn last_text(&mut self) -> Option<&mut Text> {
        match &mut self.call {
            Some(call) => Some(&mut call.arguments.last_mut()?.text),
            None => self.texts.last(),
        }
    }
}
