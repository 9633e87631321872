//! The texts that tables name.

use crate::fault::Fault;
use crate::section::Section;
use crate::text::{NamedText, Text, text_named};
use std::alloc::Global;

/// The texts that sections named so far, each name once.
#[derive(Drop)]
pub struct Texts {
    alloc: Global,
    texts: Vec<NamedText>,
}

impl Texts {
    /// No text.
    pub fn new(alloc: Global) -> Texts {
        Texts {
            alloc,
            texts: Vec::new(alloc),
        }
    }

    /// Keeps the text of a section under the name that its marker says.
    pub fn add(&mut self, section: &Section<'_>) -> Result<(), Fault> {
        let (name, of) = named(section.argument)?;
        let text = self.text(of, &section.text)?;
        self.keep(name, text)
    }

    /// Keeps a text under a name that is new.
    pub fn keep(&mut self, name: &str, text: Text) -> Result<(), Fault> {
        if self.has(name) {
            return Err(Fault::NameTwice);
        }
        let named = NamedText::new(self.alloc, name, text)?;
        Ok(self.texts.push(named)?)
    }

    /// Whether a text has this name.
    pub fn has(&self, name: &str) -> bool {
        text_named(&self.texts, name).is_some()
    }

    /// The text of this name, behind which no lines stand; without a name the lines themselves.
    pub fn text(&self, name: &str, lines: &[u8]) -> Result<Text, Fault> {
        if name.is_empty() {
            return Ok(Text::once(Vec::from_slice(self.alloc, lines)?));
        }
        if !lines.is_empty() {
            return Err(Fault::StrayLines);
        }
        match text_named(&self.texts, name) {
            Some(text) => Ok(text.copy(self.alloc)?),
            None => Err(Fault::UnknownText),
        }
    }

    /// All bytes of the text of this name, behind which no lines stand; without a name the lines themselves.
    pub fn whole(&self, name: &str, lines: &[u8]) -> Result<Vec<u8>, Fault> {
        let text = self.text(name, lines)?;
        Ok(text.whole(self.alloc)?)
    }

    /// The text that was kept last.
    pub fn last(&mut self) -> Option<&mut Text> {
        Some(&mut self.texts.last_mut()?.text)
    }
}

/// The name that an argument begins with, and what stands behind it, which may be missing.
pub fn named(argument: &str) -> Result<(&str, &str), Fault> {
    let (name, of) = first_word(argument);
    if name.is_empty() {
        return Err(Fault::NoName);
    }
    Ok((name, of))
}

/// What stands before the first blank, and what stands behind it.
pub(crate) fn first_word(line: &str) -> (&str, &str) {
    match line.split_once(' ') {
        Some(halves) => halves,
        None => (line, ""),
    }
}

/// Refuses lines behind a marker that takes none.
pub fn no_lines(section: &Section<'_>) -> Result<(), Fault> {
    if section.text.is_empty() {
        Ok(())
    } else {
        Err(Fault::StrayLines)
    }
}
