//! Texts that are being written.

use crate::fault::Fault;
use std::alloc::Global;
use std::fmt;

/// A text that is being written. Want of memory is noted, and told once, by `finish`.
#[derive(Drop)]
pub struct Told {
    text: String,
    is_whole: bool,
}

impl Told {
    /// No text yet.
    pub fn new(alloc: Global) -> Told {
        Told {
            text: String::new(alloc),
            is_whole: true,
        }
    }

    /// Adds a text as it stands.
    pub fn word(&mut self, word: &str) {
        if self.text.push_str(word).is_err() {
            self.is_whole = false;
        }
    }

    /// Adds a value as it is shown.
    pub fn show<T: fmt::Display>(&mut self, value: &T) {
        if write!(self.text, "{value}").is_err() {
            self.is_whole = false;
        }
    }

    /// Adds a value as it is shown to a programmer.
    pub fn debug<T: fmt::Debug>(&mut self, value: &T) {
        if write!(self.text, "{value:?}").is_err() {
            self.is_whole = false;
        }
    }

    /// Adds a word and a value behind it, as it is shown.
    pub fn value<T: fmt::Display>(&mut self, word: &str, value: &T) {
        self.word(word);
        self.show(value);
    }

    /// Adds a line of a word and a value behind it, as it is shown.
    pub fn line<T: fmt::Display>(&mut self, word: &str, value: &T) {
        self.value(word, value);
        self.word("\n");
    }

    /// Adds a line of a word and a value behind it, as it is shown to a programmer.
    pub fn debug_line<T: fmt::Debug>(&mut self, word: &str, value: &T) {
        self.word(word);
        self.debug(value);
        self.word("\n");
    }

    /// Adds a line of a word and a number behind it, in hexadecimal digits.
    pub fn hex_line(&mut self, word: &str, number: u64) {
        self.word(word);
        if writeln!(self.text, "{number:#x}").is_err() {
            self.is_whole = false;
        }
    }

    /// The text.
    pub fn finish(self) -> Result<String, Fault> {
        if self.is_whole {
            Ok(self.text)
        } else {
            Err(Fault::Memory)
        }
    }
}
