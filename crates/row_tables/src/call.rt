//! A call of a library that a table describes.

use crate::counting::{byte, narrow_numbers, number, numbers};
use crate::fault::Fault;
use crate::text::{NamedText, make_whole, text_named};
use std::alloc::{AllocError, Global};
use std::str::from_utf8;

/// What is called, and on what.
#[derive(Drop)]
pub struct Call {
    /// The name of the row.
    pub name: String,
    /// What the row is of: the word of a crate, a point, and the word of a call, as `graph.network`.
    pub subject: String,
    /// What is given to the call, each by its key.
    pub arguments: Vec<NamedText>,
}

impl Call {
    /// A call without arguments.
    pub(crate) fn new(alloc: Global, name: &str, subject: &str) -> Result<Call, AllocError> {
        Ok(Call {
            name: String::from_str(alloc, name)?,
            subject: String::from_str(alloc, subject)?,
            arguments: Vec::new(alloc),
        })
    }

    /// The call with each of its arguments said once, as it stands.
    pub(crate) fn with_whole_arguments(mut self, alloc: Global) -> Result<Call, AllocError> {
        make_whole(alloc, &mut self.arguments)?;
        Ok(self)
    }

    /// The word before the point of the subject, which names the crate that makes the call.
    pub fn family(&self) -> &str {
        match self.subject.split_once('.') {
            Some((family, _)) => family,
            None => "",
        }
    }

    /// The word behind the point of the subject, which names the call.
    pub fn kind(&self) -> &str {
        match self.subject.split_once('.') {
            Some((_, kind)) => kind,
            None => "",
        }
    }

    /// Whether something stands under this key.
    pub fn has(&self, key: &str) -> bool {
        text_named(&self.arguments, key).is_some()
    }

    /// The bytes under this key.
    pub fn bytes(&self, key: &str) -> Result<&[u8], Fault> {
        match text_named(&self.arguments, key) {
            Some(text) => Ok(&text.bytes),
            None => Err(Fault::NoArgument),
        }
    }

    /// The text under this key.
    pub fn text(&self, key: &str) -> Result<&str, Fault> {
        shown(self.bytes(key)?)
    }

    /// The first word under this key.
    pub fn word(&self, key: &str) -> Result<&str, Fault> {
        let mut words = self.text(key)?.split_whitespace();
        words.next().ok_or(Fault::NoArgument)
    }

    /// The number that the first word under this key spells.
    pub fn number(&self, key: &str) -> Result<u64, Fault> {
        number(self.word(key)?)
    }

    /// The same, where it is below 256.
    pub fn byte(&self, key: &str) -> Result<u8, Fault> {
        byte(self.word(key)?)
    }

    /// The numbers under this key.
    pub fn numbers(&self, alloc: Global, key: &str) -> Result<Vec<u64>, Fault> {
        numbers(alloc, self.text(key)?)
    }

    /// The numbers under this key, each of 32 bits.
    pub fn narrow_numbers(&self, alloc: Global, key: &str) -> Result<Vec<u32>, Fault> {
        narrow_numbers(alloc, self.text(key)?)
    }
}

/// Bytes as the text that they are.
pub fn shown(bytes: &[u8]) -> Result<&str, Fault> {
    match from_utf8(bytes) {
        Ok(text) => Ok(text),
        Err(_) => Err(Fault::NotUtf8),
    }
}
