//! Texts of tables.

use std::alloc::{AllocError, Global};

/// Bytes that are said once and stand several times, one behind the other.
#[derive(Drop)]
pub struct Text {
    /// What is said once.
    pub bytes: Vec<u8>,
    /// How often they stand.
    pub times: usize,
}

impl Text {
    /// No bytes.
    pub fn empty(alloc: Global) -> Text {
        Text::once(Vec::new(alloc))
    }

    /// These bytes, once.
    pub fn once(bytes: Vec<u8>) -> Text {
        Text { bytes, times: 1 }
    }

    /// The same text anew.
    pub fn copy(&self, alloc: Global) -> Result<Text, AllocError> {
        Ok(Text {
            bytes: Vec::from_slice(alloc, &self.bytes)?,
            times: self.times,
        })
    }

    /// All its bytes.
    pub fn whole(&self, alloc: Global) -> Result<Vec<u8>, AllocError> {
        self.bytes.repeat(alloc, self.times)
    }
}

/// A text that later sections name.
#[derive(Drop)]
pub struct NamedText {
    /// Its name.
    pub name: String,
    /// The text itself.
    pub text: Text,
}

impl NamedText {
    /// A text under a name.
    pub fn new(alloc: Global, name: &str, text: Text) -> Result<NamedText, AllocError> {
        let name = String::from_str(alloc, name)?;
        Ok(NamedText { name, text })
    }
}

/// Has each text said once, as it stands.
pub(crate) fn make_whole(alloc: Global, texts: &mut [NamedText]) -> Result<(), AllocError> {
    for named in texts.iter_mut() {
        let whole = named.text.whole(alloc)?;
        named.text = Text::once(whole);
    }
    Ok(())
}

/// The text of this name among some, if it is there.
pub(crate) fn text_named<'t>(texts: &'t [NamedText], name: &str) -> Option<&'t Text> {
    for named in texts {
        if named.name.as_str() == name {
            return Some(&named.text);
        }
    }
    None
}
