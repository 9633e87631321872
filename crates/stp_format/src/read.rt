//! Reading a file.

ghost use Rattle.std.specs.Prelude.{◌≡◌, Ok, IfOk, IfErr};
ghost use Rattle.stp_format.specs.Lines.{words_of};
ghost use Rattle.stp_format.specs.Reading.{stp_of, IsFaultOf, is_magic as is_magic_line, Gives};
ghost use Rattle.stp_format.specs.Sections.{outside, no_sections};
ghost use Rattle.stp_format.specs.Left.{comes_to};

use crate::fault::StpFault;
use crate::file::StpFile;
use crate::lines::Lines;
use crate::section::SectionsRead;
use crate::words::{first_word, is_keyword};
use std::alloc::Global;

// Whether a line is a first line of a file.
fn is_magic(line: &[u8]) -> bool
    ensures { result ≡ is_magic_line (words_of line.now) }
{
    match first_word(line) {
        Some((word, _)) => is_keyword(b"33D32945", word),
        None => false,
    }
}

// Reads the lines behind the first one.
fn read_sections(alloc: Global, text: &mut Lines<'_>) -> Result<StpFile, StpFault>
    ensures { Gives (λ file. file) result (comes_to (outside no_sections) text.old) }
{
    let mut sections = SectionsRead::none();
    while sections.read_next(alloc, text)? {}
    sections.into_file()
}

/// Reads an STP file: its value, where the bytes spell one, or else their first fault. Want of memory may come
/// anywhere.
pub fn read_stp(alloc: Global, bytes: &[u8]) -> Result<StpFile, StpFault>
    ensures found { IfOk result (λ file. stp_of bytes.now ≡ Ok file) }
    ensures fault { IfErr result (λ f. IsFaultOf f (stp_of bytes.now)) }
{
    let mut text = Lines::of(bytes);
    match text.next_line() {
        Some(first) if is_magic(first) => read_sections(alloc, &mut text),
        _ => Err(StpFault::NoMagic),
    }
}
