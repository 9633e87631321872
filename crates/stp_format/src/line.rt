//! A line that tells something.

ghost use Rattle.std.specs.Prelude.{◌≡◌, [], ◌∷◌, IfOk, IfErr, IfSome, IfNone, Err};
ghost use Rattle.stp_format.specs.Sections.{Reading};
ghost use Rattle.stp_format.specs.Left.{line_of, told, last_number, comes_to, TakesLine, IsOpen};

use crate::fault::StpFault;
use crate::lines::Lines;
use crate::words::first_word;

/// A line that tells something: its number, counted from 1, its first word, and what stands behind that.
#[derive(Clone, Copy)]
pub(crate) struct Line<'a> {
    pub(crate) number: u64,
    pub(crate) keyword: &'a [u8],
    pub(crate) operands: &'a [u8],
}

// Takes the lines up to the next one that has words and doesn't begin with `#`. None where there is none.
fn next_told<'a>(text: &mut Lines<'a>) -> Option<Line<'a>>
    ensures found { IfSome result (λ line. TakesLine text.old (line_of line) text.new) }
    ensures none { IfNone result (told text.old ≡ []) }
    ensures ended { IfNone result (text.new.taken ≡ last_number text.old) }
{
    while let Some(bytes) = text.next_line() {
        if let Some((keyword, operands)) = first_word(bytes) {
            if keyword[0] != b'#' {
                return Some(Line {
                    number: text.taken(),
                    keyword,
                    operands,
                });
            }
        }
    }
    None
}

/// The next line that tells something. An `Err` says that the text has no end.
pub(crate) fn told_line<'a>(text: &mut Lines<'a>) -> Result<Line<'a>, StpFault>
    ensures taken { IfOk result (λ line. TakesLine text.old (line_of line) text.new) }
    ensures ended { IfErr result (λ f. (r : Reading) → IsOpen r → comes_to r text.old ≡ Err f) }
{
    match next_told(text) {
        Some(line) => Ok(line),
        None => Err(StpFault::BadLine(text.taken())),
    }
}
