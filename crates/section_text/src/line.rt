//! Taking whole lines of a text.

ghost use Rattle.std.specs.Prelude.{◌≡◌, ℕ, ◌<◌, ◌^◌, [], ◌∷◌, IfOk, IfErr, IfSome, IfNone, Err};
ghost use Rattle.std.specs.Fmt.{decimal};
ghost use Rattle.section_text.specs.Faults.{Told};
ghost use Rattle.section_text.specs.Left.{TakesLine, IsOpen, JudgesLeft};

use crate::fault::LineFault;
use crate::format::SectionFormat;
use text_in::{LineWords, TextLines};

// The words of the next line. An `Err` says that the text ends too soon.
pub(crate) fn whole_line<'a, S: SectionFormat>(
    text: &mut TextLines<'a>,
) -> Result<LineWords<'a>, S::Fault>
    ensures taken { IfOk result (λ words. TakesLine text.old words text.new) }
    ensures ended { IfErr result (λ f. (told : Told S.Item) → IsOpen told
        → JudgesLeft S.format told text.old (Err f)) }
{
    match text.next_line() {
        Some(words) => Ok(words),
        None => Err(S::fault(LineFault::BadLine(text.number()))),
    }
}

// The 32-bit number behind a word, where the line ends behind it.
pub(crate) fn count_behind(words: &mut LineWords<'_>, word: &[u8]) -> Option<u32>
    ensures found { IfSome result (λ n. words.old ≡ word.now ∷ decimal n ∷ []) }
    ensures fits { IfSome result (λ n. n < 2 ^ 32) }
    ensures none { IfNone result ((n : ℕ) → n < 2 ^ 32 → words.old ≡ word.now ∷ decimal n ∷ [] → ⊥) }
{
    if !words.passes(word) {
        return None;
    }
    let number = words.next_count()?;
    if words.is_empty() { Some(number) } else { None }
}
