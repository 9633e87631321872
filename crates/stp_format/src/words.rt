//! The words of a line.

ghost use Rattle.std.specs.Prelude.{◌≡◌, ◌<◌, ◌++◌, [], ◌∷◌, true, false, ℕ, All, length, IfSome, IfNone};
ghost use Rattle.stp_format.specs.Lines.{is_gap as is_gap_byte, words_of, is_keyword as is_keyword_of};
ghost use Rattle.stp_format.specs.Sections.{no_word as none_of, one_word as one_of, three_words as three_of};
ghost use Rattle.stp_format.specs.Reading.{Gives};

use crate::fault::StpFault;

// Whether the byte stands between words.
fn is_gap(byte: u8) -> bool
    ensures { result ≡ is_gap_byte byte }
{
    byte == b' ' || byte == b'\t'
}

// The bytes before the first gap and those behind it. None where there is no gap.
fn split_at_gap(bytes: &[u8]) -> Option<(&[u8], &[u8])>
    ensures parts { IfSome result (λ p. (gap : ℕ) × (is_gap_byte gap ≡ true)
        × (bytes.now ≡ p.0.now ++ gap ∷ p.1.now)) }
    ensures first { IfSome result (λ p. All (λ b. is_gap_byte b ≡ false) p.0.now) }
    ensures none { IfNone result (All (λ b. is_gap_byte b ≡ false) bytes.now) }
{
    let place = bytes.iter().position(|byte| is_gap(*byte))?;
    let (front, rest) = bytes.split_at(place);
    Some((front, &rest[1..]))
}

/// The first word of a line, and what stands behind it. None where there is no word.
pub(crate) fn first_word(line: &[u8]) -> Option<(&[u8], &[u8])>
    ensures found { IfSome result (λ p. words_of line.now ≡ p.0.now ∷ words_of p.1.now) }
    ensures some { IfSome result (λ p. 0 < length p.0.now) }
    ensures none { IfNone result (words_of line.now ≡ []) }
{
    let mut left = line;
    while let Some((word, rest)) = split_at_gap(left) {
        if !word.is_empty() {
            return Some((word, rest));
        }
        left = rest;
    }
    if left.is_empty() {
        None
    } else {
        Some((left, &[]))
    }
}

/// Whether the word is this keyword, in letters of either case.
pub(crate) fn is_keyword(name: &[u8], word: &[u8]) -> bool
    ensures { result ≡ is_keyword_of name.now word.now }
{
    name.eq_ignore_ascii_case(word)
}

/// Nothing, where no word stands behind the keyword of a line.
pub(crate) fn no_word(line: u64, operands: &[u8]) -> Result<(), StpFault>
    ensures { Gives (λ _. tt) result (none_of line (words_of operands.now)) }
{
    match first_word(operands) {
        None => Ok(()),
        Some(_) => Err(StpFault::BadLine(line)),
    }
}

/// The one word behind the keyword of a line.
pub(crate) fn one_word(line: u64, operands: &[u8]) -> Result<&[u8], StpFault>
    ensures { Gives (λ word. word.now) result (one_of line (words_of operands.now)) }
{
    let Some((word, rest)) = first_word(operands) else {
        return Err(StpFault::BadLine(line));
    };
    no_word(line, rest)?;
    Ok(word)
}

/// The three words behind the keyword of a line.
pub(crate) fn three_words(line: u64, operands: &[u8]) -> Result<(&[u8], &[u8], &[u8]), StpFault>
    ensures { Gives (λ words. (words.0.now, words.1.now, words.2.now)) result
        (three_of line (words_of operands.now)) }
{
    let Some((first, rest)) = first_word(operands) else {
        return Err(StpFault::BadLine(line));
    };
    let Some((second, rest)) = first_word(rest) else {
        return Err(StpFault::BadLine(line));
    };
    let third = one_word(line, rest)?;
    Ok((first, second, third))
}
