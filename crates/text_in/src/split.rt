//! Splitting off the first line or the first word.

ghost use Rattle.std.specs.Prelude.{◌≡◌, ◌∷◌, ◌++◌, IfSome, IfNone};
ghost use Rattle.text_in.specs.Words.{Lacks, IsLine};

/// What ends a line.
pub const LINE_FEED: u8 = b'\n';

/// What stands between two words.
pub const BLANK: u8 = b' ';

/// The bytes before the first separator and those after it. None where there is no separator.
pub fn split_at_byte(bytes: &[u8], separator: u8) -> Option<(&[u8], &[u8])>
    ensures parts { IfSome result (λ p. bytes.now ≡ p.0.now ++ separator ∷ p.1.now) }
    ensures first { IfSome result (λ p. Lacks p.0.now separator) }
    ensures none { IfNone result (Lacks bytes.now separator) }
{
    let place = bytes.iter().position(|byte| *byte == separator)?;
    let (front, rest) = bytes.split_at(place);
    Some((front, &rest[1..]))
}

/// The first line without its line feed, and the bytes after that line feed. None where there is no line feed,
/// so that a last line without one is no line.
pub fn split_line(bytes: &[u8]) -> Option<(&[u8], &[u8])>
    ensures parts { IfSome result (λ p. bytes.now ≡ p.0.now ++ 10 ∷ p.1.now) }
    ensures line { IfSome result (λ p. IsLine p.0.now) }
    ensures none { IfNone result (Lacks bytes.now 10) }
{
    split_at_byte(bytes, LINE_FEED)
}

/// The bytes before the first blank and those after it. None where there is no blank.
pub fn split_word(bytes: &[u8]) -> Option<(&[u8], &[u8])>
    ensures parts { IfSome result (λ p. bytes.now ≡ p.0.now ++ 32 ∷ p.1.now) }
    ensures first { IfSome result (λ p. Lacks p.0.now 32) }
    ensures none { IfNone result (Lacks bytes.now 32) }
{
    split_at_byte(bytes, BLANK)
}
