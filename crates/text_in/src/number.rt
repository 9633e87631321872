//! Numbers in their one spelling.

ghost use Rattle.std.specs.Prelude.{◌≡◌, ℕ, ◌<◌, ◌^◌, ℤ, FitsSigned, IfSome, IfNone};
ghost use Rattle.std.specs.Int.{w64};
ghost use Rattle.std.specs.Fmt.{decimal, signed_decimal};

use itoa::Buffer;

/// The 64-bit number that the word spells: digits without a leading zero, after a minus where it is negative.
/// None for any other word, as `+1`, `-0`, `007` or the empty one.
pub fn signed_spelled(word: &[u8]) -> Option<i64>
    ensures found { IfSome result (λ z. word.now ≡ signed_decimal z) }
    ensures fits { IfSome result (λ z. FitsSigned w64 z) }
    ensures none { IfNone result ((z : ℤ) → FitsSigned w64 z → word.now ≡ signed_decimal z → ⊥) }
{
    let Ok(text) = str::from_utf8(word) else {
        return None;
    };
    let Ok(integer) = text.parse::<i64>() else {
        return None;
    };
    if Buffer::new().format(integer).as_bytes() == word {
        Some(integer)
    } else {
        None
    }
}

/// The same of a number from 0 to 2^64-1, which no minus precedes.
pub fn unsigned_spelled(word: &[u8]) -> Option<u64>
    ensures found { IfSome result (λ n. word.now ≡ decimal n) }
    ensures fits { IfSome result (λ n. n < 2 ^ 64) }
    ensures none { IfNone result ((n : ℕ) → n < 2 ^ 64 → word.now ≡ decimal n → ⊥) }
{
    let Ok(text) = str::from_utf8(word) else {
        return None;
    };
    let Ok(natural) = text.parse::<u64>() else {
        return None;
    };
    if Buffer::new().format(natural).as_bytes() == word {
        Some(natural)
    } else {
        None
    }
}
