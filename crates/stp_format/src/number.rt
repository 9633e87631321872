//! Words in a number's place.

ghost use Rattle.std.specs.Prelude.{◌≡◌, ◌↔◌, pos, IsTrue, Some, option_and_then};
ghost use Rattle.stp_format.specs.Numbers.{spelled_number, count_of, weight_of, coordinate_of, word_fault as fault_of, number_in};
ghost use Rattle.stp_format.specs.Reading.{Gives};

use crate::fault::StpFault;

// The number of 64 bits with a sign that a word spells.
fn signed_in(word: &[u8]) -> Option<i64>
    ensures { result ≡ option_and_then coordinate_of (spelled_number word.now) }
{
    let Ok(text) = str::from_utf8(word) else {
        return None;
    };
    text.parse::<i64>().ok()
}

// Whether the word spells 0.
fn spells_zero(word: &[u8]) -> bool
    ensures { IsTrue result ↔ (option_and_then coordinate_of (spelled_number word.now) ≡ Some (pos 0)) }
{
    match signed_in(word) {
        Some(number) => number == 0,
        None => false,
    }
}

// The number of 64 bits without a sign that a word spells. With a minus it is 0.
fn unsigned_in(word: &[u8]) -> Option<u64>
    ensures { result ≡ option_and_then weight_of (spelled_number word.now) }
{
    let Ok(text) = str::from_utf8(word) else {
        return None;
    };
    match text.parse::<u64>() {
        Ok(number) => Some(number),
        Err(_) if spells_zero(word) => Some(0),
        Err(_) => None,
    }
}

// Why a word of a line isn't a number that is due.
fn word_fault(line: u64, word: &[u8]) -> StpFault
    ensures { result ≡ fault_of line word.now }
{
    if word.contains(&b'.') {
        StpFault::LeftOut(line)
    } else {
        StpFault::BadLine(line)
    }
}

/// The number of 32 bits that a word of a line spells.
pub(crate) fn count_in(line: u64, word: &[u8]) -> Result<u32, StpFault>
    ensures { Gives (λ n. n) result (number_in count_of line word.now) }
{
    match unsigned_in(word) {
        Some(number) if number <= u64::from(u32::MAX) => Ok(number as u32),
        _ => Err(word_fault(line, word)),
    }
}

/// The number of 64 bits that a word of a line spells.
pub(crate) fn weight_in(line: u64, word: &[u8]) -> Result<u64, StpFault>
    ensures { Gives (λ n. n) result (number_in weight_of line word.now) }
{
    match unsigned_in(word) {
        Some(number) => Ok(number),
        None => Err(word_fault(line, word)),
    }
}

/// The number of 64 bits with a sign that a word of a line spells.
pub(crate) fn coordinate_in(line: u64, word: &[u8]) -> Result<i64, StpFault>
    ensures { Gives (λ z. z) result (number_in coordinate_of line word.now) }
{
    match signed_in(word) {
        Some(number) => Ok(number),
        None => Err(word_fault(line, word)),
    }
}
