//! Freely spelled numbers: a plus, a minus or neither, and then digits, of which the first may be zeros.

ghost use Rattle.std.specs.Prelude.{ℕ, ℤ, ◌≡◌, ◌<◌, ◌≤◌, ◌-◌, ◌^◌, ◌↔◌, ◌==◌, min, pos, neg_ℤ};
ghost use Rattle.std.specs.Prelude.{if◌then◌else◌, length, slice_index, IfOk, IfSome, IfNone, IsErrOf, IsTrue};
ghost use Rattle.std.specs.Prelude.{FitsSigned};
ghost use Rattle.std.specs.Int.{w64};
ghost use Rattle.std.specs.Str.Parse.{IsNumeral, digits_value, starts_with_minus};
ghost use Rattle.points_in.specs.Words.{is_blank, front_word};
ghost use Rattle.points_in.specs.Number.{IsNumberWord, IsNumber, number_of};

/// Whether the byte stands between words: a blank, a tab, a line feed or a carriage return.
pub fn separates(byte: u8) -> bool
    ensures { result ≡ is_blank byte }
{
    byte == b' ' || byte == b'\t' || byte == b'\n' || byte == b'\r'
}

/// The number that a text begins with.
#[derive(Clone, Copy)]
pub struct FrontNumber {
    /// The number.
    pub value: i64,
    /// How many bytes its word has.
    pub len: usize,
}

/// Why a text doesn't begin with a number of 64 bits.
#[derive(Clone, Copy)]
pub enum NumberFault {
    /// Its bytes up to the first blank are not a sign or none and then digits.
    NotNumber,
    /// They are a number below -2^63 or above 2^63-1.
    TooLarge,
}

/// The number whose word stands before the first blank or, where there is none, is the whole text.
pub fn front_number(bytes: &[u8]) -> Result<FrontNumber, NumberFault>
    ensures number { IfOk result (λ _. IsNumber (front_word bytes.now)) }
    ensures value { IfOk result (λ front. front.value ≡ number_of (front_word bytes.now)) }
    ensures len { IfOk result (λ front. front.len ≡ length (front_word bytes.now)) }
    ensures not_number { IsErrOf result NumberFault.NotNumber → ¬ IsNumberWord (front_word bytes.now) }
    ensures large_number { IsErrOf result NumberFault.TooLarge → IsNumberWord (front_word bytes.now) }
    ensures too_large { IsErrOf result NumberFault.TooLarge
        → ¬ FitsSigned w64 (number_of (front_word bytes.now)) }
{
    let negative = begins_with(bytes, b'-');
    let sign = sign_len(bytes);
    let Some(digits) = front_digits(&bytes[sign..]) else {
        return Err(NumberFault::NotNumber);
    };
    match signed(negative, digits.magnitude) {
        Some(value) => Ok(FrontNumber {
            value,
            len: sign + digits.len,
        }),
        None => Err(NumberFault::TooLarge),
    }
}

// Whether the first byte is this one.
fn begins_with(bytes: &[u8], byte: u8) -> bool
    requires { 0 < byte }
    ensures { result ≡ (slice_index bytes.now 0 == byte) }
{
    !bytes.is_empty() && bytes[0] == byte
}

// How many signs the text begins with, 1 at most.
fn sign_len(bytes: &[u8]) -> usize
    ensures { result ≡ (if starts_with_minus bytes.now then 1
        else if slice_index bytes.now 0 == 43 then 1 else 0) }
{
    if begins_with(bytes, b'-') || begins_with(bytes, b'+') {
        1
    } else {
        0
    }
}

// The digits that a text begins with: what they spell, at most 2^64-1, and how many they are.
#[derive(Clone, Copy)]
struct FrontDigits {
    magnitude: u64,
    len: usize,
}

// Whether the byte is one of the ten digits.
fn is_digit(byte: u8) -> bool
    ensures { IsTrue result ↔ ((48 ≤ byte) × (byte ≤ 57)) }
{
    b'0' <= byte && byte <= b'9'
}

// The digits before the first blank. None where there are none, or where another byte stands among them.
fn front_digits(bytes: &[u8]) -> Option<FrontDigits>
    ensures digits { IfSome result (λ _. IsNumeral 10 (front_word bytes.now)) }
    ensures value { IfSome result (λ front.
        front.magnitude ≡ min (digits_value 10 (front_word bytes.now)) (2 ^ 64 - 1)) }
    ensures len { IfSome result (λ front. front.len ≡ length (front_word bytes.now)) }
    ensures none { IfNone result (¬ IsNumeral 10 (front_word bytes.now)) }
{
    let mut magnitude = 0u64;
    let mut len = 0;
    while len < bytes.len() {
        let byte = bytes[len];
        if !is_digit(byte) {
            break;
        }
        magnitude = magnitude
            .saturating_mul(10)
            .saturating_add(u64::from(byte - b'0'));
        len += 1;
    }
    if len < bytes.len() && !separates(bytes[len]) {
        return None;
    }
    if len == 0 {
        return None;
    }
    Some(FrontDigits { magnitude, len })
}

// The number with the sign. None where it has more than 64 bits, as each of 2^64-1 or more has.
fn signed(negative: bool, magnitude: u64) -> Option<i64>
    ensures found { IfSome result (λ z. z ≡ (if negative then neg_ℤ (pos magnitude) else pos magnitude)) }
    ensures fits { IfSome result (λ z. FitsSigned w64 z) }
    ensures none { IfNone result
        (¬ FitsSigned w64 (if negative then neg_ℤ (pos magnitude) else pos magnitude)) }
{
    if negative {
        0i64.checked_sub_unsigned(magnitude)
    } else {
        0i64.checked_add_unsigned(magnitude)
    }
}
