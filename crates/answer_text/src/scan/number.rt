//! Numbers, digit by digit.

ghost use Rattle.std.specs.Prelude.{◌≡◌, ◌+◌, ◌*◌, ◌<◌, ◌≤◌, IfSome, IfNone, IsTrue, ◌↔◌};
ghost use Rattle.answer_text.specs.declared.scan.Kept.{Kept};
ghost use Rattle.answer_text.specs.declared.scan.Scan.TheVariants as scan;
ghost use Rattle.answer_text.specs.Scanning.{LeadsTo, IsUnderway, IsDead, IsInField, least_of, limit_of};

use crate::scan::{Corner, Field, Scan};

// What is due behind the first digit of a number; None where no number of the field begins with the byte.
pub(crate) fn first_digit(field: Field, byte: u8) -> Option<Scan>
    ensures leads { IfSome result (λ next. (k : Kept) → LeadsTo k (scan.Due field) byte k next) }
    ensures sound { IfSome result (λ next. (k : Kept) → IsUnderway k next) }
    ensures dead { IfNone result ((k : Kept) → IsDead k (scan.Due field) byte) }
{
    let digit = digit_of(byte)?;
    if digit == 0 && is_positive(field) {
        return None;
    }
    let (tenth, last) = greatest(field);
    if tenth == 0 && digit > last {
        return None;
    }
    Some(Scan::Number(field, digit as u128))
}

// What is due behind a byte of a number that is no blank; None where no number of the field goes on with it.
pub(crate) fn next_digit(field: Field, value: u128, byte: u8) -> Option<Scan>
    ensures leads { IfSome result (λ next. (k : Kept) → IsInField field value →
        LeadsTo k (scan.Number field value) byte k next) }
    ensures sound { IfSome result (λ next. (k : Kept) → IsInField field value → IsUnderway k next) }
    ensures dead { IfNone result ((k : Kept) → IsInField field value → (byte ≡ 32 → ⊥) →
        IsDead k (scan.Number field value) byte) }
{
    let digit = digit_of(byte)?;
    let (tenth, last) = greatest(field);
    if value > 0 && (value < tenth || (value == tenth && digit <= last)) {
        Some(Scan::Number(field, 10 * value + digit as u128))
    } else {
        None
    }
}

// What is due behind the first byte of a coordinate; None where no coordinate begins with it.
pub(crate) fn coordinate_byte(corner: Corner, byte: u8) -> Option<Scan>
    ensures leads { IfSome result (λ next. (k : Kept) → LeadsTo k (scan.Coordinate corner) byte k next) }
    ensures sound { IfSome result (λ next. (k : Kept) → IsUnderway k next) }
    ensures dead { IfNone result ((k : Kept) → IsDead k (scan.Coordinate corner) byte) }
{
    if byte == b'-' {
        Some(Scan::Due(Field::Coordinate(corner, true)))
    } else {
        first_digit(Field::Coordinate(corner, false), byte)
    }
}

// The value of a digit; None for another byte.
fn digit_of(byte: u8) -> Option<u8>
    ensures digit { IfSome result (λ digit. (digit < 10) × (byte ≡ 48 + digit)) }
    ensures none { IfNone result (48 ≤ byte → byte < 58 → ⊥) }
{
    match byte {
        b'0'..=b'9' => Some(byte - b'0'),
        _ => None,
    }
}

// Whether 0 is no number of the field.
fn is_positive(field: Field) -> bool
    ensures { IsTrue result ↔ (least_of field ≡ 1) }
{
    matches!(
        field,
        Field::Weight | Field::EdgeNumber(_) | Field::VertexNumber(_) | Field::Coordinate(_, true)
    )
}

// The greatest number of a field without its last digit, and that digit.
fn greatest(field: Field) -> (u128, u8)
    ensures limit { 10 * result.0 + result.1 + 1 ≡ limit_of field }
    ensures digit { result.1 < 10 }
{
    match field {
        Field::Length | Field::Bound | Field::Weight => (1_844_674_407_370_955_161, 5),
        Field::Openings | Field::LastOpenings => (25, 5),
        Field::Total(_) => (34_028_236_692_093_846_346_337_460_743_176_821_145, 5),
        Field::Leaf => (429_496_729, 5),
        Field::Count(last) | Field::EdgeNumber(last) | Field::VertexNumber(last) => {
            (u128::from(last / 10), (last % 10) as u8)
        }
        Field::Coordinate(_, false) => (922_337_203_685_477_580, 7),
        Field::Coordinate(_, true) => (922_337_203_685_477_580, 8),
    }
}
