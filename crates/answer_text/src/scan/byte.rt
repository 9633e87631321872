//! The next byte of a line.

ghost use Rattle.std.specs.Prelude.{◌≡◌, ℕ, Bool, None, IfSome, IfNone};
ghost use Rattle.answer_text.specs.declared.scan.Corner.{Corner};
ghost use Rattle.answer_text.specs.declared.scan.Field.TheVariants as field_of;
ghost use Rattle.answer_text.specs.declared.scan.Scan.TheVariants as scan_of;
ghost use Rattle.answer_text.specs.Scanning.{IsNext, IsSound, IsDead, IsInField, IsLast, signed};
ghost use Rattle.answer_text.specs.Spelling.{FitsName};

use crate::scan::number::{coordinate_byte, first_digit, next_digit};
use crate::scan::words::{fork_byte, word_byte};
use crate::scan::{Corner, Field, Kept, Scan};

// What is due behind a byte of the line; None where no line that is due goes on with it.
pub(crate) fn scan_byte(kept: &mut Kept, scan: Scan, byte: u8) -> Option<Scan>
    ensures next { IfSome result (λ next. IsSound kept.old scan → FitsName kept.old.name →
        IsNext kept.old scan byte kept.new next) }
    ensures dead { IfNone result (IsSound kept.old scan → IsDead kept.old scan byte) }
    ensures stage { kept.new.stage ≡ kept.old.stage }
    ensures refused { scan ≡ scan_of.Refused → result ≡ None }
{
    match scan {
        Scan::Set(place) => kept.set_digit(place, byte),
        Scan::Number(field, value) => kept.number_byte(field, value, byte),
        Scan::Word(word, place) => word_byte(word, place, byte),
        Scan::Due(field) => first_digit(field, byte),
        Scan::Coordinate(corner) => coordinate_byte(corner, byte),
        Scan::Version | Scan::Status | Scan::Kind | Scan::Node(_, _) | Scan::On(_) => {
            fork_byte(scan, byte)
        }
        Scan::LineEnd(_) | Scan::Ended | Scan::Refused => None,
    }
}

impl Kept {
    // What is due behind a byte of a number.
    fn number_byte(&mut self, field: Field, value: u128, byte: u8) -> Option<Scan>
        ensures next { IfSome result (λ next. IsInField field value → FitsName self.old.name →
            IsNext self.old (scan_of.Number field value) byte self.new next) }
        ensures dead { IfNone result (IsInField field value → IsDead self.old (scan_of.Number field value) byte) }
        ensures stage { self.new.stage ≡ self.old.stage }
    {
        if byte == b' ' {
            self.number_ended(field, value)
        } else {
            next_digit(field, value, byte)
        }
    }

    // What is due behind a number and a blank; None where no blank may stand behind it.
    fn number_ended(&mut self, field: Field, value: u128) -> Option<Scan>
        ensures next { IfSome result (λ next. IsInField field value → FitsName self.old.name →
            IsNext self.old (scan_of.Number field value) 32 self.new next) }
        ensures dead { IfNone result (IsInField field value → IsDead self.old (scan_of.Number field value) 32) }
        ensures stage { self.new.stage ≡ self.old.stage }
    {
        match field {
            Field::Weight => {
                self.weight = u64::try_from(value).ok()?;
                self.members.clear();
                Some(Scan::Set(0))
            }
            Field::Coordinate(corner, minus) => self.coordinate_ended(
                corner,
                with_sign(minus, value)?,
            ),
            _ => None,
        }
    }

    // What is due behind a coordinate and a blank; None where it is the last.
    fn coordinate_ended(&mut self, corner: Corner, coordinate: i64) -> Option<Scan>
        ensures next { IfSome result (λ next. (minus : Bool) (value : ℕ) → coordinate ≡ signed minus value →
            IsInField (field_of.Coordinate corner minus) value → FitsName self.old.name →
            IsNext self.old (scan_of.Number (field_of.Coordinate corner minus) value) 32 self.new next) }
        ensures none { IfNone result (IsLast corner) }
        ensures stage { self.new.stage ≡ self.old.stage }
    {
        match corner {
            Corner::X1 => {
                self.name.x1 = coordinate;
                Some(Scan::Coordinate(Corner::Y1))
            }
            Corner::Y1 => {
                self.name.y1 = coordinate;
                Some(Scan::Coordinate(Corner::X2))
            }
            Corner::X2 => {
                self.name.x2 = coordinate;
                Some(Scan::Coordinate(Corner::Y2))
            }
            Corner::X => {
                self.name.x1 = coordinate;
                Some(Scan::Coordinate(Corner::Y))
            }
            Corner::Y2 | Corner::Y => None,
        }
    }
}

// A number with its sign; None where it has more than 64 bits.
pub(crate) fn with_sign(minus: bool, value: u128) -> Option<i64>
    ensures found { IfSome result (λ z. z ≡ signed minus value) }
    ensures none { IfNone result ((c : Corner) → IsInField (field_of.Coordinate c minus) value → ⊥) }
{
    if minus {
        if value > 1 << 63 {
            return None;
        }
        Some((-(value as i128)) as i64)
    } else {
        i64::try_from(value).ok()
    }
}
