//! The digits of sets, one by one and in runs.

ghost use Rattle.std.specs.Prelude.{◌≡◌, ℕ, ◌<◌, ◌≤◌, ◌+◌, ◌^◌, length, take, false, true, IfSome, IfNone, IsTrue, ◌↔◌};
ghost use Rattle.std.specs.Fmt.{digit_glyph};
ghost use Rattle.net_graph.specs.Flags.{flag_of_four};
ghost use Rattle.answer_text.specs.declared.scan.Scan.TheVariants as scan;
ghost use Rattle.answer_text.specs.Scanning.{IsNext, IsRun, IsSound, IsDead};
ghost use Rattle.answer_text.specs.Spelling.{FitsName};

use crate::scan::{Kept, Scan};

impl Kept {
    // What is due behind a digit of a set; None where no set of so many vertices has the byte there.
    pub(crate) fn set_digit(&mut self, place: u32, byte: u8) -> Option<Scan>
        ensures next { IfSome result (λ next. IsSound self.old (scan.Set place) → FitsName self.old.name →
            IsNext self.old (scan.Set place) byte self.new next) }
        ensures dead { IfNone result (IsSound self.old (scan.Set place) → IsDead self.old (scan.Set place) byte) }
        ensures stage { self.new.stage ≡ self.old.stage }
    {
        let value = hex_digit(byte)?;
        let size = self.members.len() as u64;
        let first = 4 * place as u64;
        if first >= size || !is_told(value, size - first) {
            return None;
        }
        self.members.add_four(place, value);
        Some(Scan::Set(place + 1))
    }

    // Takes the digits at the front of a piece into a set of which so many were read, and gives how many. The last
    // digit is left where not all of its four flags are vertices'.
    pub(crate) fn set_digits(&mut self, place: u32, piece: &[u8]) -> usize
        ensures few { result ≤ length piece.now }
        ensures run { IsSound self.old (scan.Set place) → FitsName self.old.name →
            IsRun self.old (scan.Set place) (take result piece.now) self.new (scan.Set (place + result)) }
        ensures place { place + result < 2 ^ 32 }
        ensures stage { self.new.stage ≡ self.old.stage }
    {
        let whole = (self.members.len() / 4).saturating_sub(place);
        let most = piece.len().min(whole as usize);
        for taken in 0..most {
            let Some(value) = hex_digit(piece[taken]) else {
                return taken;
            };
            self.members.add_four(place + taken as u32, value);
        }
        most
    }
}

// Whether the four flags that a value tells are absent from this many on.
fn is_told(value: u8, vertices: u64) -> bool
    requires { value < 16 }
    ensures { IsTrue result ↔ ((r : ℕ) → r < 4 → flag_of_four value r ≡ true → r < vertices) }
{
    match vertices {
        0 => value == 0,
        1 => value % 8 == 0,
        2 => value % 4 == 0,
        3 => value % 2 == 0,
        _ => true,
    }
}

// The values of the digits of sets, and 16 for every other byte.
const HEX: [u8; 256] = [
    16, 16, 16, 16, 16, 16, 16, 16, 16, 16, 16, 16, 16, 16, 16, 16, 16, 16, 16, 16, 16, 16, 16, 16,
    16, 16, 16, 16, 16, 16, 16, 16, 16, 16, 16, 16, 16, 16, 16, 16, 16, 16, 16, 16, 16, 16, 16, 16,
    0, 1, 2, 3, 4, 5, 6, 7, 8, 9, 16, 16, 16, 16, 16, 16, 16, 16, 16, 16, 16, 16, 16, 16, 16, 16,
    16, 16, 16, 16, 16, 16, 16, 16, 16, 16, 16, 16, 16, 16, 16, 16, 16, 16, 16, 16, 16, 16, 16, 10,
    11, 12, 13, 14, 15, 16, 16, 16, 16, 16, 16, 16, 16, 16, 16, 16, 16, 16, 16, 16, 16, 16, 16, 16,
    16, 16, 16, 16, 16, 16, 16, 16, 16, 16, 16, 16, 16, 16, 16, 16, 16, 16, 16, 16, 16, 16, 16, 16,
    16, 16, 16, 16, 16, 16, 16, 16, 16, 16, 16, 16, 16, 16, 16, 16, 16, 16, 16, 16, 16, 16, 16, 16,
    16, 16, 16, 16, 16, 16, 16, 16, 16, 16, 16, 16, 16, 16, 16, 16, 16, 16, 16, 16, 16, 16, 16, 16,
    16, 16, 16, 16, 16, 16, 16, 16, 16, 16, 16, 16, 16, 16, 16, 16, 16, 16, 16, 16, 16, 16, 16, 16,
    16, 16, 16, 16, 16, 16, 16, 16, 16, 16, 16, 16, 16, 16, 16, 16, 16, 16, 16, 16, 16, 16, 16, 16,
    16, 16, 16, 16, 16, 16, 16, 16, 16, 16, 16, 16, 16, 16,
];

// The value of a digit of a set, from 0 to 15; None for another byte.
fn hex_digit(byte: u8) -> Option<u8>
    ensures digit { IfSome result (λ value. (value < 16) × (byte ≡ digit_glyph false value)) }
    ensures none { IfNone result ((value : ℕ) → value < 16 → byte ≡ digit_glyph false value → ⊥) }
{
    let value = HEX[byte as usize];
    if value < 16 { Some(value) } else { None }
}
