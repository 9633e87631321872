//! The lines of a text.

ghost use Rattle.std.specs.Prelude.{◌≡◌, ◌↔◌, ℕ, ◌+◌, ◌<◌, ◌^◌, [], ◌∷◌, length, IsTrue, IfSome, IfNone};
ghost use Rattle.text_in.specs.Lines.{lines_of, empty_line};

use crate::split::split_line;
use crate::words::LineWords;
use std::marker::Model;

/// The lines of a text that are left, and the number of the next one, counted from 1. The last of them is
/// what stands behind the last line feed of the text, and no whole line.
#[derive(Drop)]
pub struct TextLines<'a> {
    left: &'a [u8],
    number: u64,
}

impl<'a> Model for TextLines<'a> {
    ghost use Rattle.std.specs.Prelude.{◌+◌, ◌≤◌, ◌^◌, length};
    ghost use Rattle.text_in.specs.Lines.{LinesLeft, lines_of};

    ghost Value = { LinesLeft };

    ghost view = { λ text. record { lines = lines_of text.left.now; number = text.number } };

    ghost invariant = { λ text. text.number + length text.left.now ≤ 2 ^ 63 };
}

impl<'a> TextLines<'a> {
    /// All lines of a text.
    pub fn of(text: &'a [u8]) -> Self
        ensures lines { result.lines ≡ lines_of text.now }
        ensures number { result.number ≡ 1 }
    {
        let size = text.len();
        prove!(size <= usize::MAX / 2);
        TextLines {
            left: text,
            number: 1,
        }
    }

    /// The number of the next line, counted from 1.
    pub fn number(&self) -> u64
        ensures { result ≡ self.now.number }
    {
        self.number
    }

    /// Takes the next line. None where no whole line is left.
    pub fn next_line(&mut self) -> Option<LineWords<'a>>
        ensures found { IfSome result (λ words. self.old.lines ≡ words ∷ self.new.lines) }
        ensures more { IfSome result (λ words. 0 < length self.new.lines) }
        ensures number { IfSome result (λ words. self.new.number ≡ self.old.number + 1) }
        ensures none { IfNone result (length self.old.lines ≡ 1) }
        ensures kept { IfNone result (self.new ≡ self.old) }
    {
        let (line, left) = split_line(self.left)?;
        self.left = left;
        self.number += 1;
        Some(LineWords::of(line))
    }

    /// Whether nothing is left: no line, and no byte behind the last one.
    pub fn is_ended(&self) -> bool
        ensures { IsTrue result ↔ (self.now.lines ≡ empty_line ∷ []) }
    {
        self.left.is_empty()
    }
}
