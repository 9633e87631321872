//! The words of a line.

ghost use Rattle.std.specs.Prelude.{◌≡◌, ◌↔◌, ℕ, ◌<◌, ◌^◌, ℤ, FitsSigned, List, [], ◌∷◌, IsTrue, IfSome, IfNone};
ghost use Rattle.std.specs.Bool.{OnTrue, OnFalse};
ghost use Rattle.std.specs.Int.{w64};
ghost use Rattle.std.specs.Fmt.{decimal, signed_decimal};
ghost use Rattle.text_in.specs.Lines.{words_of};

use crate::number::{signed_spelled, unsigned_spelled};
use crate::split::split_word;
use std::marker::Model;

/// The words of a line that are left, between which stands one blank. Contracts see the list of the words.
#[derive(Drop)]
pub struct LineWords<'a> {
    /// What stands behind the last blank that was passed. None behind the last word.
    left: Option<&'a [u8]>,
}

impl<'a> Model for LineWords<'a> {
    ghost use Rattle.std.specs.Prelude.{ℕ, List};
    ghost use Rattle.text_in.specs.Left.{words_left};

    ghost Value = { List (List ℕ) };

    ghost view = { λ words. words_left words.left };
}

impl<'a> LineWords<'a> {
    /// All words of a line, which has no line feed.
    pub fn of(line: &'a [u8]) -> Self
        ensures { result ≡ words_of line.now }
    {
        LineWords { left: Some(line) }
    }

    /// Takes the next word. None where no word is left.
    pub fn next_word(&mut self) -> Option<&'a [u8]>
        ensures found { IfSome result (λ word. self.old ≡ word.now ∷ self.new) }
        ensures none { IfNone result ((self.old ≡ []) × (self.new ≡ [])) }
    {
        let line = self.left?;
        let Some((word, left)) = split_word(line) else {
            self.left = None;
            return Some(line);
        };
        self.left = Some(left);
        Some(word)
    }

    /// Takes the next word, where it is this one, and tells whether it is.
    pub fn passes(&mut self, word: &[u8]) -> bool
        ensures passed { OnTrue result (self.old ≡ word.now ∷ self.new) }
        ensures other { OnFalse result ((rest : List (List ℕ)) → self.old ≡ word.now ∷ rest → ⊥) }
    {
        match self.next_word() {
            Some(next) => next == word,
            None => false,
        }
    }

    /// Takes the next word, and gives the number from 0 to 2^64-1 that it spells.
    pub fn next_unsigned(&mut self) -> Option<u64>
        ensures found { IfSome result (λ n. self.old ≡ decimal n ∷ self.new) }
        ensures fits { IfSome result (λ n. n < 2 ^ 64) }
        ensures none { IfNone result ((n : ℕ) (rest : List (List ℕ)) → n < 2 ^ 64
            → self.old ≡ decimal n ∷ rest → ⊥) }
    {
        unsigned_spelled(self.next_word()?)
    }

    /// The same of a number from 0 to 2^32-1.
    pub fn next_count(&mut self) -> Option<u32>
        ensures found { IfSome result (λ n. self.old ≡ decimal n ∷ self.new) }
        ensures fits { IfSome result (λ n. n < 2 ^ 32) }
        ensures none { IfNone result ((n : ℕ) (rest : List (List ℕ)) → n < 2 ^ 32
            → self.old ≡ decimal n ∷ rest → ⊥) }
    {
        let number = self.next_unsigned()?;
        u32::try_from(number).ok()
    }

    /// The same of a number from -2^63 to 2^63-1.
    pub fn next_signed(&mut self) -> Option<i64>
        ensures found { IfSome result (λ z. self.old ≡ signed_decimal z ∷ self.new) }
        ensures fits { IfSome result (λ z. FitsSigned w64 z) }
        ensures none { IfNone result ((z : ℤ) (rest : List (List ℕ)) → FitsSigned w64 z
            → self.old ≡ signed_decimal z ∷ rest → ⊥) }
    {
        signed_spelled(self.next_word()?)
    }

    /// Whether no word is left.
    pub fn is_empty(&self) -> bool
        ensures { IsTrue result ↔ (self.now ≡ []) }
    {
        self.left.is_none()
    }

    /// Whether the words that are left are those of a line.
    pub fn are(&self, line: &[u8]) -> bool
        ensures { IsTrue result ↔ (self.now ≡ words_of line.now) }
    {
        match self.left {
            Some(left) => left == line,
            None => false,
        }
    }
}
