//! Laws of lines and words. The functions do nothing: each is there for its clauses.

ghost use Rattle.std.specs.Prelude.{◌≡◌, ℕ, List, ◌∷◌, ◌++◌, [], ◌+◌, ◌==◌, length, count_by};
ghost use Rattle.std.specs.List.{AllByRecursion};
ghost use Rattle.text_in.specs.Lines.{lines_of, text_of, empty_line, IsLineOfWords};

/// A text is determined by the words of its lines.
pub fn one_text()
    ensures { (a b : List ℕ) → lines_of a ≡ lines_of b → a ≡ b }
{}

/// The lines that were written are those that are read, and behind them the lines of what follows.
pub fn lines_written()
    ensures more { (lines : List (List (List ℕ))) (rest : List ℕ) → AllByRecursion IsLineOfWords lines
        → lines_of (text_of lines ++ rest) ≡ lines ++ lines_of rest }
    ensures alone { (lines : List (List (List ℕ))) → AllByRecursion IsLineOfWords lines
        → lines_of (text_of lines) ≡ lines ++ empty_line ∷ [] }
{}

/// A text has one line more than line feeds.
pub fn line_count()
    ensures { (text : List ℕ) → length (lines_of text) ≡ count_by (λ b. b == 10) text + 1 }
{}
