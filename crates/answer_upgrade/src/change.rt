//! What becomes of a line of the text of an answer on a grid in version 2.

ghost use Rattle.std.specs.Prelude.{◌≡◌, ◌<◌, ℕ, length};
ghost use Rattle.answer_text.specs.declared.form.Form.TheVariants as form_of;
ghost use Rattle.answer_text.specs.declared.version.Version.{Version};
ghost use Rattle.answer_text.specs.AnswerLine.{Line};
ghost use Rattle.answer_text.specs.Lines.{line_bytes};
ghost use Rattle.answer_text.specs.LineFits.{FitsLine};
ghost use Rattle.answer_upgrade.specs.declared.change.Change.TheVariants as change;
ghost use Rattle.answer_upgrade.specs.Upgraded.{change_of};

// What becomes of a line.
#[derive(Clone, Copy)]
pub(crate) enum Change {
    // It is the title: it becomes that of version 2.
    Title,
    // It is a split of version 1: it becomes a split on an edge.
    Split,
    // It stays as it is.
    Stays,
}

// What becomes of a line. No other line than the title begins with an `r`, no other than a split's has an `i` as its
// fourth byte, and behind the word of a split a number stands in version 1 alone.
pub(crate) fn change_of(line: &[u8]) -> Change
    ensures change { (v : Version) (V : ℕ) (l : Line) → FitsLine v (form_of.OnGrid V) l → line.now ≡ line_bytes l →
        result ≡ change_of l }
    ensures long { result ≡ change.Split → 6 < length line.now }
{
    if line.len() < 7 {
        return Change::Stays;
    }
    if line[0] == b'r' {
        return Change::Title;
    }
    if line[3] != b'i' {
        return Change::Stays;
    }
    if line[6] <= b'9' {
        Change::Split
    } else {
        Change::Stays
    }
}
