//! The lines of a text that are left.

ghost use Rattle.std.specs.Prelude.{◌≡◌, ◌+◌, ◌-◌, ◌==◌, ◌<◌, [], ◌∷◌, length, slice_index, IfSome, IfNone};
ghost use Rattle.stp_format.specs.Lines.{lines_of, without_return};

use std::marker::Model;
use text_in::split_line;

/// The lines of a text that are left, and how many were taken.
#[derive(Drop)]
pub(crate) struct Lines<'a> {
    /// What stands behind the last line that was taken, if it had a line feed.
    left: Option<&'a [u8]>,
    taken: u64,
}

impl<'a> Model for Lines<'a> {
    ghost use Rattle.std.specs.Prelude.{◌+◌, ◌≤◌, ◌^◌, length};
    ghost use Rattle.stp_format.specs.Left.{LinesLeft, lines_left, bytes_left};

    ghost Value = { LinesLeft };

    ghost view = { λ text. record { lines = lines_left text.left; taken = text.taken } };

    ghost invariant = { λ text. text.taken + bytes_left text.left ≤ 2 ^ 63 };
}

impl<'a> Lines<'a> {
    /// All lines of a text.
    pub(crate) fn of(text: &'a [u8]) -> Self
        ensures lines { result.lines ≡ lines_of text.now }
        ensures taken { result.taken ≡ 0 }
    {
        let size = text.len();
        prove!(size <= usize::MAX / 2);
        Lines {
            left: Some(text),
            taken: 0,
        }
    }

    /// How many lines were taken, which is the number of the last one.
    pub(crate) fn taken(&self) -> u64
        ensures { result ≡ self.now.taken }
    {
        self.taken
    }

    /// Takes the next line. None where no line is left.
    pub(crate) fn next_line(&mut self) -> Option<&'a [u8]>
        ensures found { IfSome result (λ line. self.old.lines ≡ line.now ∷ self.new.lines) }
        ensures taken { IfSome result (λ line. self.new.taken ≡ self.old.taken + 1) }
        ensures none { IfNone result (self.old.lines ≡ []) }
        ensures kept { IfNone result (self.new ≡ self.old) }
    {
        let left = self.left?;
        self.taken += 1;
        match split_line(left) {
            Some((line, rest)) => {
                self.left = Some(rest);
                Some(before_return(line))
            }
            None => {
                self.left = None;
                Some(left)
            }
        }
    }
}

// A line without the carriage return at its end.
fn before_return(line: &[u8]) -> &[u8]
    ensures { result.now ≡ without_return line.now }
{
    let len = line.len();
    if len > 0 && line[len - 1] == b'\r' {
        &line[..len - 1]
    } else {
        line
    }
}
