//! Reads an answer byte by byte, and judges its lines as they end.

ghost use Rattle.std.specs.Prelude.{◌≡◌, ◌+◌, ◌-◌, ◌^◌, ◌<◌, ℕ, List, [], ◌∷◌, ◌++◌, None, IfNone};
ghost use Rattle.answer_text.specs.Reader.{bytes_fed};
ghost use Rattle.tree_judge.specs.Standing.{IsJudgeOn};
ghost use Rattle.cert_check.specs.Named.{named_of};
ghost use Rattle.cert_check.specs.Underway.{Follows, IsReading};

use crate::answer_judge::judge_line;
use crate::subject::Subject;
use answer_text::{EventReader, reads_beginnings};
use tree_judge::{Cause, Judge};

/// Reads one more byte, and judges the line that it ends. Gives why the answer is refused, if it is from here on.
pub(crate) fn read_byte(
    subject: Subject,
    reader: &mut EventReader,
    judge: &mut Judge,
    byte: u8,
) -> Option<Cause>
    requires sizes { IsJudgeOn (named_of subject).graph judge.old }
    requires few { bytes_fed reader.old < 2 ^ 32 - 1 }
    requires reads { IsReading (named_of subject).form reader.old }
    ensures sizes { IsJudgeOn (named_of subject.entry).graph judge.new }
    ensures fed { bytes_fed reader.new ≡ bytes_fed reader.old + 1 }
    ensures reads { IfNone result (IsReading (named_of subject.entry).form reader.new) }
    ensures follows { (bytes : List ℕ) → Follows (named_of subject.entry) bytes reader.old judge.old None
        → Follows (named_of subject.entry) (bytes ++ byte ∷ []) reader.new judge.new result }
{
    reads_beginnings();
    let line = reader.line();
    let told = match reader.feed(byte) {
        Ok(told) => told,
        Err(fault) => return Some(Cause::NotAnswer(fault.line)),
    };
    let Some(event) = told else {
        return None;
    };
    judge_line(subject, judge, line, &event, reader.members())
}
