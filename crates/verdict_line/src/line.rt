//! The line of a verdict.

ghost use Rattle.rst_outside.specs.Sink.{Writes};
ghost use Rattle.text_out.specs.Gathers.{Gathers};
ghost use Rattle.verdict_line.specs.Verdicts.{accepted_line, refused_line_by};
ghost use Rattle.verdict_line.specs.Verdicts.{line_text, line_text_by, line_status};

use crate::cause::write_refusal_by;
use crate::counting::Counting;
use answer_text::status_word;
use cert_check::{Cause, Ruling};
use rst_outside::{PutFault, Sink};
use text_out::{Block, finish, literal, number};
use tool_frame::{Answer, AnswerStatus};

/// The line of a verdict on an answer that isn't too long.
#[derive(Clone, Copy)]
pub struct VerdictLine {
    /// From which number edges and vertices count in the line.
    pub counting: Counting,
    /// What the line tells. In a cause edges and vertices count from 0, as everywhere but in the text.
    pub ruling: Ruling,
}

impl Answer for VerdictLine {
    ghost text = { line_text };

    ghost status = { line_status };

    fn status(&self) -> AnswerStatus {
        match self.ruling {
            Ruling::Accepted { .. } => AnswerStatus::Done,
            Ruling::Refused(_) => AnswerStatus::Refused,
        }
    }

    fn write<O: Sink>(&self, out: &mut O) -> Result<(), PutFault> {
        write_whole(out, self.counting, self.ruling)
    }
}

// Writes the line, with edges and vertices so counted. An `Err` says that the sink failed, and that the line was cut
// short.
#[tactic(auto, using(text_out::specs::GatherLaws::pieces))]
fn write_whole<O: Sink>(out: &mut O, counting: Counting, ruling: Ruling) -> Result<(), PutFault>
    ensures { Writes (O.state out.old) (line_text_by counting ruling) (O.state out.new) result }
{
    let mut block = Block::new();
    write_line(&mut block, out, counting, ruling);
    finish(block, out)
}

// The line, of which the last bytes wait in the block.
fn write_line<O: Sink>(block: &mut Block, out: &mut O, counting: Counting, ruling: Ruling)
    ensures { Gathers (O.state out.old) block.old (line_text_by counting ruling) (O.state out.new) block.new }
{
    match ruling {
        Ruling::Accepted {
            length,
            bound,
            optimal,
        } => write_accepted(block, out, length, bound, optimal),
        Ruling::Refused(cause) => write_refused(block, out, counting, cause),
    }
}

// The line of an answer that is accepted.
#[tactic(auto, using(text_out::specs::GatherLaws::pieces))]
fn write_accepted<O: Sink>(block: &mut Block, out: &mut O, length: u64, bound: u64, optimal: bool)
    ensures { Gathers (O.state out.old) block.old (accepted_line length bound optimal) (O.state out.new) block.new }
{
    literal(block, out, b"accepted length ");
    number(block, out, length);
    literal(block, out, b" bound ");
    number(block, out, bound);
    literal(block, out, b" ");
    literal(block, out, status_word(optimal));
    literal(block, out, b"\n");
}

// The line of an answer that is refused.
#[tactic(auto, using(text_out::specs::GatherLaws::pieces))]
fn write_refused<O: Sink>(block: &mut Block, out: &mut O, counting: Counting, cause: Cause)
    ensures { Gathers (O.state out.old) block.old (refused_line_by counting cause) (O.state out.new) block.new }
{
    write_refusal_by(block, out, counting, cause);
    literal(block, out, b"\n");
}
