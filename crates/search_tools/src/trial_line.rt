//! The line that sums up the answer for drawn points.

ghost use Rattle.std.specs.Prelude.{◌≡◌};
ghost use Rattle.rst_outside.specs.Sink.{Writes};
ghost use Rattle.text_out.specs.Gathers.{Gathers};
ghost use Rattle.search_tools.specs.TrialLine.{answer_part, drawing_part, status_part, trial_text, trial_status};
ghost use Rattle.search_tools.specs.TrialSteps.{line_of};

use answer_text::status_word;
use graph_search::Solution;
use hanan_grid::Grid;
use rst_outside::{PutFault, Sink};
use text_out::{Block, finish, literal, number};
use tool_frame::{Answer, AnswerStatus};

/// What `trial` tells of the answer for drawn points, which was accepted.
#[derive(Clone, Copy)]
pub struct TrialLine {
    /// How many points were drawn, 1 to 50.
    pub count: u8,
    /// From which seed.
    pub seed: u64,
    /// How many of them are distinct.
    pub points: u8,
    /// The length of the answer's network.
    pub length: u64,
    /// The answer's bound.
    pub bound: u64,
    /// Whether the two are the same.
    pub optimal: bool,
    /// How many splits the answer's tree has.
    pub splits: u32,
}

impl TrialLine {
    /// What is told of the answer for the distinct ones of so many points of a seed.
    pub(crate) fn of(count: u8, seed: u64, solution: &Solution<Grid>) -> TrialLine
        ensures { result ≡ line_of count seed solution.now }
    {
        let head = &solution.answer.head;
        TrialLine {
            count,
            seed,
            points: solution.instance.points().len() as u8,
            length: head.length,
            bound: head.bound,
            optimal: head.optimal,
            splits: solution.answer.tree.splits(),
        }
    }
}

impl Answer for TrialLine {
    ghost text = { trial_text };

    ghost status = { trial_status };

    fn status(&self) -> AnswerStatus {
        AnswerStatus::of_search(self.optimal)
    }

    fn write<O: Sink>(&self, out: &mut O) -> Result<(), PutFault> {
        write_whole(out, *self)
    }
}

// Writes the line. An `Err` says that the sink failed, and that the line was cut short.
#[tactic(auto, using(text_out::specs::GatherLaws::pieces))]
fn write_whole<O: Sink>(out: &mut O, line: TrialLine) -> Result<(), PutFault>
    ensures { Writes (O.state out.old) (trial_text line) (O.state out.new) result }
{
    let mut block = Block::new();
    write_drawing(&mut block, out, line);
    write_answer(&mut block, out, line);
    finish(block, out)
}

// What was drawn.
#[tactic(auto, using(text_out::specs::GatherLaws::pieces))]
fn write_drawing<O: Sink>(block: &mut Block, out: &mut O, line: TrialLine)
    ensures { Gathers (O.state out.old) block.old (drawing_part line) (O.state out.new) block.new }
{
    literal(block, out, b"trial ");
    number(block, out, line.count);
    literal(block, out, b" ");
    number(block, out, line.seed);
    literal(block, out, b" points ");
    number(block, out, line.points);
}

// What the answer is.
#[tactic(auto, using(text_out::specs::GatherLaws::pieces))]
fn write_answer<O: Sink>(block: &mut Block, out: &mut O, line: TrialLine)
    ensures { Gathers (O.state out.old) block.old (answer_part line) (O.state out.new) block.new }
{
    literal(block, out, b" length ");
    number(block, out, line.length);
    literal(block, out, b" bound ");
    number(block, out, line.bound);
    write_status(block, out, line.optimal);
    literal(block, out, b" splits ");
    number(block, out, line.splits);
    literal(block, out, b" check accepted\n");
}

// The word of the answer's status.
#[tactic(auto, using(text_out::specs::GatherLaws::pieces))]
fn write_status<O: Sink>(block: &mut Block, out: &mut O, optimal: bool)
    ensures { Gathers (O.state out.old) block.old (status_part optimal) (O.state out.new) block.new }
{
    literal(block, out, b" ");
    literal(block, out, status_word(optimal));
}
