//! An answer beside what it answers.

ghost use Rattle.std.specs.Prelude.{◌≡◌};
ghost use Rattle.answer_text.specs.Answers.{IsAnswerOn, value_told};
ghost use Rattle.answer_text.specs.Text.{answer_text};
ghost use Rattle.graph_search.specs.Status.{solution_status};

use answer_text::{Answer as CutAnswer, Labelled, write_answer};
use rst_outside::{PutFault, Sink};
use tool_frame::{Answer, AnswerStatus};

/// An answer that a search gives, and the instance of the Steiner problem that it is for: a grid, or a graph.
#[derive(Drop)]
pub struct Solution<L> {
    pub instance: L,
    pub answer: CutAnswer,
}

impl<L: Labelled> Answer for Solution<L> {
    ghost text = { λ s. answer_text (value_told (L.form s.instance) (L.labels s.instance) s.answer) };

    ghost status = { solution_status };

    ghost fits = { λ s. IsAnswerOn (L.graph s.instance) s.answer };

    fn status(&self) -> AnswerStatus {
        AnswerStatus::of_search(self.answer.head.optimal)
    }

    fn write<O: Sink>(&self, out: &mut O) -> Result<(), PutFault> {
        write_answer(out, &self.instance, &self.answer)
    }
}
