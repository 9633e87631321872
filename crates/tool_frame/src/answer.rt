//! What a tool answers.

ghost use Rattle.std.specs.Prelude.{◌≡◌, List, ℕ};
ghost use Rattle.rst_outside.specs.Sink.{Writes};
ghost use Rattle.tool_frame.specs.declared.status.AnswerStatus.{AnswerStatus};
ghost use Rattle.tool_frame.specs.declared.status.AnswerStatus.TheVariants.{Done};

use crate::status::AnswerStatus;
use rst_outside::{PutFault, Sink};

/// What a tool answers: a text, and the status that it ends with.
pub trait Answer {
    /// Its text.
    ghost text: { Self → List ℕ };

    /// Its status; done, where nothing is said.
    ghost status: { Self → AnswerStatus } = { λ _. Done };

    /// What an answer has to meet so that its text can be written; nothing, where nothing is said.
    ghost fits: { Self → Type 0 } = { λ _. Unit {0} };

    /// The status that the tool ends with once the text is written.
    fn status(&self) -> AnswerStatus
        ensures { result ≡ status self.now };

    /// Writes the text. It takes no memory; on an `Err` the sink failed, and the text was cut short.
    fn write<O: Sink>(&self, out: &mut O) -> Result<(), PutFault>
        requires { fits self.now }
        ensures { Writes (O.state out.old) (text self.now) (O.state out.new) result };
}
