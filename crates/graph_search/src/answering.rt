//! The answer that tells what a search found.

ghost use Rattle.std.specs.Prelude.{◌≡◌};
ghost use Rattle.graph_search.specs.Answering.{answer_with};

use answer_text::{Answer, AnswerHead, ConcatNote};
use branch::Solved;

/// The answer that tells what a search found, with so many openings allowed, and a note on concatenations.
pub fn answer_with(openings: u8, note: ConcatNote, solved: Solved) -> Answer
    ensures { result ≡ answer_with openings note solved }
{
    let Solved {
        network,
        length,
        bound,
        optimal,
        tree,
    } = solved;
    Answer {
        head: AnswerHead {
            length,
            bound,
            optimal,
            openings,
            concat: note,
        },
        network,
        tree,
    }
}
