//! An answer: a network, what bounds it from below, and what is told of both.

ghost use Rattle.rst_outside.specs.Sink.{Writes};
ghost use Rattle.answer_text.specs.Answers.{IsAnswerOn, value_told};
ghost use Rattle.answer_text.specs.Spelling.{SpellsAnswer};
ghost use Rattle.answer_text.specs.Text.{answer_text};

use crate::body::write_body;
use crate::head::AnswerHead;
use crate::labelled::Labelled;
use crate::length::answer_len;
use crate::write::write_head;
use cert_tree::CertTree;
use net_graph::EdgeSet;
use rst_outside::{PutFault, Sink};
use text_out::{Block, finish};

/// An answer on a grid, or in a graph.
#[derive(Drop)]
pub struct Answer {
    /// What it says of itself.
    pub head: AnswerHead,
    /// The edges of its network.
    pub network: EdgeSet,
    /// The cuts that bound every network from below.
    pub tree: CertTree,
}

/// Writes the text of an answer on a grid, in version 2, or in a graph, where the note on the concatenation is not
/// written. It takes no memory; on an `Err` the sink failed, and the text was cut short. The whole text spells the
/// answer, whatever the sink does.
#[tactic(auto, using(text_out::specs::GatherLaws::pieces))]
pub fn write_answer<S: Sink, L: Labelled>(
    sink: &mut S,
    of: &L,
    answer: &Answer,
) -> Result<(), PutFault>
    requires { IsAnswerOn (L.graph of.now) answer.now }
    ensures text { Writes (S.state sink.old)
        (answer_text (value_told (L.form of.now) (L.labels of.now) answer.now)) (S.state sink.new) result }
    ensures spells { SpellsAnswer (L.form of.now)
        (answer_text (value_told (L.form of.now) (L.labels of.now) answer.now))
        (value_told (L.form of.now) (L.labels of.now) answer.now) }
{
    // Who tells the length knows that the text spells the answer.
    prove!(answer_len(of, answer) < 1 << 32);
    let mut block = Block::new();
    write_head(&mut block, sink, of.version(), &answer.head);
    write_body(&mut block, sink, of, answer);
    finish(block, sink)
}
