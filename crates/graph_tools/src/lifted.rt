//! The text of a network that was found in a reduced graph and lifted.

ghost use Rattle.text_out.specs.Gathers.{Gathers};
ghost use Rattle.graph_tools.specs.Lifted.{edges_text, head_text, lifted_status, lifted_text};

use answer_text::status_word;
use net_graph::EdgeSet;
use reduced_text::{write_count, write_set};
use rst_outside::{PutFault, Sink};
use text_out::{Block, finish, literal};
use tool_frame::{Answer, AnswerStatus};

/// A network of a graph, lifted from its reduction: its edges and its length, a bound below which no network of the
/// graph falls, and whether the search in the reduced graph proved its network a shortest one.
#[derive(Drop)]
pub struct Lifted {
    pub network: EdgeSet,
    pub length: u64,
    pub bound: u64,
    pub optimal: bool,
}

impl Answer for Lifted {
    ghost text = { lifted_text };

    ghost status = { lifted_status };

    fn status(&self) -> AnswerStatus {
        AnswerStatus::of_search(self.optimal)
    }

    #[tactic(auto, using(text_out::specs::GatherLaws::pieces))]
    fn write<O: Sink>(&self, out: &mut O) -> Result<(), PutFault> {
        let mut block = Block::new();
        write_head(&mut block, out, self);
        write_edges(&mut block, out, &self.network);
        finish(block, out)
    }
}

// The lines before the edges.
#[tactic(auto, using(text_out::specs::GatherLaws::pieces))]
fn write_head<S: Sink>(block: &mut Block, sink: &mut S, lifted: &Lifted)
    ensures { Gathers (S.state sink.old) block.old (head_text lifted.now) (S.state sink.new) block.new }
{
    literal(block, sink, b"rst lifted 1\n");
    write_count(block, sink, b"length ", lifted.length);
    write_count(block, sink, b"bound ", lifted.bound);
    literal(block, sink, b"status ");
    literal(block, sink, status_word(lifted.optimal));
    literal(block, sink, b"\n");
}

// The lines of the edges, and the last line.
#[tactic(auto, using(text_out::specs::GatherLaws::pieces))]
fn write_edges<S: Sink>(block: &mut Block, sink: &mut S, network: &EdgeSet)
    ensures { Gathers (S.state sink.old) block.old (edges_text network.now) (S.state sink.new) block.new }
{
    write_set(block, sink, b"edges ", network);
    literal(block, sink, b"end\n");
}
