//! The lines of sets of edges, and of counts.

ghost use Rattle.std.specs.Prelude.{◌≡◌, ◌<◌, ◌-◌, ◌^◌, length, flat_map};
ghost use Rattle.text_out.specs.Gathers.{Gathers};
ghost use Rattle.net_graph.specs.Members.{members_of};
ghost use Rattle.reduced_text.specs.Text.{count_line, number_line, set_text};

use net_graph::EdgeSet;
use rst_outside::Sink;
use text_out::{Block, literal, number};

/// Writes the line of a set, which has a word and how many edges are in it, and then a line for each of them,
/// ascending, by its number, which counts from 1. The word ends in a blank.
#[tactic(auto, using(text_out::specs::GatherLaws::pieces))]
pub fn write_set<S: Sink>(block: &mut Block, sink: &mut S, word: &[u8], set: &EdgeSet)
    ensures { Gathers (S.state sink.old) block.old (set_text word.now set.now) (S.state sink.new) block.new }
{
    write_count(block, sink, word, u64::from(count_of(set)));
    write_members(block, sink, set);
}

/// Writes a line of a word and how many there are. The word ends in a blank.
#[tactic(auto, using(text_out::specs::GatherLaws::pieces))]
pub fn write_count<S: Sink>(block: &mut Block, sink: &mut S, word: &[u8], count: u64)
    ensures { Gathers (S.state sink.old) block.old (count_line word.now count) (S.state sink.new) block.new }
{
    literal(block, sink, word);
    number(block, sink, count);
    literal(block, sink, b"\n");
}

/// Writes the line of a number, which counts from 1.
#[tactic(auto, using(text_out::specs::GatherLaws::pieces))]
pub(crate) fn write_number<S: Sink>(block: &mut Block, sink: &mut S, n: u32)
    requires { n < 2 ^ 32 - 1 }
    ensures { Gathers (S.state sink.old) block.old (number_line n) (S.state sink.new) block.new }
{
    number(block, sink, n + 1);
    literal(block, sink, b"\n");
}

// The lines of a set's numbers, ascending.
fn write_members<S: Sink>(block: &mut Block, sink: &mut S, set: &EdgeSet)
    ensures { Gathers (S.state sink.old) block.old (flat_map number_line (members_of set.now))
        (S.state sink.new) block.new }
{
    for e in 0..set.len() {
        if set.has(e) {
            write_number(block, sink, e);
        }
    }
}

// How many numbers are in the set.
fn count_of(set: &EdgeSet) -> u32
    ensures { result ≡ length (members_of set.now) }
{
    let mut count = 0;
    for e in 0..set.len() {
        if set.has(e) {
            count += 1;
        }
    }
    count
}
