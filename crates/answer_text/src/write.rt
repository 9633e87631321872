//! The parts of an answer's text that name no edge and no vertex.

ghost use Rattle.std.specs.Prelude.{ℕ, ◌≡◌, ◌+◌, ◌*◌, ◌==◌, ◌<◌, ◌++◌, length, map, slice_get, Some, codes};
ghost use Rattle.std.specs.Int.{bit_at};
ghost use Rattle.text_out.specs.Gathers.{Gathers};
ghost use Rattle.net_graph.specs.Flags.{has};
ghost use Rattle.answer_text.specs.LineKinds as line_of;
ghost use Rattle.answer_text.specs.Lines.{head_lines, leaf_lines, line_text, lines_text};
ghost use Rattle.answer_text.specs.Lines.{result_lines, search_lines};
ghost use Rattle.answer_text.specs.SetLaws.{digit_in_word};
ghost use Rattle.answer_text.specs.Words.{concat_word, set_text, status_word, title_words};

use crate::head::{AnswerHead, ConcatNote};
use crate::version::Version;
use itoa::Integer;
use net_graph::{Cut, Packing, VertexSet};
use rst_outside::Sink;
use text_out::{Block, literal, number};

// The lines of a head, in a text of this version.
#[tactic(auto, using(text_out::specs::GatherLaws::pieces))]
pub(crate) fn write_head<S: Sink>(
    block: &mut Block,
    sink: &mut S,
    version: Version,
    head: &AnswerHead,
)
    ensures { Gathers (S.state sink.old) block.old
        (lines_text (head_lines version head.now))
        (S.state sink.new) block.new }
{
    write_result(block, sink, version, head);
    write_search(block, sink, version, head);
}

// The first four lines.
#[tactic(auto, using(text_out::specs::GatherLaws::pieces))]
fn write_result<S: Sink>(block: &mut Block, sink: &mut S, version: Version, head: &AnswerHead)
    ensures { Gathers (S.state sink.old) block.old
        (lines_text (result_lines version head.now))
        (S.state sink.new) block.new }
{
    literal(block, sink, title_of(version));
    literal(block, sink, b"\n");
    write_number(block, sink, b"length ", head.length);
    write_number(block, sink, b"bound ", head.bound);
    write_status(block, sink, head.optimal);
}

/// The title of a text of this version.
pub(crate) fn title_of(version: Version) -> &'static [u8]
    ensures { result.now ≡ title_words version }
{
    match version {
        Version::One => b"rst answer 1",
        Version::Two => b"rst answer 2",
        Version::Graph => b"rst graph 1",
    }
}

// The lines behind those: on a grid two, and in a graph one.
#[tactic(auto, using(text_out::specs::GatherLaws::pieces))]
fn write_search<S: Sink>(block: &mut Block, sink: &mut S, version: Version, head: &AnswerHead)
    ensures { Gathers (S.state sink.old) block.old
        (lines_text (search_lines version head.now))
        (S.state sink.new) block.new }
{
    write_number(block, sink, b"openings ", head.openings);
    if version != Version::Graph {
        write_concat(block, sink, &head.concat);
    }
}

// A line of a word and a number.
#[tactic(auto, using(text_out::specs::GatherLaws::pieces))]
pub(crate) fn write_number<I: Integer, S: Sink>(
    block: &mut Block,
    sink: &mut S,
    word: &[u8],
    value: I,
)
    ensures { Gathers (S.state sink.old) block.old
        (word.now ++ I.text value ++ codes "\n")
        (S.state sink.new) block.new }
{
    literal(block, sink, word);
    number(block, sink, value);
    literal(block, sink, b"\n");
}

// The line of a status.
#[tactic(auto, using(text_out::specs::GatherLaws::pieces))]
fn write_status<S: Sink>(block: &mut Block, sink: &mut S, optimal: bool)
    ensures { Gathers (S.state sink.old) block.old (line_text (line_of.Status optimal)) (S.state sink.new) block.new }
{
    literal(block, sink, b"status ");
    literal(block, sink, status_word(optimal));
    literal(block, sink, b"\n");
}

// The line of the note on the concatenation.
#[tactic(auto, using(text_out::specs::GatherLaws::pieces))]
fn write_concat<S: Sink>(block: &mut Block, sink: &mut S, note: &ConcatNote)
    ensures { Gathers (S.state sink.old) block.old
        (line_text (line_of.Concat note.now))
        (S.state sink.new) block.new }
{
    literal(block, sink, b"concat ");
    literal(block, sink, kind_of(note.least));
    literal(block, sink, b" ");
    number(block, sink, note.total);
    literal(block, sink, b"\n");
}

/// The word of an answer's status: `optimal` where bound and length agree, else `stopped`.
pub fn status_word(optimal: bool) -> &'static [u8]
    ensures { result.now ≡ status_word optimal }
{
    if optimal { b"optimal" } else { b"stopped" }
}

// The word of what a total is.
pub(crate) fn kind_of(least: bool) -> &'static [u8]
    ensures { result.now ≡ concat_word least }
{
    if least { b"least" } else { b"spent" }
}

// A leaf with its cuts.
#[tactic(auto, using(text_out::specs::GatherLaws::pieces))]
pub(crate) fn write_leaf<S: Sink>(block: &mut Block, sink: &mut S, packing: &Packing)
    ensures { Gathers (S.state sink.old) block.old
        (lines_text (leaf_lines packing.now))
        (S.state sink.new) block.new }
{
    write_number(block, sink, b"leaf ", packing.len());
    write_cuts(block, sink, packing.cuts());
}

// The lines of cuts.
#[tactic(auto, using(text_out::specs::GatherLaws::pieces))]
fn write_cuts<S: Sink>(block: &mut Block, sink: &mut S, cuts: &[Cut])
    ensures { Gathers (S.state sink.old) block.old
        (lines_text (map line_of.Cut cuts.now))
        (S.state sink.new) block.new }
{
    for cut in cuts {
        write_cut(block, sink, cut);
    }
}

// The line of a cut.
#[tactic(auto, using(text_out::specs::GatherLaws::pieces))]
fn write_cut<S: Sink>(block: &mut Block, sink: &mut S, cut: &Cut)
    ensures { Gathers (S.state sink.old) block.old (line_text (line_of.Cut cut.now)) (S.state sink.new) block.new }
{
    literal(block, sink, b"cut ");
    number(block, sink, cut.weight);
    literal(block, sink, b" ");
    write_set(block, sink, &cut.members);
    literal(block, sink, b"\n");
}

// The digits of a set, sixteen at once: those of a word of it.
#[tactic(auto, using(text_out::specs::GatherLaws::pieces))]
pub(crate) fn write_set<S: Sink>(block: &mut Block, sink: &mut S, set: &VertexSet)
    ensures { Gathers (S.state sink.old) block.old (set_text set.now) (S.state sink.new) block.new }
{
    let total = set.len().div_ceil(4);
    for place in 0..set.len().div_ceil(64) {
        let digits = digits_of(flags_at(set, place));
        let count = (total - 16 * place).min(16) as usize;
        literal(block, sink, &digits[..count]);
    }
}

// The flags of the 64 vertices from `64 * place` on, the first at the lowest bit; 0 past the end of the set.
fn flags_at(set: &VertexSet, place: u32) -> u64
    requires { 64 * place < length set.now }
    ensures { (r : ℕ) → r < 64 → has set.now (64 * place + r) ≡ (bit_at result r == 1) }
{
    let within = set.len() - 64 * place;
    let flags = set.word(place);
    if within < 64 {
        flags & ((1 << within) - 1)
    } else {
        flags
    }
}

// The sixteen digits of 64 flags.
fn digits_of(flags: u64) -> [u8; 16]
    ensures { (n : ℕ) → n < 16 → slice_get result n ≡ Some (digit_in_word flags n) }
{
    let mut digits = [0; 16];
    for n in 0..16 {
        digits[n] = DIGITS[(flags >> (4 * n) & 15) as usize];
    }
    digits
}

// The digits of four flags, by the number whose lowest bit is the first of them.
const DIGITS: [u8; 16] = [
    b'0', b'8', b'4', b'c', b'2', b'a', b'6', b'e', b'1', b'9', b'5', b'd', b'3', b'b', b'7', b'f',
];
