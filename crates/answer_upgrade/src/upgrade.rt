//! The text of an answer on a grid in version 2, made from its text in either version.

ghost use Rattle.std.specs.Prelude.{◌≡◌, ◌<◌, ℕ, List, ◌++◌, length, map, drop, codes};
ghost use Rattle.rst_outside.specs.Sink.{Writes};
ghost use Rattle.text_out.specs.Gathers.{Gathers};
ghost use Rattle.answer_text.specs.declared.form.Form.TheVariants as form_of;
ghost use Rattle.answer_text.specs.declared.version.Version.{Version};
ghost use Rattle.answer_text.specs.AnswerLine.{Line};
ghost use Rattle.answer_text.specs.LineFits.{FitsLine, FitsLines};
ghost use Rattle.answer_text.specs.Lines.{line_bytes, line_text, lines_text};
ghost use Rattle.answer_text.specs.Spelling.{SpellsAnswer};
ghost use Rattle.answer_text.specs.Text.{answer_text};
ghost use Rattle.answer_text.specs.Value.{WrittenAnswer, upgraded};
ghost use Rattle.answer_upgrade.specs.Upgraded.{IsSpelling, upgraded_line};

use crate::change::{Change, change_of};
use answer_text::lines_fit;
use rst_outside::{PutFault, Sink};
use text_in::split_line;
use text_out::{Block, finish, literal};

/// Writes the text of the same answer in version 2: line by line, each of which becomes one line. It takes no memory;
/// on an `Err` the sink failed, and the text was cut short. The bytes are a text for cuts that are sets of so many
/// vertices.
pub fn write_upgraded<S: Sink>(sink: &mut S, vertices: u32, bytes: &[u8]) -> Result<(), PutFault>
    requires { IsSpelling vertices bytes.now }
    ensures { (answer : WrittenAnswer) → SpellsAnswer (form_of.OnGrid vertices) bytes.now answer →
        Writes (S.state sink.old) (answer_text (upgraded answer)) (S.state sink.new) result }
{
    lines_fit();
    let _ = vertices;
    let mut block = Block::new();
    write_lines(&mut block, sink, bytes);
    finish(block, sink)
}

// The lines of a text in version 2.
fn write_lines<S: Sink>(block: &mut Block, sink: &mut S, bytes: &[u8])
    ensures { (v : Version) (V : ℕ) (ls : List Line) → FitsLines v (form_of.OnGrid V) ls → bytes.now ≡ lines_text ls →
        Gathers (S.state sink.old) block.old (lines_text (map upgraded_line ls)) (S.state sink.new) block.new }
{
    lines_fit();
    let mut rest = bytes;
    'lines: while let Some((line, left)) = split_line(rest) {
        write_line(block, sink, line);
        rest = left;
    }
}

// A line in version 2.
fn write_line<S: Sink>(block: &mut Block, sink: &mut S, line: &[u8])
    ensures { (v : Version) (V : ℕ) (l : Line) → FitsLine v (form_of.OnGrid V) l → line.now ≡ line_bytes l →
        Gathers (S.state sink.old) block.old (line_text (upgraded_line l)) (S.state sink.new) block.new }
{
    match change_of(line) {
        Change::Title => literal(block, sink, b"rst answer 2\n"),
        Change::Split => write_split(block, sink, line),
        Change::Stays => write_same(block, sink, line),
    }
}

// The line of a split of version 1: it says besides that it is on an edge.
#[tactic(auto, using(text_out::specs::GatherLaws::pieces))]
fn write_split<S: Sink>(block: &mut Block, sink: &mut S, line: &[u8])
    requires { 6 < length line.now }
    ensures { Gathers (S.state sink.old) block.old
        (codes "split edge " ++ drop 6 line.now ++ codes "\n")
        (S.state sink.new) block.new }
{
    let (_, name) = line.split_at(6);
    literal(block, sink, b"split edge ");
    literal(block, sink, name);
    literal(block, sink, b"\n");
}

// A line as it stands.
#[tactic(auto, using(text_out::specs::GatherLaws::pieces))]
fn write_same<S: Sink>(block: &mut Block, sink: &mut S, line: &[u8])
    ensures { Gathers (S.state sink.old) block.old (line.now ++ codes "\n") (S.state sink.new) block.new }
{
    literal(block, sink, line);
    literal(block, sink, b"\n");
}
