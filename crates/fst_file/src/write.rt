//! Writing a file.

ghost use Rattle.std.specs.Prelude.{◌≡◌, flat_map, ◌∷◌, ◌++◌};
ghost use Rattle.std.specs.Fmt.{decimal};
ghost use Rattle.text_out.specs.Gathers.{Gathers};
ghost use Rattle.rst_outside.specs.Sink.{Writes};
ghost use Rattle.text_in.specs.Lines.{line_text};
ghost use Rattle.section_text.specs.Words.{point_words};
ghost use Rattle.fst_file.specs.Words.{way_word, side_word};
ghost use Rattle.fst_file.specs.Text.{fst_text};
ghost use Rattle.fst_file.specs.Pieces.{code_line, places_line, tree_line, points_part, trees_part};

use crate::file::FstFile;
use full_tree::{Tree, TreeCode, Way};
use points_in::Point;
use rst_outside::{PutFault, Sink};
use text_out::{Block, finish, literal, number, signed};

/// Writes the text of a file. It takes no memory. An `Err` says that the sink failed, and that a proper
/// prefix of the text was written.
pub fn write_file<S: Sink>(sink: &mut S, file: &FstFile) -> Result<(), PutFault>
    ensures { Writes (S.state sink.old) (fst_text file.now) (S.state sink.new) result }
{
    write_parts(sink, file.grid.points().as_slice(), file.trees.as_slice())
}

// Writes both parts of the text.
#[tactic(auto, using(text_out::specs::GatherLaws::pieces))]
fn write_parts<S: Sink>(sink: &mut S, points: &[Point], trees: &[Tree]) -> Result<(), PutFault>
    ensures { Writes (S.state sink.old) (points_part points.now ++ trees_part trees.now)
        (S.state sink.new) result }
{
    let mut block = Block::new();
    write_points(&mut block, sink, points);
    write_trees(&mut block, sink, trees);
    finish(block, sink)
}

// The lines before the trees.
#[tactic(auto, using(text_out::specs::GatherLaws::pieces))]
fn write_points<S: Sink>(block: &mut Block, sink: &mut S, points: &[Point])
    ensures { Gathers (S.state sink.old) block.old (points_part points.now) (S.state sink.new) block.new }
{
    literal(block, sink, b"rst fst 1\npoints ");
    number(block, sink, points.len());
    literal(block, sink, b"\n");
    write_point_lines(block, sink, points);
}

// The lines of the points.
#[tactic(auto, using(text_out::specs::GatherLaws::pieces))]
fn write_point_lines<S: Sink>(block: &mut Block, sink: &mut S, points: &[Point])
    ensures { Gathers (S.state sink.old) block.old (flat_map (λ p. line_text (point_words p)) points.now)
        (S.state sink.new) block.new }
{
    for point in points {
        write_point(block, sink, point);
    }
}

// The line of a point.
#[tactic(auto, using(text_out::specs::GatherLaws::pieces))]
fn write_point<S: Sink>(block: &mut Block, sink: &mut S, point: &Point)
    ensures { Gathers (S.state sink.old) block.old (line_text (point_words point.now))
        (S.state sink.new) block.new }
{
    signed(block, sink, &point.x);
    literal(block, sink, b" ");
    signed(block, sink, &point.y);
    literal(block, sink, b"\n");
}

// The lines behind the points.
#[tactic(auto, using(text_out::specs::GatherLaws::pieces))]
fn write_trees<S: Sink>(block: &mut Block, sink: &mut S, trees: &[Tree])
    ensures { Gathers (S.state sink.old) block.old (trees_part trees.now) (S.state sink.new) block.new }
{
    literal(block, sink, b"trees ");
    number(block, sink, trees.len());
    literal(block, sink, b"\n");
    write_tree_lines(block, sink, trees);
    literal(block, sink, b"end\n");
}

// The lines of the trees.
#[tactic(auto, using(text_out::specs::GatherLaws::pieces))]
fn write_tree_lines<S: Sink>(block: &mut Block, sink: &mut S, trees: &[Tree])
    ensures { Gathers (S.state sink.old) block.old (flat_map tree_line trees.now)
        (S.state sink.new) block.new }
{
    for tree in trees {
        write_tree(block, sink, tree);
    }
}

// The line of a tree.
#[tactic(auto, using(text_out::specs::GatherLaws::pieces))]
fn write_tree<S: Sink>(block: &mut Block, sink: &mut S, tree: &Tree)
    ensures { Gathers (S.state sink.old) block.old (tree_line tree.now) (S.state sink.new) block.new }
{
    number(block, sink, tree.length);
    write_code(block, sink, &tree.code);
    literal(block, sink, b"\n");
}

// The words of a code, each behind a blank.
#[tactic(auto, using(text_out::specs::GatherLaws::pieces))]
fn write_code<S: Sink>(block: &mut Block, sink: &mut S, code: &TreeCode)
    ensures { Gathers (S.state sink.old) block.old (code_line code.now) (S.state sink.new) block.new }
{
    match code {
        TreeCode::Long {
            root,
            toward,
            drops,
            side,
            tip,
        } => {
            literal(block, sink, b" long");
            write_place(block, sink, *root);
            literal(block, sink, way_letter(*toward));
            write_place(block, sink, *tip);
            write_side(block, sink, *side);
            write_places(block, sink, drops.as_slice());
        }
        TreeCode::Cross {
            west,
            south,
            east,
            north,
        } => {
            literal(block, sink, b" cross");
            write_places(block, sink, &[*west, *south, *east, *north]);
        }
    }
}

// The word of a direction, behind a blank.
fn way_letter(way: Way) -> &'static [u8]
    ensures { result.now ≡ 32 ∷ way_word way }
{
    match way {
        Way::East => b" E",
        Way::North => b" N",
        Way::West => b" W",
        Way::South => b" S",
    }
}

// The word of a side, behind a blank.
#[tactic(auto, using(text_out::specs::GatherLaws::pieces))]
fn write_side<S: Sink>(block: &mut Block, sink: &mut S, side: Option<u8>)
    ensures { Gathers (S.state sink.old) block.old (32 ∷ side_word side) (S.state sink.new) block.new }
{
    match side {
        Some(place) => write_place(block, sink, place),
        None => literal(block, sink, b" -"),
    }
}

// A place, behind a blank.
#[tactic(auto, using(text_out::specs::GatherLaws::pieces))]
fn write_place<S: Sink>(block: &mut Block, sink: &mut S, place: u8)
    ensures { Gathers (S.state sink.old) block.old (32 ∷ decimal place) (S.state sink.new) block.new }
{
    literal(block, sink, b" ");
    number(block, sink, place);
}

// Places, each behind a blank.
#[tactic(auto, using(text_out::specs::GatherLaws::pieces))]
fn write_places<S: Sink>(block: &mut Block, sink: &mut S, places: &[u8])
    ensures { Gathers (S.state sink.old) block.old (places_line places.now) (S.state sink.new) block.new }
{
    for place in places {
        write_place(block, sink, *place);
    }
}
