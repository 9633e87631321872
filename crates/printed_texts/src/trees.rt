//! The list of trees.

ghost use Rattle.std.specs.Prelude.{◌++◌, All, codes, flat_map};
ghost use Rattle.std.specs.Fmt.{decimal};
ghost use Rattle.rst_outside.specs.Sink.{Writes};
ghost use Rattle.text_out.specs.Gathers.{Gathers};
ghost use Rattle.full_tree.specs.Code.{members_of, HasFewMembers};
ghost use Rattle.full_tree.specs.Form.{IsInForm};
ghost use Rattle.full_tree.specs.Pieces.{pieces_of};
ghost use Rattle.printed_texts.specs.Trees.{places_text, tree_line, piece_line, tree_lines, tree_list_text};

use crate::points::write_point;
use full_tree::{Piece, Tree, TreeCode, TreeList, member, member_count, piece, piece_count};
use hanan_grid::Grid;
use rst_outside::{PutFault, Sink};
use text_out::{Block, finish, literal, number};

/// Writes a line for each tree: its members' places in ascending order and its length. Where `pieces` is true each
/// such line is followed by one for each of the tree's pieces, in their order. It takes no memory; on an `Err` the
/// sink failed, and the text was cut short.
#[tactic(auto, using(text_out::specs::GatherLaws::pieces))]
pub fn dump_trees<S: Sink>(
    sink: &mut S,
    grid: &Grid,
    trees: &TreeList,
    pieces: bool,
) -> Result<(), PutFault>
    requires { All (λ tree. IsInForm grid.now tree.code) trees.now }
    ensures { Writes (S.state sink.old) (tree_list_text grid.now pieces trees.now) (S.state sink.new) result }
{
    let mut block = Block::new();
    write_trees(&mut block, sink, grid, trees.as_slice(), pieces);
    finish(block, sink)
}

// The lines of trees.
#[tactic(auto, using(text_out::specs::GatherLaws::pieces))]
fn write_trees<S: Sink>(block: &mut Block, sink: &mut S, grid: &Grid, trees: &[Tree], pieces: bool)
    requires { All (λ tree. IsInForm grid.now tree.code) trees.now }
    ensures { Gathers (S.state sink.old) block.old (tree_list_text grid.now pieces trees.now)
        (S.state sink.new) block.new }
{
    for tree in trees {
        write_tree(block, sink, grid, tree, pieces);
    }
}

// The lines of a tree.
#[tactic(auto, using(text_out::specs::GatherLaws::pieces))]
fn write_tree<S: Sink>(block: &mut Block, sink: &mut S, grid: &Grid, tree: &Tree, pieces: bool)
    requires { IsInForm grid.now tree.now.code }
    ensures { Gathers (S.state sink.old) block.old (tree_lines grid.now pieces tree.now)
        (S.state sink.new) block.new }
{
    write_line(block, sink, tree);
    if pieces {
        write_pieces(block, sink, grid, &tree.code);
    }
}

// The line of a tree.
#[tactic(auto, using(text_out::specs::GatherLaws::pieces))]
fn write_line<S: Sink>(block: &mut Block, sink: &mut S, tree: &Tree)
    requires { HasFewMembers tree.now.code }
    ensures { Gathers (S.state sink.old) block.old (tree_line tree.now) (S.state sink.new) block.new }
{
    write_members(block, sink, &tree.code);
    literal(block, sink, b"length ");
    number(block, sink, tree.length);
    literal(block, sink, b"\n");
}

// A tree's members, each with a blank behind it.
#[tactic(auto, using(text_out::specs::GatherLaws::pieces))]
fn write_members<S: Sink>(block: &mut Block, sink: &mut S, code: &TreeCode)
    requires { HasFewMembers code.now }
    ensures { Gathers (S.state sink.old) block.old (places_text (members_of code.now)) (S.state sink.new) block.new }
{
    for n in 0..member_count(code) {
        write_place(block, sink, member(code, n));
    }
}

// A place with a blank behind it.
#[tactic(auto, using(text_out::specs::GatherLaws::pieces))]
fn write_place<S: Sink>(block: &mut Block, sink: &mut S, place: u8)
    ensures { Gathers (S.state sink.old) block.old (decimal place ++ codes " ") (S.state sink.new) block.new }
{
    number(block, sink, place);
    literal(block, sink, b" ");
}

// The lines of a tree's pieces.
#[tactic(auto, using(text_out::specs::GatherLaws::pieces))]
fn write_pieces<S: Sink>(block: &mut Block, sink: &mut S, grid: &Grid, code: &TreeCode)
    requires { IsInForm grid.now code.now }
    ensures { Gathers (S.state sink.old) block.old (flat_map piece_line (pieces_of grid.now code.now))
        (S.state sink.new) block.new }
{
    for n in 0..piece_count(grid, code) {
        write_piece(block, sink, &piece(grid, code, n));
    }
}

// The line of a piece.
#[tactic(auto, using(text_out::specs::GatherLaws::pieces))]
fn write_piece<S: Sink>(block: &mut Block, sink: &mut S, piece: &Piece)
    ensures { Gathers (S.state sink.old) block.old (piece_line piece.now) (S.state sink.new) block.new }
{
    literal(block, sink, b"  ");
    write_point(block, sink, &piece.from);
    literal(block, sink, b" ");
    write_point(block, sink, &piece.to);
    literal(block, sink, b"\n");
}
