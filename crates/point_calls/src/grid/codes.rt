//! What is told of codes of full Steiner trees.

ghost use Rattle.full_tree.specs.Form.{IsInForm};

use crate::grid::described::{code, tree};
use full_tree::{
    Tree, TreeCode, code_order, embed, in_form, members, piece, piece_count, tree_length,
    tree_order,
};
use graph_calls::told::tell_edges;
use hanan_grid::Grid;
use row_tables::{Call, Fault, Told};
use std::alloc::Global;

/// For each code of the lines the length of its tree, or that it is not in form.
pub fn lengths(alloc: Global, grid: &Grid, lines: &str, told: &mut Told) -> Result<(), Fault> {
    for line in lines.lines() {
        length(grid, &code(alloc, line)?, told);
    }
    Ok(())
}

// The length of the tree of a code, or that it is not in form.
fn length(grid: &Grid, code: &TreeCode, told: &mut Told) {
    if in_form(grid, code) {
        told.line("length ", &tree_length(grid, code));
    } else {
        told.word("not in form\n");
    }
}

/// The members and the pieces of the tree of a line, and the edges that it takes.
pub fn parts(alloc: Global, grid: &Grid, line: &str, told: &mut Told) -> Result<(), Fault> {
    tell(alloc, grid, &code(alloc, line)?, told)
}

// The members and the pieces of the tree of a code in form, and the edges that it takes.
fn tell(alloc: Global, grid: &Grid, code: &TreeCode, told: &mut Told) -> Result<(), Fault> {
    if !in_form(grid, code) {
        return Err(Fault::NotAllowed);
    }
    for member in members(alloc, code).as_slice() {
        told.line("member ", member);
    }
    pieces(grid, code, told);
    tell_edges(told, "edges", &embed(alloc, grid, code)?);
    Ok(())
}

// The ends of each piece.
fn pieces(grid: &Grid, code: &TreeCode, told: &mut Told)
    requires { IsInForm grid.now code.now }
{
    for n in 0..piece_count(grid, code) {
        let piece = piece(grid, code, n);
        told.value("piece ", &piece.from.x);
        told.value(" ", &piece.from.y);
        told.value(" ", &piece.to.x);
        told.line(" ", &piece.to.y);
    }
}

/// The order of the trees under `first` and `second`, and that of their codes.
pub fn order(alloc: Global, grid: &Grid, call: &Call, told: &mut Told) -> Result<(), Fault> {
    let second = call.text("second")?;
    order_before(
        alloc,
        grid,
        &tree(alloc, call.text("first")?)?,
        second,
        told,
    )
}

// The order of a tree and that of a line.
fn order_before(
    alloc: Global,
    grid: &Grid,
    first: &Tree,
    second: &str,
    told: &mut Told,
) -> Result<(), Fault> {
    compare(grid, first, &tree(alloc, second)?, told)
}

// The order of two trees in form, and that of their codes.
fn compare(grid: &Grid, first: &Tree, second: &Tree, told: &mut Told) -> Result<(), Fault> {
    if !in_form(grid, &first.code) || !in_form(grid, &second.code) {
        return Err(Fault::NotAllowed);
    }
    told.debug_line("trees ", &tree_order(first, second));
    told.debug_line("codes ", &code_order(&first.code, &second.code));
    Ok(())
}
