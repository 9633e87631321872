//! The trees of a file.

ghost use Rattle.std.specs.Prelude.{◌↔◌, All, IsTrue, IfOk, IfErr, IfSome, IfNone};
ghost use Rattle.std.specs.List.{AllByRecursion};
ghost use Rattle.full_tree.specs.Code.{HasFewMembers};
ghost use Rattle.section_text.specs.Faults.{SpellsItem, FailsItem};
ghost use Rattle.fst_file.specs.Value.{IsTreeOf};
ghost use Rattle.fst_file.specs.Faults.{IsTreeFault, Follows};
ghost use Rattle.fst_file.specs.Format.{fst_format};

use crate::fault::FstFault;
use crate::tree_line::tree_in;
use full_tree::{Tree, TreeList, in_form, tree_length, tree_order};
use hanan_grid::Grid;
use points_in::MAX_POINTS;
use std::alloc::Global;
use std::cmp::Ordering;
use text_in::LineWords;

// What is wrong with a tree in a line behind these trees.
fn tree_fault(grid: &Grid, trees: &TreeList, line: u64, tree: &Tree) -> Option<FstFault>
    requires { AllByRecursion (IsTreeOf grid.now) trees.now }
    ensures fault { IfSome result (IsTreeFault grid.now trees.now line tree.now) }
    ensures tree { IfNone result (IsTreeOf grid.now tree.now) }
    ensures follows { IfNone result (Follows trees.now tree.now) }
{
    if !in_form(grid, &tree.code) {
        return Some(FstFault::NotInForm(line));
    }
    let found = tree_length(grid, &tree.code);
    let printed = tree.length;
    if printed != found {
        return Some(FstFault::WrongLength {
            line,
            printed,
            found,
        });
    }
    if follows(trees, tree) {
        None
    } else {
        Some(FstFault::OutOfOrder(line))
    }
}

// Whether a tree comes after the last one of a list in file order.
fn follows(trees: &TreeList, tree: &Tree) -> bool
    requires trees { All (λ t. HasFewMembers t.code) trees.now }
    requires tree { HasFewMembers tree.now.code }
    ensures { IsTrue result ↔ Follows trees.now tree.now }
{
    if trees.is_empty() {
        return true;
    }
    let last = trees.get(trees.len() - 1);
    matches!(tree_order(last, tree), Ordering::Less)
}

// The tree of a line, behind these trees.
pub(crate) fn next_tree(
    alloc: Global,
    grid: &Grid,
    trees: &TreeList,
    line: u64,
    words: &mut LineWords<'_>,
) -> Result<Tree, FstFault>
    requires { AllByRecursion (IsTreeOf grid.now) trees.now }
    ensures spelled { IfOk result (SpellsItem fst_format words.old) }
    ensures tree { IfOk result (IsTreeOf grid.now) }
    ensures follows { IfOk result (Follows trees.now) }
    ensures err { IfErr result (FailsItem fst_format grid.now trees.now line words.old) }
{
    let count = grid.points().len();
    prove!(count <= MAX_POINTS);
    let Some(tree) = tree_in(alloc, words) else {
        return Err(FstFault::BadLine(line));
    };
    match tree_fault(grid, trees, line, &tree) {
        Some(fault) => Err(fault),
        None => Ok(tree),
    }
}
