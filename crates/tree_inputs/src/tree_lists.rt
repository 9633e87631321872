//! Two lists of the full trees of points: of those of up to so many members, and of those of up to eight.

ghost use Rattle.std.specs.Prelude.{◌≡◌, ◌≤◌, All, IfOk, Ok};
ghost use Rattle.full_tree.specs.Code.{HasFewMembers};
ghost use Rattle.fst_file.specs.Value.{AreTreesOf};
ghost use Rattle.tool_frame.specs.Stops.{IfFound};
ghost use Rattle.tree_inputs.specs.Generation.{GeneratesTrees, IsTreeList};
ghost use Rattle.tree_inputs.specs.Lists.{GeneratesLists, IsLongerList, trees_up_to};

use crate::generation::trees_of;
use crate::generation_fault::GenerationFault;
use fst_file::FstFile;
use fst_gen::{GenFault, generate, pairs_join_all};
use fst_prune::copy;
use full_tree::{TreeList, lengths_are_within_the_grid, member_count};
use hanan_grid::Grid;
use std::alloc::{AllocError, Global};
use tool_frame::Stop;

// How many members any tree has at most.
const ALL_MEMBERS: u8 = 8;

/// Points with two lists of their full trees.
#[derive(Drop)]
pub struct TreeLists {
    /// The points and their trees of up to so many members.
    pub file: FstFile,
    /// Their trees of up to eight members, where that is more members, and these trees are at most 20,000.
    pub longer: Option<TreeList>,
}

/// The terminals of a grid with their trees of up to `k` members and those of up to eight; or there are more than
/// 20,000 of the former.
pub fn lists_of(alloc: Global, grid: Grid, k: u8) -> Result<TreeLists, Stop<GenerationFault>>
    requires least { 2 ≤ k }
    requires most { k ≤ 8 }
    ensures { IfFound result (GeneratesLists k grid) }
{
    match longer_list(alloc, &grid, k)? {
        Some(longer) => {
            let file = shorter_list(alloc, grid, &longer, k)?;
            Ok(TreeLists {
                file,
                longer: Some(longer),
            })
        }
        None => {
            let file = trees_of(alloc, grid, k)?;
            Ok(TreeLists { file, longer: None })
        }
    }
}

// The trees of up to eight members, where these are more than `k`; none where there are more than 20,000. An `Err` is
// want of memory.
fn longer_list(alloc: Global, grid: &Grid, k: u8) -> Result<Option<TreeList>, AllocError>
    ensures { IfOk result (IsLongerList k grid.now) }
{
    if k >= ALL_MEMBERS {
        return Ok(None);
    }
    lengths_are_within_the_grid();
    let _graph = grid.graph();
    match generate(alloc, grid, ALL_MEMBERS) {
        Ok(trees) => Ok(Some(trees)),
        Err(GenFault::TooManyTrees) => Ok(None),
        Err(GenFault::Memory(error)) => Err(error),
    }
}

// The trees of up to `k` members, which the longer list has too. So they need not be generated again. An `Err` is want
// of memory.
fn shorter_list(alloc: Global, grid: Grid, longer: &TreeList, k: u8) -> Result<FstFile, AllocError>
    requires least { 2 ≤ k }
    requires most { k ≤ 8 }
    requires list { IsTreeList grid 8 longer.now }
    requires trees { AreTreesOf grid longer.now }
    ensures { IfOk result (λ file. GeneratesTrees k grid (Ok file)) }
{
    pairs_join_all();
    let _points = grid.points().len();
    let trees = up_to(alloc, longer, k)?;
    Ok(FstFile { grid, trees })
}

// The trees of a list that have up to `k` members, in their order. An `Err` is want of memory.
fn up_to(alloc: Global, trees: &TreeList, k: u8) -> Result<TreeList, AllocError>
    requires { All (λ tree. HasFewMembers tree.code) trees.now }
    ensures { IfOk result (λ kept. kept ≡ trees_up_to k trees.now) }
{
    let mut kept = TreeList::empty(alloc);
    for tree in trees.as_slice() {
        if member_count(&tree.code) <= usize::from(k) {
            kept.push(copy(tree))?;
        }
    }
    Ok(kept)
}
