//! Full trees without those that pruning drops.

ghost use Rattle.std.specs.Prelude.{IfOk};
ghost use Rattle.fst_file.specs.Value.{AreTreesOf};
ghost use Rattle.fst_prune.specs.Kept.{AreKeptTrees};
ghost use Rattle.fst_prune.specs.LeastTotal.{IsNoWorse};
ghost use Rattle.tree_inputs.specs.Pruning.{IsPruned};

use fst_file::FstFile;
use fst_prune::prune;
use full_tree::TreeList;
use hanan_grid::Grid;
use std::alloc::{AllocError, Global};

/// The file of the same points and of the trees that pruning keeps. An `Err` is want of memory.
pub fn pruned(alloc: Global, file: FstFile) -> Result<FstFile, AllocError>
    ensures { IfOk result (IsPruned file) }
{
    let FstFile { grid, trees } = file;
    let kept = kept_trees(alloc, &grid, &trees)?;
    Ok(FstFile { grid, trees: kept })
}

/// The trees of a grid's terminals that pruning keeps of a list of them. An `Err` is want of memory.
pub fn kept_trees(alloc: Global, grid: &Grid, trees: &TreeList) -> Result<TreeList, AllocError>
    requires { AreTreesOf grid.now trees.now }
    ensures trees { IfOk result (AreTreesOf grid.now) }
    ensures kept { IfOk result (AreKeptTrees trees.now) }
    ensures no_worse { IfOk result (IsNoWorse trees.now) }
{
    let _points = grid.points().len();
    prune(alloc, trees)
}
