//! The value of a file.

use full_tree::TreeList;
use hanan_grid::Grid;
use std::marker::Model;

/// Points, by their grid, and at most 20,000 full trees of them, each in form and with its length, in
/// strictly ascending file order. Contracts see the points and the trees.
#[derive(Drop)]
pub struct FstFile {
    /// The grid of the points.
    pub grid: Grid,
    /// The trees.
    pub trees: TreeList,
}

impl Model for FstFile {
    ghost use Rattle.fst_file.specs.Value.{FstValue, AreTreesOf};

    ghost Value = { FstValue };

    ghost view = { λ file. record { points = file.grid; trees = file.trees } };

    ghost invariant = { λ file. AreTreesOf file.grid file.trees };
}
