//! What the file has of its own among the texts of sections.

ghost use Rattle.std.specs.Prelude.{◌≡◌, ◌≤◌, length, IfOk, IfErr, OnOk};
ghost use Rattle.fst_file.specs.Format.{fst_format};

use crate::fault::FstFault;
use crate::file::FstFile;
use crate::trees::next_tree;
use full_tree::{Tree, TreeList};
use hanan_grid::{Grid, GridFault};
use points_in::Points;
use section_text::{LineFault, SectionFormat};
use std::alloc::{AllocError, Global};
use text_in::LineWords;

/// How many trees a file holds at most.
pub const MAX_TREES: u32 = 20_000;

/// The format of the file: its items are trees, which are judged by the grid of the points.
pub struct FstFormat;

impl SectionFormat for FstFormat {
    type Item = Tree;

    type Basis = Grid;

    type Whole = FstFile;

    type Fault = FstFault;

    ghost format = { fst_format };

    ghost points_of = { λ grid. grid };

    fn lawful() {}

    fn title() -> &'static [u8] {
        b"rst fst 1"
    }

    fn kind() -> &'static [u8] {
        b"trees"
    }

    fn most() -> u32 {
        MAX_TREES
    }

    fn fault(fault: LineFault) -> FstFault {
        match fault {
            LineFault::BadLine(line) => FstFault::BadLine(line),
            LineFault::TooManyPoints(line) => FstFault::TooManyPoints(line),
            LineFault::RepeatedPoint(line) => FstFault::RepeatedPoint(line),
            LineFault::TooManyItems(line) => FstFault::TooManyTrees(line),
        }
    }

    fn of_memory(error: AllocError) -> FstFault {
        FstFault::Memory(error)
    }

    fn basis(alloc: Global, points: Points) -> Result<Grid, FstFault> {
        match Grid::new(alloc, &points) {
            Ok(grid) => Ok(grid),
            Err(GridFault::TooLong { total }) => Err(FstFault::TooLong { total }),
            Err(GridFault::Memory(error)) => Err(FstFault::Memory(error)),
        }
    }

    fn item(
        alloc: Global,
        grid: &Grid,
        trees: &TreeList,
        line: u64,
        words: &mut LineWords<'_>,
    ) -> Result<Tree, FstFault> {
        next_tree(alloc, grid, trees, line, words)
    }

    fn whole(_alloc: Global, grid: Grid, trees: TreeList) -> Result<FstFile, FstFault>
        requires fit { fst_format.PointsFit grid }
        requires few { length trees ≤ fst_format.most }
        requires items { fst_format.AreItems grid trees }
        ensures value { IfOk result (λ file. file ≡ fst_format.value_of grid trees) }
        ensures whole { OnOk result (fst_format.IsWhole grid trees) }
        ensures err { IfErr result (λ f. (fst_format.IsMemory f → ⊥) → fst_format.IsWholeFault grid trees f) }
    {
        Ok(FstFile { grid, trees })
    }
}
