//! One code after another, tried and kept.

ghost use Rattle.std.specs.Prelude.{◌≡◌};
ghost use Rattle.fst_gen.specs.Store.{IsStore, Generates};

use crate::fault::GenFault;
use crate::store::keep;
use full_tree::{Tree, TreeCode, member_count, passes, tree_length};
use hanan_grid::Grid;
use spanning::Table;
use std::alloc::Global;
use std::collections::BTreeMap;

/// Keeps the tree of a code where it passes, has at most so many members, and is the least so far of its
/// set of members.
pub fn try_code(
    alloc: Global,
    grid: &Grid,
    table: &Table,
    most: usize,
    trees: &mut BTreeMap<u64, Tree>,
    code: TreeCode,
) -> Result<(), GenFault>
    requires table { table.now ≡ grid.now }
    requires store { IsStore grid.now most trees.old }
    ensures { Generates grid.now most (λ other. other ≡ code) trees.old trees.new result }
{
    if !passes(grid, table, &code) {
        return Ok(());
    }
    if member_count(&code) > most {
        return Ok(());
    }
    let _few = grid.points().len();
    let length = tree_length(grid, &code);
    keep(alloc, trees, Tree { length, code })
}
