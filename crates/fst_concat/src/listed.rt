//! The members of the trees of a list, side by side.

ghost use Rattle.std.specs.Prelude.{◌≤◌, All, length, IfOk};
ghost use Rattle.fst_concat.specs.Chosen.{HasMembersBelow};
ghost use Rattle.fst_concat.specs.Listed.{IsListed};

use full_tree::{Places, Tree, members};
use std::alloc::{AllocError, Global};

/// The members of each tree. An `Err` is want of memory.
pub fn listed(alloc: Global, points: u8, trees: &[Tree]) -> Result<Vec<Places>, AllocError>
    requires trees { All (HasMembersBelow points) trees.now }
    ensures { IfOk result (λ listed. IsListed points trees.now listed.items) }
{
    let mut listed = Vec::new(alloc);
    for tree in trees {
        listed.push(members(alloc, &tree.code))?;
    }
    Ok(listed)
}
