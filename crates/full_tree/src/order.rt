//! The orders of codes and of trees.

ghost use Rattle.std.specs.Prelude.{◌≡◌};
ghost use Rattle.full_tree.specs.Order.{way_rank, code_cmp, tree_cmp};
ghost use Rattle.full_tree.specs.Code.{HasFewMembers};

use crate::code::{Tree, TreeCode};
use crate::membership::{member_count, sorted};
use crate::way::Way;
use std::cmp::Ordering;

// The rank of a direction.
fn rank(toward: Way) -> u8
    ensures { result ≡ way_rank toward }
{
    match toward {
        Way::East => 0,
        Way::North => 1,
        Way::West => 2,
        Way::South => 3,
    }
}

/// The order of codes. Long codes come before crosses. Long codes go by root, direction (east, north,
/// west, south), drops as lists (a list comes before those that it begins), side (none comes first) and
/// tip; crosses go by west, south, east and north.
pub fn code_order(a: &TreeCode, b: &TreeCode) -> Ordering
    ensures { result ≡ code_cmp a.now b.now }
{
    match (a, b) {
        (
            TreeCode::Long {
                root,
                toward,
                drops,
                side,
                tip,
            },
            TreeCode::Long {
                root: root_b,
                toward: toward_b,
                drops: drops_b,
                side: side_b,
                tip: tip_b,
            },
        ) => root
            .cmp(root_b)
            .then(rank(*toward).cmp(&rank(*toward_b)))
            .then(drops.as_slice().cmp(drops_b.as_slice()))
            .then(side.cmp(side_b))
            .then(tip.cmp(tip_b)),
        (TreeCode::Long { .. }, TreeCode::Cross { .. }) => Ordering::Less,
        (TreeCode::Cross { .. }, TreeCode::Long { .. }) => Ordering::Greater,
        (
            TreeCode::Cross {
                west,
                south,
                east,
                north,
            },
            TreeCode::Cross {
                west: west_b,
                south: south_b,
                east: east_b,
                north: north_b,
            },
        ) => west
            .cmp(west_b)
            .then(south.cmp(south_b))
            .then(east.cmp(east_b))
            .then(north.cmp(north_b)),
    }
}

/// The order in which trees are listed: by length, number of members, ascending members as lists, and
/// code.
pub fn tree_order(a: &Tree, b: &Tree) -> Ordering
    requires first { HasFewMembers a.now.code }
    requires second { HasFewMembers b.now.code }
    ensures { result ≡ tree_cmp a.now b.now }
{
    a.length
        .cmp(&b.length)
        .then(member_count(&a.code).cmp(&member_count(&b.code)))
        .then(sorted(&a.code).as_slice().cmp(sorted(&b.code).as_slice()))
        .then(code_order(&a.code, &b.code))
}
