//! How beginnings of long codes are made.

ghost use Rattle.std.specs.Prelude.{ℕ, ◌≡◌, ◌+◌, ◌<◌, ◌≤◌, [], ◌∷◌, ◌++◌, length, IfSome, IfNone};
ghost use Rattle.full_tree.specs.declared.code.TreeCode.TheVariants.{Long};
ghost use Rattle.fst_gen.specs.Prefix.{IsPrefix, IsLongerBy, MayFollow};

use crate::prefix::Prefix;
use full_tree::{
    Places, Station, Stations, TreeCode, Way, foot, gap, goes_forward, keeps_up_to, lie_in_turn,
    point_at,
};
use points_in::Point;
use spanning::Table;
use std::alloc::Global;

/// A root and a direction with no drop. The allocator is kept and never asked.
pub fn begin(alloc: Global, points: &[Point], root: u8, toward: Way) -> Prefix
    requires { root < length points.now }
    ensures prefix { IsPrefix points.now result }
    ensures root { result.root ≡ root }
    ensures toward { result.toward ≡ toward }
    ensures drops { result.drops ≡ [] }
{
    let mut stations = Stations::empty();
    stations.push(Station {
        member: root,
        before: 0,
        leg: 0,
    });
    Prefix {
        root,
        toward,
        drops: Places::empty(alloc),
        last: root,
        foot: point_at(points, root),
        stations,
    }
}

/// The beginning with one drop more, where the drop may follow.
pub fn with_drop(points: &[Point], table: &Table, prefix: &Prefix, drop: u8) -> Option<Prefix>
    requires points { points.now ≡ table.now }
    requires prefix { IsPrefix points.now prefix.now }
    requires room { length prefix.now.drops < 6 }
    requires drop { drop < length points.now }
    ensures some { IfSome result (IsLongerBy points.now prefix.now drop) }
    ensures none { IfNone result (¬ MayFollow points.now prefix.now.root prefix.now.toward prefix.now.drops drop) }
{
    let drops = prefix.drops.as_slice();
    if !goes_forward(points, prefix.root, prefix.toward, drops, drop) {
        return None;
    }
    if !lie_in_turn(points, prefix.root, prefix.toward, drops, drop) {
        return None;
    }
    let longer = lengthened(points, prefix, drop);
    if !keeps_up_to(table, longer.stations.as_slice(), prefix.drops.len() + 1) {
        return None;
    }
    Some(longer)
}

// The beginning with one drop more.
fn lengthened(points: &[Point], prefix: &Prefix, drop: u8) -> Prefix
    requires prefix { IsPrefix points.now prefix.now }
    requires room { length prefix.now.drops < 6 }
    requires drop { drop < length points.now }
    ensures { IsLongerBy points.now prefix.now drop result }
{
    let at = foot(points, prefix.root, prefix.toward, drop);
    let mut stations = prefix.stations.copy();
    stations.push(Station {
        member: drop,
        before: gap(prefix.foot, at),
        leg: gap(at, point_at(points, drop)),
    });
    let mut drops = prefix.drops.copy();
    drops.push(drop);
    Prefix {
        root: prefix.root,
        toward: prefix.toward,
        drops,
        last: drop,
        foot: at,
        stations,
    }
}

/// The long code that begins so and has no further drop.
pub fn code_of(prefix: &Prefix, side: Option<u8>, tip: u8) -> TreeCode
    ensures { result ≡ Long prefix.now.root prefix.now.toward prefix.now.drops side tip }
{
    TreeCode::Long {
        root: prefix.root,
        toward: prefix.toward,
        drops: prefix.drops.copy(),
        side,
        tip,
    }
}
