//! The search as one call.

ghost use Rattle.std.specs.Prelude.{◌≡◌, ◌+◌, ◌<◌, ◌≤◌, ◌^◌, true, false, length, IfOk};
ghost use Rattle.net_graph.specs.Network.{length_of};
ghost use Rattle.net_graph.specs.Decision.{nothing_decided};
ghost use Rattle.cert_tree.specs.Preorder.{split_count};
ghost use Rattle.cert_tree.specs.TreeValue.{tree_value};
ghost use Rattle.branch.specs.States.{IsNetworkOf};
ghost use Rattle.branch.specs.PlainOpenings.{EndsPlainOpenings};
ghost use Rattle.branch.specs.Solving.{IsSolved, ways_of};

use crate::branch_and_bound::Search;
use crate::solved::Solved;
use crate::split_kind::SplitKind;
use dual_ascent::{Chooser, Rule};
use net_graph::{EdgeSet, NetGraph};
use std::alloc::{AllocError, Global};

/// What a search finds that begins with a network and makes at most `allowed` splits of a kind. It stops before that
/// only where no leaf's value is below its network's length. An `Err` is want of memory.
pub fn solve_graph<F: Rule, G: Rule>(
    alloc: Global,
    g: &NetGraph,
    first: EdgeSet,
    allowed: u8,
    ascent: Chooser<F>,
    split: Chooser<G>,
    kind: SplitKind,
) -> Result<Solved, AllocError>
    requires { IsNetworkOf g.now first }
    ensures solved { IfOk result (IsSolved g.now (length_of g.now first)) }
    ensures few { IfOk result (λ s. split_count s.tree ≤ allowed) }
    // It is not optimal only where all allowed splits were made and some leaf's value is below the length.
    ensures stopped { IfOk result (λ s. s.optimal ≡ false → split_count s.tree ≡ allowed) }
    ensures below { IfOk result
        (λ s. s.optimal ≡ false → tree_value g.now (nothing_decided g.now) s.tree < s.length) }
    // Plain openings of the kind lead to it from a tree of one leaf.
    ensures plain { IfOk result (λ s. EndsPlainOpenings kind g.now (length_of g.now first) s.network s.tree) }
    // With as many allowed splits as there are ways to decide what is split on, but one, it is optimal.
    ensures enough { IfOk result (λ s. ways_of kind g.now ≤ allowed + 1 → s.optimal ≡ true) }
{
    Search::start(alloc, g, first, ascent, split, kind)?.solve(allowed)
}
