//! Ways from the top of a tree to its leaves.

ghost use Rattle.std.specs.Prelude.{◌≡◌, ◌+◌, ◌<◌, ◌≤◌, ◌^◌, List, ◌∷◌, ◌++◌, Option, option_to_list};
ghost use Rattle.cert_tree.specs.declared.split.SplitOn.{SplitOn};
ghost use Rattle.cert_tree.specs.Way.{turns_up};

use crate::split::SplitOn;

/// A split on the way to a leaf, and whether the leaf is in its inside child.
#[derive(Clone, Copy)]
pub struct Turn {
    pub on: SplitOn,
    pub inside: bool,
}

// Goes from a leaf towards the top of its tree, by the nodes that stand before the leaf, the last of them first. A
// node is a split on the leaf's way unless two whole trees behind it stand before the leaf's way: then it is the split
// of those two. `passed` is how many whole trees stand between the node and the leaf's way.
pub(crate) fn turn_at(node: Option<SplitOn>, passed: &mut usize) -> Option<Turn>
    requires { passed.old < 2 ^ 63 }
    ensures turn { (before : List (Option SplitOn)) →
        turns_up (node ∷ before) passed.old ≡ option_to_list result ++ turns_up before passed.new }
    ensures few { passed.new ≤ passed.old + 1 }
{
    match (node, *passed) {
        (None, _) => {
            *passed += 1;
            None
        }
        (Some(on), 0) => Some(Turn { on, inside: false }),
        (Some(on), 1) => {
            *passed = 0;
            Some(Turn { on, inside: true })
        }
        (Some(_), _) => {
            *passed -= 1;
            None
        }
    }
}
