//! Copies of trees.

ghost use Rattle.std.specs.Prelude.{◌≡◌};

use full_tree::{Tree, TreeCode};

/// A tree of the same code and length. It takes no memory.
pub fn copy(tree: &Tree) -> Tree
    ensures { result ≡ tree.now }
{
    Tree {
        length: tree.length,
        code: copy_code(&tree.code),
    }
}

// The same code.
fn copy_code(code: &TreeCode) -> TreeCode
    ensures { result ≡ code.now }
{
    match code {
        TreeCode::Long {
            root,
            toward,
            drops,
            side,
            tip,
        } => TreeCode::Long {
            root: *root,
            toward: *toward,
            drops: drops.copy(),
            side: *side,
            tip: *tip,
        },
        TreeCode::Cross {
            west,
            south,
            east,
            north,
        } => TreeCode::Cross {
            west: *west,
            south: *south,
            east: *east,
            north: *north,
        },
    }
}
