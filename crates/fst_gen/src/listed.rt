//! Trees that can be put in file order.

use full_tree::{Tree, tree_order};
use std::cmp::Ordering;
use std::marker::Model;

/// A tree of at most 8 members, each named once. Contracts see the tree.
#[derive(Drop)]
pub struct Listed {
    tree: Tree,
}

impl Model for Listed {
    ghost use Rattle.full_tree.specs.declared.code.Tree.{Tree};
    ghost use Rattle.full_tree.specs.Code.{HasFewMembers};

    ghost Value = { Tree };

    ghost view = { λ l. l.tree };

    ghost invariant = { λ l. HasFewMembers l.tree.code };
}

impl Listed {
    ghost use Rattle.std.specs.Prelude.{◌≡◌};
    ghost use Rattle.full_tree.specs.Code.{HasFewMembers};
    ghost use Rattle.full_tree.specs.Order.{tree_cmp};

    /// The tree, to be listed.
    pub fn of(tree: Tree) -> Listed
        requires { HasFewMembers tree.code }
        ensures { result ≡ tree }
    {
        Listed { tree }
    }

    /// The tree again.
    pub fn into_tree(self) -> Tree
        ensures { result ≡ self }
    {
        let Listed { tree } = self;
        tree
    }

    /// The file order of two trees.
    pub fn order(&self, other: &Listed) -> Ordering
        ensures { result ≡ tree_cmp self.now other.now }
    {
        tree_order(&self.tree, &other.tree)
    }
}
