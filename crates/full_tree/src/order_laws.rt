//! Laws of the orders. The functions do nothing: each is there for its clauses.

ghost use Rattle.std.specs.Prelude.{◌≡◌, List, length};
ghost use Rattle.std.specs.List.{AllAdjacentBelow};
ghost use Rattle.std.specs.Cmp.{IsTotalOrder};
ghost use Rattle.std.specs.declared.cmp.Ordering.TheVariants.{Less, Equal};
ghost use Rattle.full_tree.specs.declared.code.Tree.{Tree};
ghost use Rattle.full_tree.specs.declared.code.TreeCode.{TreeCode};
ghost use Rattle.full_tree.specs.Order.{code_cmp, tree_cmp, IsInFileOrder};

/// The order of codes is total, and only a code itself is neither before nor after it.
pub fn code_order_is_total()
    ensures total { IsTotalOrder code_cmp }
    ensures same { (a b : TreeCode) → code_cmp a b ≡ Equal → a ≡ b }
{}

/// File order is total, only a tree itself is neither before nor after it, and a list is in order where
/// each of its trees is before the next one.
pub fn file_order_is_total()
    ensures total { IsTotalOrder tree_cmp }
    ensures same { (a b : Tree) → tree_cmp a b ≡ Equal → a ≡ b }
    ensures by_neighbours { (trees : List Tree)
        → AllAdjacentBelow (λ a b. tree_cmp a b ≡ Less) trees (length trees) → IsInFileOrder trees }
{}
