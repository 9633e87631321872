//! Laws of trees. The functions do nothing: each is there for its clauses.

ghost use Rattle.std.specs.Prelude.{List, length};
ghost use Rattle.points_in.specs.declared.point.Point.{Point};
ghost use Rattle.full_tree.specs.declared.code.Tree.{Tree};
ghost use Rattle.full_tree.specs.Form.{IsInForm};
ghost use Rattle.fst_concat.specs.Chosen.{HasMembersBelow};

/// A tree whose code is in form among some points has 2 to 8 members, all of them among these.
pub fn trees_in_form_have_members()
    ensures { (ps : List Point) (tree : Tree) → IsInForm ps tree.code → HasMembersBelow (length ps) tree }
{}
