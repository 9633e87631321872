//! Laws of codes and of lists of trees. The functions do nothing: each is there for its clauses.

ghost use Rattle.std.specs.Prelude.{ℕ, ◌≡◌, ◌<◌, List, length};
ghost use Rattle.points_in.specs.declared.point.Point.{Point};
ghost use Rattle.full_tree.specs.declared.code.Tree.{Tree};
ghost use Rattle.fst_gen.specs.Trees.{AreTreesOf, HasMoreSets};
ghost use Rattle.fst_gen.specs.Joins.{TreesJoin};
ghost use Rattle.fst_gen.specs.Prefix.{FailingBeginningNeverPasses, FailingDropNeverPasses, FarTipNeverPasses};

/// The trees of distinct points for 2 or more members join all of these points, and so do those of two
/// members by themselves.
pub fn pairs_join_all()
    ensures { TreesJoin }
{}

/// Points have one list of trees for a greatest number of members, and where more than n sets have passing
/// codes, it has more than n trees.
pub fn trees_are_one_list()
    ensures one { (ps : List Point) (k : ℕ) (some other : List Tree)
        → AreTreesOf ps k some → AreTreesOf ps k other → some ≡ other }
    ensures more { (ps : List Point) (k n : ℕ) (trees : List Tree)
        → AreTreesOf ps k trees → HasMoreSets ps k n → n < length trees }
{}

/// What fails in the beginning of a code fails in each code that begins so: whatever is asked of a code that speaks of
/// the root, the direction and the first drops alone; what a next drop has to meet; how far the tip's corner may be.
pub fn failing_prefix_never_passes()
    ensures beginning { FailingBeginningNeverPasses }
    ensures drop { FailingDropNeverPasses }
    ensures tip { FarTipNeverPasses }
{}
