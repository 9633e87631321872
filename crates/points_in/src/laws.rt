//! Laws of the points and of their text. The functions do nothing: each is there for its clauses.

ghost use Rattle.std.specs.Prelude.{◌≡◌, ◌<◌, ◌≤◌, ◌↔◌, ℕ, List, length, Contains};
ghost use Rattle.std.specs.List.{AllByRecursion};
ghost use Rattle.points_in.specs.declared.fault.PointFault.{PointFault};
ghost use Rattle.points_in.specs.declared.point.Point.{Point};
ghost use Rattle.points_in.specs.Terminals.{terminals_of, AreDistinct};
ghost use Rattle.points_in.specs.Text.{IsPoint, IsPointText, PointFaultOf, points_text};

/// A text lists one list of points at most, or it has one fault at most, and never both.
pub fn one_answer()
    ensures points { (bytes : List ℕ) (ps qs : List Point)
        → IsPointText bytes ps → IsPointText bytes qs → ps ≡ qs }
    ensures fault { (bytes : List ℕ) (f g : PointFault)
        → PointFaultOf bytes f → PointFaultOf bytes g → f ≡ g }
    ensures never_both { (bytes : List ℕ) (ps : List Point) (f : PointFault)
        → IsPointText bytes ps → PointFaultOf bytes f → ⊥ }
{}

/// The written text of points lists these points, where there are some and at most 50 distinct ones.
pub fn written_points()
    ensures { (ps : List Point) → AllByRecursion IsPoint ps → 0 < length ps → length (terminals_of ps) ≤ 50
        → IsPointText (points_text ps) ps }
{}

/// The terminals of a list are its points, each once.
pub fn each_point_once()
    ensures distinct { (ps : List Point) → AreDistinct (terminals_of ps) }
    ensures same_points { (ps : List Point) (p : Point) → Contains (terminals_of ps) p ↔ Contains ps p }
{}
