//! Laws of bottlenecks. The functions do nothing: each is there for its clauses.

ghost use Rattle.std.specs.Prelude.{◌≡◌, ◌<◌, ◌≤◌, ℕ, List, length, max};
ghost use Rattle.points_in.specs.declared.point.Point.{Point};
ghost use Rattle.hanan_grid.specs.Distance.{distance_of};
ghost use Rattle.net_graph.specs.Search.{Leads};
ghost use Rattle.spanning.specs.Bottleneck.{IsBottleneck, IsTight};

/// Bottlenecks are distances of at most the rectilinear ones, and a way by a third terminal is no narrower.
pub fn bottlenecks_are_distances()
    ensures one { (ps : List Point) (i j b c : ℕ)
        → IsBottleneck ps i j b → IsBottleneck ps i j c → b ≡ c }
    ensures same { (ps : List Point) (i b : ℕ) → IsBottleneck ps i i b → b ≡ 0 }
    ensures back { (ps : List Point) (i j b : ℕ) → IsBottleneck ps i j b → IsBottleneck ps j i b }
    ensures direct { (ps : List Point) (i j b : ℕ) → i < length ps → j < length ps
        → IsBottleneck ps i j b → b ≤ distance_of ps i j }
    ensures between { (ps : List Point) (i k j a b c : ℕ)
        → IsBottleneck ps i k a → IsBottleneck ps k j b → IsBottleneck ps i j c → c ≤ max a b }
{}

/// The pairs of terminals whose distance is their bottleneck join all terminals.
pub fn tight_pairs_join()
    ensures { (ps : List Point) (i j : ℕ)
        → i < length ps → j < length ps → Leads (IsTight ps) i j }
{}
