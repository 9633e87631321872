//! Laws of drawn points. The function does nothing: it is there for its clauses.

ghost use Rattle.std.specs.Prelude.{◌<◌, ◌^◌, List};
ghost use Rattle.points_in.specs.declared.point.Point.{Point};
ghost use Rattle.points_in.specs.Terminals.{terminals_of};
ghost use Rattle.net_graph.specs.Graph.{total_of};
ghost use Rattle.hanan_grid.specs.Grid.{hanan_grid_of};
ghost use Rattle.drawn_points.specs.Drawn.{AreDrawn};

/// The distinct ones of drawn points have a grid: its edges do not sum to too much.
pub fn short_grid()
    ensures { (ps : List Point) → AreDrawn ps → total_of (hanan_grid_of (terminals_of ps)) < 2 ^ 63 }
{}
