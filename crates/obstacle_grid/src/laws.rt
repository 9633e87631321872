//! The laws of edges and boxes. The functions do nothing: they are there for their clauses.

ghost use Rattle.obstacle_grid.specs.Crossing.{BlockingIsCrossing, EdgesRunStraight, NoEdgeCrosses, OthersAreLeft};
ghost use Rattle.obstacle_grid.specs.ReadBack.{GraphsAreReadBack, ObstaclesAreReadBack};

/// A box blocks a segment along an axis, whose ends are given with the lower one first, exactly where the segment
/// crosses the box's interior. A law: the call does nothing, and its caller knows the fact from there on.
pub fn blocking_is_crossing()
    ensures { BlockingIsCrossing }
{}

/// Each edge of the grid of points and boxes runs along an axis. The graph of points and boxes has exactly those of
/// them that cross the interior of no box. A law: the call does nothing.
pub fn no_edge_crosses()
    ensures straight { EdgesRunStraight }
    ensures none { NoEdgeCrosses }
    ensures others { OthersAreLeft }
{}

/// The text of a graph with at most 255 different terminals, as `write_graph_stp` writes it, is read back: it is an
/// STP file whose graph is this one, but that each edge has its end of the lower number first. The graph of points and
/// boxes is read back as it is, and its file is a Steiner problem of the suite. A law: the call does nothing.
pub fn graphs_are_read_back()
    ensures graphs { GraphsAreReadBack }
    ensures obstacles { ObstaclesAreReadBack }
{}
