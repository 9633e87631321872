//! The laws of reductions. The functions do nothing: they are there for their clauses.

ghost use Rattle.graph_reduce.specs.Ending.{ReductionsEnd};
ghost use Rattle.graph_reduce.specs.Fitness.{ReductionsFit};
ghost use Rattle.graph_reduce.specs.Lifting.{LiftingKeepsLength};
ghost use Rattle.graph_reduce.specs.OneReduction.{OneReduction};

/// Of the reduction of a graph: each network of the reduced graph lifts to a network of the graph that is longer by
/// exactly the offset, and for each network of the graph there is one of the reduced graph that is no longer, less the
/// offset. So the least lengths differ by the offset. A law: the call does nothing, and its caller knows the fact from
/// there on.
pub fn lifting_keeps_length()
    ensures { LiftingKeepsLength }
{}

/// The reduction of a graph is a graph again, each of whose edges stands for edges of the graph that no other stands
/// for and that are not forced; its offset is at most the sum of the graph's lengths. A law: the call does nothing.
pub fn reductions_fit()
    ensures { ReductionsFit }
{}

/// A graph has one reduction at most: the rules, taken in their order, each at its lowest place or node, lead to one
/// state where none applies. A law: the call does nothing, and its caller knows the fact from there on.
pub fn one_reduction()
    ensures { OneReduction }
{}

/// No more steps lead from a graph than it has vertices and edges, so that each reduction ends. A law: the call does
/// nothing.
pub fn reductions_end()
    ensures { ReductionsEnd }
{}
