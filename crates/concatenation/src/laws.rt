//! The laws on concatenations. A law is a call that does nothing, and its caller knows the fact from there on.

ghost use Rattle.concatenation.specs.PartitionLaws.{PartitionBound};
ghost use Rattle.concatenation.specs.SetLaws.{MoreTreesJoin, AllJoin, TotalsRise};
ghost use Rattle.concatenation.specs.TrailLaws.{BoundedTrailIsLeast, ClosedTrailIsLeast, SpentTrailsAreShort};

/// A set of the list's trees that holds a concatenation is one, so all trees together are where any are; and a set
/// within another has at most its total.
pub fn more_trees()
    ensures more_trees_join { MoreTreesJoin }
    ensures all_join { AllJoin }
    ensures totals_rise { TotalsRise }
{}

/// A trail each end of which is bounded, by whatever proof, or on which no end is open and none is better, shows that
/// no concatenation at all is below its total.
pub fn closed_trail_is_least()
    ensures bounded { BoundedTrailIsLeast }
    ensures closed { ClosedTrailIsLeast }
{}

/// A spent trail over m trees has fewer than 2^m - 1 splits.
pub fn spent_trails_are_short()
    ensures { SpentTrailsAreShort }
{}

/// Partitions whose amounts pack into the trees that are open bound every concatenation that respects the choices.
pub fn partition_bound()
    ensures { PartitionBound }
{}
