//! The law of pruning. The function does nothing: it is there for its clause.

ghost use Rattle.fst_prune.specs.LeastTotal.{PruningKeepsTotals};

/// Of a list in file order, pruning keeps what its concatenations come to: for each one there is one of the kept trees
/// that is no longer, and each one of the kept trees is one of the list, of the same total. So the least total stays.
pub fn pruning_keeps_least_total()
    ensures { PruningKeepsTotals }
{}
