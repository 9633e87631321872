//! What is done with a search before its plain splits.

ghost use Rattle.std.specs.Prelude.{◌≡◌, ◌≤◌};
ghost use Rattle.net_graph.specs.Graph.{Graph};
ghost use Rattle.branch.specs.Kinds.{SplitsVertices};
ghost use Rattle.cert_tree.specs.Preorder.{split_count};
ghost use Rattle.graph_search.specs.Raised.{IsSameSearch};

use branch::Search;
use dual_ascent::Rule;
use std::alloc::{AllocError, Global};

/// What may raise the first leaf of a search, shorten its network and split its leaves, before plain splits.
pub trait Raising {
    /// It is made for searches in this graph.
    ghost is_for: { Self → Graph → Type 0 };

    /// Raises a search, with at most so many splits, each on a vertex. An `Err` is want of memory, and leaves a search
    /// that may be raised less far.
    fn raise<F: Rule, G: Rule>(
        &self,
        alloc: Global,
        search: &mut Search<'_, F, G>,
        openings: u8,
    ) -> Result<(), AllocError>
        requires graph { is_for self.now search.old.graph }
        requires leaf { split_count search.old.tree ≡ 0 }
        ensures same { IsSameSearch search.old search.new }
        ensures few { split_count search.new.tree ≤ openings }
        ensures vertices { SplitsVertices search.new.tree };
}
