//! Shorter networks that a search finds in its first leaf.

ghost use Rattle.std.specs.Prelude.{◌≡◌, OnErr};
ghost use Rattle.graph_search.specs.Raised.{IsSameSearch};

use crate::raising::Raising;
use branch::Search;
use dual_ascent::Rule;
use net_graph::NetGraph;
use network_judge::shortened;
use std::alloc::{AllocError, Global};

/// Offers a search in the graph what a local search makes of the network that its first leaf shows, in at most so many
/// descents.
#[derive(Clone, Copy)]
pub struct Shortening<'a> {
    pub graph: &'a NetGraph,
    pub descents: u32,
}

impl Raising for Shortening<'_> {
    ghost is_for = { λ shortening g. shortening.graph.now ≡ g };

    #[tactic(auto, using(branch::specs::KindLaws::leaf_splits_vertices))]
    fn raise<F: Rule, G: Rule>(
        &self,
        alloc: Global,
        search: &mut Search<'_, F, G>,
        _openings: u8,
    ) -> Result<(), AllocError> {
        if search.is_settled() {
            Ok(())
        } else {
            offer_shorter(alloc, self.graph, self.descents, search)
        }
    }
}

/// Offers a search in a graph what a local search makes of the network that its first leaf shows, in at most so many
/// descents. The nearer the packing comes to the least length, the more of a shortest network are its saturated arcs:
/// there the local search finds what it misses where it begins with another network. An `Err` is want of memory, and
/// leaves the search as it was.
pub fn offer_shorter<F: Rule, G: Rule>(
    alloc: Global,
    g: &NetGraph,
    descents: u32,
    search: &mut Search<'_, F, G>,
) -> Result<(), AllocError>
    requires graph { g.now ≡ search.old.graph }
    ensures same { IsSameSearch search.old search.new }
    ensures tree { search.new.tree ≡ search.old.tree }
    ensures err { OnErr result (search.new ≡ search.old) }
{
    if let Some(shown) = search.shown() {
        let shorter = shortened(alloc, g, shown, descents)?;
        search.offer(shorter);
    }
    Ok(())
}
