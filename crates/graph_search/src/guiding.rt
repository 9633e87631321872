//! Ascents along the network of a search that raise its first leaf.

ghost use Rattle.std.specs.Prelude.{◌≡◌};
ghost use Rattle.cert_tree.specs.Preorder.{split_count};
ghost use Rattle.graph_search.specs.Raised.{IsUnsplit};

use branch::Search;
use dual_ascent::Rule;
use net_graph::NetGraph;
use packing_judge::{Outcome, guided};
use std::alloc::{AllocError, Global};

/// Makes ascents along the network of a search, at most so many and each but the first with other draws, until the
/// packing of one is worth the network's length: that becomes the first leaf. An `Err` is want of memory.
pub(crate) fn raise_along_network<F: Rule, G: Rule>(
    alloc: Global,
    graph: &NetGraph,
    search: &mut Search<'_, F, G>,
    most: u8,
) -> Result<(), AllocError>
    requires graph { graph.now ≡ search.old.graph }
    requires leaf { split_count search.old.tree ≡ 0 }
    ensures { IsUnsplit search.old search.new }
{
    for ascent in 0..most {
        if search.is_settled() {
            break;
        }
        raise_once(alloc, graph, search, seed_of(ascent))?;
    }
    Ok(())
}

// Raises the first leaf of a search by an ascent along its network, where that is worth the network's length. An `Err`
// is want of memory.
fn raise_once<F: Rule, G: Rule>(
    alloc: Global,
    graph: &NetGraph,
    search: &mut Search<'_, F, G>,
    seed: Option<u64>,
) -> Result<(), AllocError>
    requires graph { graph.now ≡ search.old.graph }
    requires leaf { split_count search.old.tree ≡ 0 }
    ensures { IsUnsplit search.old search.new }
{
    let network = search.network();
    let outcome = guided(alloc, graph, network, seed)?;
    if let Outcome::Tight(bound) = outcome {
        search.raise(bound.packing)?;
    }
    Ok(())
}

// The seed of the ascent of a number, counted from 0: the first draws nothing.
fn seed_of(ascent: u8) -> Option<u64> {
    if ascent == 0 {
        None
    } else {
        Some(u64::from(ascent))
    }
}
