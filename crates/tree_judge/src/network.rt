//! Whether the edges of an answer are the network that it says.

ghost use Rattle.std.specs.Prelude.{◌≡◌, ◌≤◌, length, IfSome, IfNone};
ghost use Rattle.tree_judge.specs.Networks.{IsMeasured, NetworkFault};

use crate::cause::Cause;
use crate::search_room::SearchRoom;
use net_graph::{EdgeSet, NetGraph, length};

/// Why the edges are not a network of the printed length: None where they are.
pub(crate) fn network_fault(
    search: &mut SearchRoom,
    g: &NetGraph,
    printed: u64,
    network: &EdgeSet,
) -> Option<Cause>
    requires search { search.old ≡ g.now.vertices }
    requires size { length network.now ≡ length g.now.edges }
    requires few { length g.now.terminals ≤ 255 }
    ensures passes { IfNone result (IsMeasured g.now printed network.now) }
    ensures fault { IfSome result (NetworkFault g.now printed network.now) }
    ensures kept { search.new ≡ search.old }
{
    if let Some(place) = search.first_apart(g, network) {
        return Some(Cause::NotJoined(place));
    }
    let found = length(g, network);
    if found == printed {
        None
    } else {
        Some(Cause::WrongLength { printed, found })
    }
}
