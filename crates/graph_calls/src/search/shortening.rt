//! Networks made shorter by local search.

ghost use Rattle.branch.specs.States.{IsNetworkOf};

use crate::described::network;
use crate::told::tell_edges;
use net_graph::{EdgeSet, NetGraph};
use network_judge::{cleaned, shortened};
use row_tables::{Call, Fault, Told};
use std::alloc::Global;

/// The network under `edges`, cleaned, and made shorter by so many descents as stand under `descents`.
pub fn shorter(alloc: Global, call: &Call, g: &NetGraph, told: &mut Told) -> Result<(), Fault> {
    let descents = call.byte("descents")?;
    tell_shorter(alloc, g, &network(alloc, call, g)?, descents, told)
}

// Tells a network cleaned, and made shorter.
fn tell_shorter(
    alloc: Global,
    g: &NetGraph,
    set: &EdgeSet,
    descents: u8,
    told: &mut Told,
) -> Result<(), Fault>
    requires { IsNetworkOf g.now set.now }
{
    tell_edges(told, "cleaned", &cleaned(alloc, g, set)?);
    let shorter = shortened(alloc, g, set, u32::from(descents))?;
    tell_edges(told, "shortened", &shorter);
    Ok(())
}
