//! Whether more cuts could be packed.

ghost use Rattle.std.specs.Prelude.{◌≡◌, ◌<◌, ◌↔◌, true, length, All, IsTrue, IfOk};
ghost use Rattle.net_graph.specs.Decision.{IsDecisionFor};
ghost use Rattle.net_graph.specs.Flags.{has};
ghost use Rattle.net_graph.specs.Saturation.{IsMaximal};

use crate::costs::ReducedCosts;
use crate::required::required_vertices;
use net_graph::{Decision, NetGraph, Packing, has_all, reached_from};
use std::alloc::{AllocError, Global};

/// Whether saturated arcs lead from the root to every required vertex. An `Err` is want of memory. No tool asks for
/// it: an ascent tells whether its packing is closed or maximal.
pub fn maximal(
    alloc: Global,
    g: &NetGraph,
    d: &Decision,
    packing: &Packing,
) -> Result<bool, AllocError>
    requires { IsDecisionFor g.now d.now }
    ensures { IfOk result (λ yes. IsTrue yes ↔ IsMaximal g.now d.now packing.now) }
{
    let required = required_vertices(alloc, g, d)?;
    let costs = ReducedCosts::of(alloc, g, d, packing)?;
    let reached = reached_from(alloc, g, g.root(), &costs)?;
    Ok(has_all(&reached, &required))
}
