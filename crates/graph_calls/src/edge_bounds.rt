//! Bounds of the networks that use an edge.

ghost use Rattle.std.specs.Prelude.{◌≡◌, ◌<◌, length};
ghost use Rattle.net_graph.specs.Network.{IsNetwork};
ghost use Rattle.dual_ascent.specs.Choosing.{IsCallableOnSome, AnswersAPlace};
ghost use Rattle.branch.specs.States.{IsNetworkOf};
ghost use Rattle.edge_slack.specs.EdgeBound.{IsInSomeNetwork};

use crate::described::network;
use crate::rules::ascent_rule;
use dual_ascent::{Candidate, Chooser, Rule};
use edge_slack::{edge_bound, taking_in};
use net_graph::{EdgeSet, NetGraph, root_part, value};
use row_tables::{Call, Fault, Told};
use search_rules::ascent_place;
use std::alloc::{AllocError, Global};

/// For each edge in the root part of the network under `edges`, the value of the packing that bounds the networks which
/// use it, by the rule under `rule`.
pub fn edge_bounds(alloc: Global, call: &Call, g: &NetGraph, told: &mut Told) -> Result<(), Fault> {
    let rule = ascent_rule(call.word("rule")?)?;
    tell_bounds_by(
        alloc,
        g,
        &network(alloc, call, g)?,
        told,
        |list: &[Candidate]| -> usize
            requires { 0 < length list.now }
            ensures { result < length list.now }
        { ascent_place(rule, list) },
    )
}

// The same by any rule.
fn tell_bounds_by<F: Rule>(
    alloc: Global,
    g: &NetGraph,
    network: &EdgeSet,
    told: &mut Told,
    rule: F,
) -> Result<(), Fault>
    requires network { IsNetworkOf g.now network.now }
    requires callable { IsCallableOnSome (F.may_choose rule) }
    requires place { AnswersAPlace (F.chooses rule) }
{
    tell_bounds(alloc, g, network, &Chooser::new(rule), told)
}

// Adds the line of each edge of the network's root part.
fn tell_bounds<F: Rule>(
    alloc: Global,
    g: &NetGraph,
    network: &EdgeSet,
    chooser: &Chooser<F>,
    told: &mut Told,
) -> Result<(), Fault>
    requires size { length network.now ≡ length g.now.edges }
    requires joins { IsNetwork g.now network.now }
{
    let part = root_part(alloc, g, network)?;
    for e in 0..g.edge_count() {
        if part.has(e) {
            tell_bound(alloc, g, e, chooser, told)?;
        }
    }
    Ok(())
}

// Adds the line of one edge.
fn tell_bound<F: Rule>(
    alloc: Global,
    g: &NetGraph,
    e: u32,
    chooser: &Chooser<F>,
    told: &mut Told,
) -> Result<(), Fault>
    requires edge { e < length g.now.edges }
    requires network { IsInSomeNetwork g.now e }
{
    let bound = bound_of(alloc, g, e, chooser)?;
    told.value("edge ", &e);
    told.line(" bound ", &bound);
    Ok(())
}

// The value of the packing that bounds the networks which use an edge.
fn bound_of<F: Rule>(
    alloc: Global,
    g: &NetGraph,
    e: u32,
    chooser: &Chooser<F>,
) -> Result<u128, AllocError>
    requires edge { e < length g.now.edges }
    requires network { IsInSomeNetwork g.now e }
{
    let few = g.edge_count() <= 4900;
    prove!(few);
    let packing = edge_bound(alloc, g, e, chooser)?;
    Ok(value(g, &taking_in(alloc, g, e)?, &packing))
}
