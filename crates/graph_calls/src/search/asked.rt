//! What a row asks of a search.

ghost use Rattle.std.specs.Prelude.{IfOk};
ghost use Rattle.branch.specs.States.{IsNetworkOf};

use crate::described::network;
use crate::rules::{ascent_rule, split_rule};
use branch::SplitKind;
use net_graph::{EdgeSet, NetGraph};
use row_tables::{Call, Fault};
use search_rules::{AscentRule, SplitRule};
use std::alloc::Global;

/// What a search begins with, and how far it may go.
#[derive(Drop)]
pub struct SearchPlan {
    /// The first network.
    pub first: EdgeSet,
    /// The greatest number of its splits or steps.
    pub most: u8,
    /// What leaves are split on.
    pub kind: SplitKind,
}

/// The network under `edges`, the number under a key, and the kind.
pub fn asked_plan(alloc: Global, call: &Call, g: &NetGraph, key: &str) -> Result<SearchPlan, Fault>
    ensures { IfOk result (λ plan. IsNetworkOf g.now plan.first) }
{
    let most = call.byte(key)?;
    let kind = asked_kind(call)?;
    Ok(SearchPlan {
        first: network(alloc, call, g)?,
        most,
        kind,
    })
}

/// The rule of the ascents under the key `ascent`; `least` where there is none.
pub fn asked_ascents(call: &Call) -> Result<AscentRule, Fault> {
    if call.has("ascent") {
        ascent_rule(call.word("ascent")?)
    } else {
        Ok(AscentRule::Least)
    }
}

/// The rule of the splits under the key `split`; `longest` where there is none.
pub fn asked_splits(call: &Call) -> Result<SplitRule, Fault> {
    if call.has("split") {
        split_rule(call.word("split")?)
    } else {
        Ok(SplitRule::Longest)
    }
}

// What leaves are split on, under the key `kind`: `edges` or `vertices`; edges where there is none.
fn asked_kind(call: &Call) -> Result<SplitKind, Fault> {
    if !call.has("kind") {
        return Ok(SplitKind::Edges);
    }
    match call.word("kind")? {
        "edges" => Ok(SplitKind::Edges),
        "vertices" => Ok(SplitKind::Vertices),
        _ => Err(Fault::NotAllowed),
    }
}
