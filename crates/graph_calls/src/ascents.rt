//! Ascents, by a rule that a word names.

ghost use Rattle.std.specs.Prelude.{◌≡◌, ◌<◌, false, length, IfOk};
ghost use Rattle.net_graph.specs.Decision.{IsDecisionFor, states_of};
ghost use Rattle.net_graph.specs.Packing.{IsFeasible};
ghost use Rattle.dual_ascent.specs.Costs.{costs_of};
ghost use Rattle.dual_ascent.specs.Choosing.{IsCallableOnSome, AnswersAPlace};

use crate::described::decided;
use crate::rules::ascent_rule;
use crate::told::tell_cuts;
use dual_ascent::{
    Ascent, Candidate, Chooser, ReducedCosts, Rule, ascend, ascend_with, carry, carry_costs,
};
use net_graph::{Decision, NetGraph, Packing};
use row_tables::{Call, Fault, Told};
use search_rules::{AscentRule, ascent_place};
use std::alloc::{AllocError, Global};

/// For each word under `rule`: the cuts of the ascent from no cut by this rule, under a decision, and whether it is
/// closed. With one more step of the decision under `more`: the cuts that are carried to that decision too, and those
/// of the ascent that goes on with them.
pub fn ascents(
    alloc: Global,
    call: &Call,
    g: &NetGraph,
    d: &Decision,
    told: &mut Told,
) -> Result<(), Fault>
    requires { IsDecisionFor g.now d.now }
{
    for word in call.text("rule")?.split_whitespace() {
        told.word(word);
        told.word("\n");
        ascent_by(alloc, call, g, d, ascent_rule(word)?, told)?;
    }
    Ok(())
}

// The same by one rule.
fn ascent_by(
    alloc: Global,
    call: &Call,
    g: &NetGraph,
    d: &Decision,
    rule: AscentRule,
    told: &mut Told,
) -> Result<(), Fault>
    requires { IsDecisionFor g.now d.now }
{
    ascent_by_rule(
        alloc,
        call,
        g,
        d,
        told,
        |list: &[Candidate]| -> usize
            requires { 0 < length list.now }
            ensures { result < length list.now }
        { ascent_place(rule, list) },
    )
}

// The same by any rule.
fn ascent_by_rule<F: Rule>(
    alloc: Global,
    call: &Call,
    g: &NetGraph,
    d: &Decision,
    told: &mut Told,
    rule: F,
) -> Result<(), Fault>
    requires decision { IsDecisionFor g.now d.now }
    requires callable { IsCallableOnSome (F.may_choose rule) }
    requires place { AnswersAPlace (F.chooses rule) }
{
    tell_ascent(alloc, call, g, d, &Chooser::new(rule), told)
}

// The same by a rule that is kept.
fn tell_ascent<F: Rule>(
    alloc: Global,
    call: &Call,
    g: &NetGraph,
    d: &Decision,
    chooser: &Chooser<F>,
    told: &mut Told,
) -> Result<(), Fault>
    requires { IsDecisionFor g.now d.now }
{
    let ascent = ascent_from_none(alloc, g, d, chooser)?;
    tell_cuts(told, &ascent.packing, ":");
    tell_rest(alloc, call, g, d, &ascent, chooser, told)
}

// What is told behind the cuts of an ascent.
fn tell_rest<F: Rule>(
    alloc: Global,
    call: &Call,
    g: &NetGraph,
    d: &Decision,
    ascent: &Ascent,
    chooser: &Chooser<F>,
    told: &mut Told,
) -> Result<(), Fault>
    requires decision { IsDecisionFor g.now d.now }
    requires feasible { IsFeasible g.now d.now ascent.now.packing }
    requires costs { ascent.now.closed ≡ false
        → ascent.now.costs ≡ costs_of g.now.edges (states_of g.now d.now) ascent.now.packing }
{
    if ascent.closed {
        told.word("closed\n");
        return Ok(());
    }
    if !call.has("more") {
        return Ok(());
    }
    let further = carried(alloc, g, d, call.text("more")?, ascent)?;
    tell_carried(alloc, g, further, chooser, told)
}

// The ascent from no cut.
fn ascent_from_none<F: Rule>(
    alloc: Global,
    g: &NetGraph,
    d: &Decision,
    chooser: &Chooser<F>,
) -> Result<Ascent, AllocError>
    requires decision { IsDecisionFor g.now d.now }
    ensures feasible { IfOk result (λ a. IsFeasible g.now d.now a.packing) }
    ensures costs { IfOk result (λ a. a.closed ≡ false
        → a.costs ≡ costs_of g.now.edges (states_of g.now d.now) a.packing) }
{
    ascend(alloc, g, d, Packing::empty(alloc), chooser)
}

// What is carried to a further decision, and what it leaves of the rooms there.
#[derive(Drop)]
struct FurtherStart {
    decision: Decision,
    packing: Packing,
    costs: ReducedCosts,
}

// What an ascent carries to the decision with one more step, which a line says.
fn carried(
    alloc: Global,
    g: &NetGraph,
    d: &Decision,
    line: &str,
    ascent: &Ascent,
) -> Result<FurtherStart, Fault>
    requires decision { IsDecisionFor g.now d.now }
    requires feasible { IsFeasible g.now d.now ascent.now.packing }
    requires costs { ascent.now.costs ≡ costs_of g.now.edges (states_of g.now d.now) ascent.now.packing }
    ensures decision { IfOk result (λ c. IsDecisionFor g.now c.decision) }
    ensures feasible { IfOk result (λ c. IsFeasible g.now c.decision c.packing) }
    ensures costs { IfOk result (λ c. c.costs ≡ costs_of g.now.edges (states_of g.now c.decision) c.packing) }
{
    let decision = decided(alloc, g, d, line)?;
    let packing = carry(alloc, g, d, &decision, &ascent.packing)?;
    let costs = carry_costs(
        alloc,
        g,
        d,
        &decision,
        &ascent.packing,
        &ascent.costs,
        &packing,
    )?;
    Ok(FurtherStart {
        decision,
        packing,
        costs,
    })
}

// Tells of it, and of the ascent that goes on with it.
fn tell_carried<F: Rule>(
    alloc: Global,
    g: &NetGraph,
    carried: FurtherStart,
    chooser: &Chooser<F>,
    told: &mut Told,
) -> Result<(), Fault>
    requires decision { IsDecisionFor g.now carried.decision }
    requires feasible { IsFeasible g.now carried.decision carried.packing }
    requires costs { carried.costs ≡ costs_of g.now.edges (states_of g.now carried.decision) carried.packing }
{
    told.word("carried\n");
    tell_cuts(told, &carried.packing, ":");
    told.word("on\n");
    let ascent = ascent_from(alloc, g, carried, chooser)?;
    tell_cuts(told, &ascent.packing, ":");
    Ok(())
}

// The ascent that goes on with what is carried.
fn ascent_from<F: Rule>(
    alloc: Global,
    g: &NetGraph,
    carried: FurtherStart,
    chooser: &Chooser<F>,
) -> Result<Ascent, Fault>
    requires decision { IsDecisionFor g.now carried.decision }
    requires feasible { IsFeasible g.now carried.decision carried.packing }
    requires costs { carried.costs ≡ costs_of g.now.edges (states_of g.now carried.decision) carried.packing }
{
    let FurtherStart {
        decision,
        packing,
        costs,
    } = carried;
    if packing.len() > 2 * g.edge_count() as usize {
        return Err(Fault::NotAllowed);
    }
    Ok(ascend_with(alloc, g, &decision, packing, costs, chooser)?)
}
