//! Steps of a reduction, until no rule applies.

ghost use Rattle.std.specs.Prelude.{◌≡◌, ℕ, length, IfOk, OnOk};
ghost use Rattle.std.specs.Bool.{OnTrue, OnFalse};
ghost use Rattle.net_graph.specs.Graph.{IsGraph};
ghost use Rattle.graph_reduce.specs.Step.{Rule, Applies, IsReducedTo};
ghost use Rattle.graph_reduce.specs.Step as step;
ghost use Rattle.graph_reduce.specs.Survey.{IsNumbered};
ghost use Rattle.graph_reduce.specs.NodeRules.{IsLowest};
ghost use Rattle.graph_reduce.specs.Due.{AreDue};
ghost use Rattle.graph_reduce.specs.UpToDate.{IsUpToDate};
ghost use Rattle.graph_reduce.specs.Clear.{IsReached, LeadsTo, HasSomeEdge, IsClearTo, IsTidy, IsWithin, GoesOn};
ghost use Rattle.graph_reduce.specs.State.{start_of};

use crate::due::Due;
use crate::ends::other_end;
use crate::node_edges::NodeEdges;
use crate::node_rules::{NodeRule, lowest};
use crate::survey::Survey;
use crate::taken::{drop_alike, drop_leaf, force_edge, join_edges};
use crate::tidy::{drop_idle_and_loops, drop_idle_edges, drop_parallels};
use crate::work::Work;
use net_graph::NetGraph;
use std::alloc::{AllocError, Global};

/// The state after the rules were taken until none applies. An `Err` is want of memory.
pub(crate) fn reduced_state(alloc: Global, g: &NetGraph) -> Result<Work, AllocError>
    ensures reduced { IfOk result (IsReducedTo g.now) }
    ensures graph { OnOk result (IsGraph g.now) }
{
    let mut work = loopless_state(alloc, g)?;
    let mut survey = Survey::of(alloc, &work)?;
    drop_parallels(&mut work, &mut survey);
    let mut due = Due::all(alloc, work.node_count())?;
    while goes_on(&mut work, &mut survey, &mut due)? {}
    Ok(work)
}

// The state after the first two rules were taken until neither applies. An `Err` is want of memory.
fn loopless_state(alloc: Global, g: &NetGraph) -> Result<Work, AllocError>
    ensures graph { OnOk result (IsGraph g.now) }
    ensures leads { IfOk result (LeadsTo (start_of g.now)) }
    ensures clear { IfOk result (λ work. IsClearTo work (length work.edges) 0 0) }
{
    let _vertices = g.vertex_count();
    let mut work = Work::of_graph(alloc, g)?;
    drop_idle_and_loops(&mut work);
    Ok(work)
}

// Takes the next rule, if there is one, and tidies up. An `Err` is want of memory.
fn goes_on(work: &mut Work, survey: &mut Survey, due: &mut Due) -> Result<bool, AllocError>
    requires reached { IsReached work.old }
    requires tidy { IsTidy work.old }
    requires index { IsUpToDate work.old survey.old due.old }
    ensures more { IfOk result (λ more. OnTrue more (GoesOn work.old work.new)) }
    ensures same { IfOk result (λ more. OnFalse more (work.new ≡ work.old)) }
    ensures done { IfOk result (λ more. OnFalse more ((rule : Rule) (at : ℕ) → ¬ Applies work.new rule at)) }
    ensures index { OnOk result (IsUpToDate work.new survey.new due.new) }
{
    if takes_leaf(work, survey, due)? {
        return Ok(true);
    }
    if takes_passed(work, survey, due)? {
        return Ok(true);
    }
    takes_terminal(work, survey, due)
}

// Drops the lowest leaf, if there is one. An `Err` is want of memory.
fn takes_leaf(work: &mut Work, survey: &mut Survey, due: &mut Due) -> Result<bool, AllocError>
    requires reached { IsReached work.old }
    requires tidy { IsTidy work.old }
    requires index { IsUpToDate work.old survey.old due.old }
    ensures more { IfOk result (λ more. OnTrue more (GoesOn work.old work.new)) }
    ensures same { IfOk result (λ more. OnFalse more (work.new ≡ work.old)) }
    ensures none { IfOk result (λ more. OnFalse more ((v : ℕ) → ¬ Applies work.new step.Leaf v)) }
    ensures index { OnOk result (IsUpToDate work.new survey.new due.new) }
{
    match lowest(work, survey, &mut due.leaves, NodeRule::Leaf) {
        Some(v) => {
            let edges = survey.edges_of(work, v);
            due.add_ends_of(work, edges)?;
            drop_leaf(work, v, edges);
            Ok(true)
        }
        None => Ok(false),
    }
}

// Joins the edges of the lowest node that has two and is no terminal, if there is one. An `Err` is want of memory.
fn takes_passed(work: &mut Work, survey: &mut Survey, due: &mut Due) -> Result<bool, AllocError>
    requires reached { IsReached work.old }
    requires tidy { IsTidy work.old }
    requires index { IsUpToDate work.old survey.old due.old }
    requires leaves { (v : ℕ) → ¬ Applies work.old step.Leaf v }
    ensures more { IfOk result (λ more. OnTrue more (GoesOn work.old work.new)) }
    ensures same { IfOk result (λ more. OnFalse more (work.new ≡ work.old)) }
    ensures none { IfOk result (λ more. OnFalse more ((v : ℕ) → ¬ Applies work.new step.Passed v)) }
    ensures index { OnOk result (IsUpToDate work.new survey.new due.new) }
{
    match lowest(work, survey, &mut due.passed, NodeRule::Passed) {
        Some(v) => {
            join_at(work, survey, due, v)?;
            Ok(true)
        }
        None => Ok(false),
    }
}

// Joins the edges of a node, and drops the longer of two that are parallel then. An `Err` is want of memory.
fn join_at(work: &mut Work, survey: &mut Survey, due: &mut Due, v: u32) -> Result<(), AllocError>
    requires reached { IsReached work.old }
    requires tidy { IsTidy work.old }
    requires index { IsUpToDate work.old survey.old due.old }
    requires leaves { (v : ℕ) → ¬ Applies work.old step.Leaf v }
    requires lowest { IsLowest work.old NodeRule.Passed v }
    ensures more { OnOk result (GoesOn work.old work.new) }
    ensures index { OnOk result (IsUpToDate work.new survey.new due.new) }
{
    let edges = survey.edges_of(work, v);
    due.add_ends_of(work, edges)?;
    match edges {
        NodeEdges::TwoEdges(earlier, later) => {
            survey.list(other_end(work.edge_at(later), v), earlier)?;
            join_edges(work, v, earlier, later)?;
            drop_alike(work, survey, due, earlier)
        }
        _ => unreachable!(),
    }
}

// Forces the edge of the lowest terminal that has one, if there is one. An `Err` is want of memory.
fn takes_terminal(work: &mut Work, survey: &mut Survey, due: &mut Due) -> Result<bool, AllocError>
    requires reached { IsReached work.old }
    requires tidy { IsTidy work.old }
    requires index { IsUpToDate work.old survey.old due.old }
    requires leaves { (v : ℕ) → ¬ Applies work.old step.Leaf v }
    requires passed { (v : ℕ) → ¬ Applies work.old step.Passed v }
    ensures more { IfOk result (λ more. OnTrue more (GoesOn work.old work.new)) }
    ensures same { IfOk result (λ more. OnFalse more (work.new ≡ work.old)) }
    ensures none { IfOk result (λ more. OnFalse more ((v : ℕ) → ¬ Applies work.new step.TerminalLeaf v)) }
    ensures index { OnOk result (IsUpToDate work.new survey.new due.new) }
{
    match lowest(work, survey, &mut due.terminals, NodeRule::TerminalLeaf) {
        Some(v) => {
            force_at(work, survey, due, v)?;
            Ok(true)
        }
        None => Ok(false),
    }
}

// Forces the edge of a terminal, and drops all edges where one terminal is left. An `Err` is want of memory.
fn force_at(work: &mut Work, survey: &mut Survey, due: &mut Due, v: u32) -> Result<(), AllocError>
    requires reached { IsReached work.old }
    requires tidy { IsTidy work.old }
    requires index { IsUpToDate work.old survey.old due.old }
    requires leaves { (v : ℕ) → ¬ Applies work.old step.Leaf v }
    requires passed { (v : ℕ) → ¬ Applies work.old step.Passed v }
    requires lowest { IsLowest work.old NodeRule.TerminalLeaf v }
    ensures more { OnOk result (GoesOn work.old work.new) }
    ensures index { OnOk result (IsUpToDate work.new survey.new due.new) }
{
    let edges = survey.edges_of(work, v);
    due.add_ends_of(work, edges)?;
    match edges {
        NodeEdges::OneEdge(place) => {
            survey.move_terminal(v, other_end(work.edge_at(place), v));
            force_edge(work, v, place);
            drop_idle(work, due)
        }
        _ => unreachable!(),
    }
}

// Drops all edges where one terminal is left; each node is due then. An `Err` is want of memory.
fn drop_idle(work: &mut Work, due: &mut Due) -> Result<(), AllocError>
    requires due { AreDue work.old due.old }
    requires numbered { IsNumbered work.old }
    ensures leads { OnOk result (LeadsTo work.old work.new) }
    ensures within { IsWithin work.new work.old }
    ensures idle { length work.new.terminals ≡ 1 → ¬ HasSomeEdge work.new }
    ensures rest { (work.new.nodes ≡ work.old.nodes) × (work.new.terminals ≡ work.old.terminals) }
    ensures due { OnOk result (AreDue work.new due.new) }
{
    if drop_idle_edges(work) {
        return due.add_all(work.node_count());
    }
    Ok(())
}
