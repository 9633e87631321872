//! Splits by what ascents in drawn orders make of both children's values.

ghost use Rattle.std.specs.Prelude.{◌<◌, length};
ghost use Rattle.branch.specs.Views.{IsViewIn};
ghost use Rattle.strong_branching.specs.Leaf.{IsLeafOf};

use crate::choice::Choice;
use crate::draws::Draws;
use crate::leaf::Leaf;
use branch::LeafView;
use net_graph::{Cut, NetGraph};
use std::alloc::{AllocError, Global};

// An undecided edge of a leaf's own network, and by how much the cuts that it drops where it is taken in outweigh it.
#[derive(Clone, Copy)]
struct Losing {
    edge: u32,
    loss: u64,
}

// A choice, and what its children are worth.
#[derive(Clone, Copy)]
struct Valued {
    choice: Choice,
    worth: u64,
}

/// The undecided edge of a leaf's own network, and the order of the ascents of both children, whose children are worth
/// most. So many edges are looked at, those whose inside child begins with the most; a single one is taken as it is.
/// `None` where there is no such edge. An `Err` is want of memory.
pub fn choose_by_values(
    alloc: Global,
    graph: &NetGraph,
    view: LeafView<'_>,
    aim: u64,
    most: u32,
    draws: &mut Draws,
) -> Result<Option<Choice>, AllocError>
    requires { IsViewIn graph.now view }
{
    let leaf = Leaf::of(graph, view, aim);
    let edges = by_loss(alloc, &leaf)?;
    if most <= 1 {
        let seed = draws.seed();
        return Ok(
            edges.first().map(|losing| Choice {
                edge: losing.edge,
                seed,
            }),
        );
    }
    let mut best = None;
    for losing in edges.iter().take(most as usize) {
        try_edge(alloc, &leaf, losing.edge, draws, &mut best)?;
    }
    Ok(best.map(|valued: Valued| valued.choice))
}

// The undecided edges of a leaf's own network, those first that lose least. An `Err` is want of memory.
fn by_loss(alloc: Global, leaf: &Leaf<'_>) -> Result<Vec<Losing>, AllocError>
    requires { IsLeafOf leaf.now }
{
    let mut edges = Vec::new(alloc);
    for edge in 0..leaf.graph.edge_count() {
        if leaf.is_candidate(edge) {
            let loss = loss_of(leaf, edge);
            edges.push(Losing { edge, loss })?;
        }
    }
    edges.sort_by_key(|losing| losing.loss)?;
    Ok(edges)
}

// By how much the cuts that an edge drops where it is taken in outweigh it.
fn loss_of(leaf: &Leaf<'_>, edge: u32) -> u64
    requires { edge < length leaf.now.graph.now.edges }
{
    let ends = leaf.graph.edge(edge);
    let mut weight = 0u64;
    for cut in leaf.packing.cuts() {
        if holds(cut, ends.a) != holds(cut, ends.b) {
            weight = weight.saturating_add(cut.weight);
        }
    }
    weight.saturating_sub(ends.length)
}

// Whether a cut has a vertex.
fn holds(cut: &Cut, vertex: u32) -> bool {
    vertex < cut.members.len() && cut.members.has(vertex)
}

// Takes an edge in place of the best one so far, where its children are worth more. An `Err` is want of memory.
fn try_edge(
    alloc: Global,
    leaf: &Leaf<'_>,
    edge: u32,
    draws: &mut Draws,
    best: &mut Option<Valued>,
) -> Result<(), AllocError>
    requires { IsLeafOf leaf.now }
{
    if !leaf.is_undecided(edge) {
        return Ok(());
    }
    let seed = draws.seed();
    let worth = leaf.worth_by_values(alloc, edge, seed)?;
    let is_best = match best {
        Some(valued) => worth > valued.worth,
        None => true,
    };
    if is_best {
        let choice = Choice { edge, seed };
        *best = Some(Valued { choice, worth });
    }
    Ok(())
}
