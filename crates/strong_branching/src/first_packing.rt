//! First packings for searches that begin again.

ghost use Rattle.std.specs.Prelude.{◌+◌, ◌*◌, ◌<◌, ◌≤◌, length, IfOk};
ghost use Rattle.net_graph.specs.Decision.{IsDecisionFor};
ghost use Rattle.net_graph.specs.Packing.{IsFeasible};
ghost use Rattle.dual_ascent.specs.Choosing.{IsCallableOnSome, AnswersAPlace};

use crate::drawn_order::drawn_place;
use crate::draws::Draws;
use crate::sizes::is_of;
use dual_ascent::{Ascent, Candidate, Chooser, Rule, ascend};
use net_graph::{Decision, NetGraph, Packing, feasible, value};
use std::alloc::{AllocError, Global};

// So often some cuts are taken out, and an ascent is made again.
const MOVES: u16 = 200;

// At most so many cuts are taken out at once.
const MOST_OUT: u32 = 4;

// To judge so many cuts takes as long as two ascents for children, in which the arcs of all edges are looked at.
const CUTS_A_LOOK: u32 = 100;

/// A packing of the value of a given one or more: again and again some drawn cuts are taken out, and an ascent in a
/// drawn order is made, which stands where it is worth no less. An `Err` is want of memory.
pub fn drawn_again(
    alloc: Global,
    graph: &NetGraph,
    given: Packing,
    draws: &mut Draws,
) -> Result<Packing, AllocError> {
    if given.len() > 2 * graph.edge_count() as usize {
        return Ok(given);
    }
    let none = Decision::none(alloc, graph)?;
    let mut best = given;
    let mut most = value(graph, &none, &best);
    for _ in 0..MOVES {
        if draws.is_spent() {
            break;
        }
        let fewer = with_some_out(alloc, &best, draws)?;
        draws.spend(cost_of(graph, &best));
        if fewer.len() > 2 * graph.edge_count() as usize
            || !is_of(graph, &fewer)
            || !feasible(graph, &none, &fewer)
        {
            continue;
        }
        let seed = draws.seed();
        let ascent = ascent_from(
            alloc,
            graph,
            &none,
            fewer,
            |list: &[Candidate]| -> usize
                requires { 0 < length list.now }
                ensures { result < length list.now }
            { drawn_place(seed, list) },
        )?;
        let edges = graph.edge_count();
        prove!(edges <= 4900);
        let worth = value(graph, &none, &ascent.packing);
        if !ascent.closed && worth >= most {
            most = worth;
            best = ascent.packing;
        }
    }
    Ok(best)
}

// What a move is counted as, in arcs: all edges are looked at once for so many cuts.
fn cost_of(graph: &NetGraph, packing: &Packing) -> u32 {
    let cuts = u32::try_from(packing.len()).unwrap_or(u32::MAX);
    graph.edge_count().saturating_mul(1 + cuts / CUTS_A_LOOK)
}

// The ascent that begins with given cuts, by any rule. An `Err` is want of memory.
fn ascent_from<F: Rule>(
    alloc: Global,
    graph: &NetGraph,
    decision: &Decision,
    start: Packing,
    rule: F,
) -> Result<Ascent, AllocError>
    requires decision { IsDecisionFor graph.now decision.now }
    requires feasible { IsFeasible graph.now decision.now start }
    requires few { length start ≤ 2 * length graph.now.edges }
    requires callable { IsCallableOnSome (F.may_choose rule) }
    requires place { AnswersAPlace (F.chooses rule) }
    ensures { IfOk result (λ a. length a.packing ≤ 4 * length graph.now.edges + 1) }
{
    ascend(alloc, graph, decision, start, &Chooser::new(rule))
}

// A packing without some of its cuts, which are drawn. An `Err` is want of memory.
fn with_some_out(
    alloc: Global,
    packing: &Packing,
    draws: &mut Draws,
) -> Result<Packing, AllocError> {
    let count = u32::try_from(packing.len()).unwrap_or(0);
    let mut out = Vec::new(alloc);
    for _ in 0..=draws.random.below(MOST_OUT) {
        out.push(draws.random.below(count))?;
    }
    let mut fewer = Packing::empty(alloc);
    let mut number = 0u32;
    for cut in packing.cuts() {
        if !out.contains(&number) {
            fewer.push(cut.copy()?)?;
        }
        number = number.wrapping_add(1);
    }
    Ok(fewer)
}
