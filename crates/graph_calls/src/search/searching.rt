//! Searches by splits, whole and step by step, and networks of saturated arcs.

ghost use Rattle.std.specs.Prelude.{◌≡◌, ◌<◌, length};
ghost use Rattle.cert_tree.specs.Preorder.{split_count};
ghost use Rattle.net_graph.specs.Decision.{IsDecisionFor};
ghost use Rattle.dual_ascent.specs.Choosing.{IsCallableOnSome, AnswersAPlace};

use crate::search::asked::{SearchPlan, asked_ascents, asked_plan, asked_splits};
use crate::search::telling::tell_solved;
use crate::told::tell_edges;
use branch::{Search, Step, saturated_network, solve_graph};
use dual_ascent::{Candidate, Chooser, Rule, ascend};
use net_graph::{Decision, NetGraph, Packing};
use row_tables::{Call, Fault, Told};
use search_rules::{ascent_place, split_place};
use std::alloc::Global;

/// Makes a call by the rules that the row names.
pub fn search(alloc: Global, call: &Call, g: &NetGraph, told: &mut Told) -> Result<(), Fault> {
    let ascents = asked_ascents(call)?;
    let splits = asked_splits(call)?;
    search_by(
        alloc,
        call,
        g,
        |list: &[Candidate]| -> usize
            requires { 0 < length list.now }
            ensures { result < length list.now }
        { ascent_place(ascents, list) },
        |list: &[Candidate]| -> usize
            requires { 0 < length list.now }
            ensures { result < length list.now }
        { split_place(splits, list) },
        told,
    )
}

// The same by any rules.
fn search_by<F: Rule, G: Rule>(
    alloc: Global,
    call: &Call,
    g: &NetGraph,
    ascent: F,
    split: G,
    told: &mut Told,
) -> Result<(), Fault>
    requires ascent_callable { IsCallableOnSome (F.may_choose ascent) }
    requires ascent_place { AnswersAPlace (F.chooses ascent) }
    requires split_callable { IsCallableOnSome (G.may_choose split) }
    requires split_place { AnswersAPlace (G.chooses split) }
{
    let ascent = Chooser::new(ascent);
    let split = Chooser::new(split);
    match call.kind() {
        "solve" => solve(alloc, call, g, ascent, split, told),
        "steps" => steps(alloc, call, g, ascent, split, told),
        _ => saturated(alloc, g, &ascent, told),
    }
}

// What a search finds that begins with the edges under `edges` and may make so many splits as stand under `openings`.
fn solve<F: Rule, G: Rule>(
    alloc: Global,
    call: &Call,
    g: &NetGraph,
    ascent: Chooser<F>,
    split: Chooser<G>,
    told: &mut Told,
) -> Result<(), Fault> {
    let SearchPlan { first, most, kind } = asked_plan(alloc, call, g, "openings")?;
    let solved = solve_graph(alloc, g, first, most, ascent, split, kind)?;
    tell_solved(told, &solved);
    Ok(())
}

// The same step by step: what the first leaf shows, once no cuts raised it, and what comes of each of the steps whose
// number stands under `steps`.
fn steps<F: Rule, G: Rule>(
    alloc: Global,
    call: &Call,
    g: &NetGraph,
    ascent: Chooser<F>,
    split: Chooser<G>,
    told: &mut Told,
) -> Result<(), Fault> {
    let SearchPlan { first, most, kind } = asked_plan(alloc, call, g, "steps")?;
    let mut search = Search::start(alloc, g, first, ascent, split, kind)?;
    tell_steps(alloc, &mut search, most, told)?;
    told.line("bound ", &search.finish().bound);
    Ok(())
}

// Tells what the first leaf shows, once no cuts raised it, what comes of so many steps, and how far the search is.
fn tell_steps<F: Rule, G: Rule>(
    alloc: Global,
    search: &mut Search<F, G>,
    count: u8,
    told: &mut Told,
) -> Result<(), Fault>
    requires { split_count search.old.tree ≡ 0 }
{
    search.raise(Packing::empty(alloc))?;
    if let Some(shown) = search.shown() {
        tell_edges(told, "shown", shown);
    }
    take_steps(search, count, told)?;
    tell_search(told, search);
    Ok(())
}

// Takes so many steps, and tells what comes of each. A step that is refused is taken once more, as the refusal leaves
// the search as it was: `bench/allocations` refuses each of its allocations and looks whether the same tree comes.
fn take_steps<F: Rule, G: Rule>(
    search: &mut Search<F, G>,
    count: u8,
    told: &mut Told,
) -> Result<(), Fault> {
    for _ in 0..count {
        if search.splits() >= 255 {
            return Err(Fault::NotAllowed);
        }
        told.word(match step_again(search)? {
            Step::Split => "split\n",
            Step::Settled => "settled\n",
        });
    }
    Ok(())
}

// Takes a step, and once more where it was refused.
fn step_again<F: Rule, G: Rule>(search: &mut Search<F, G>) -> Result<Step, Fault>
    requires { split_count search.old.tree < 255 }
{
    if let Ok(step) = search.split_one() {
        return Ok(step);
    }
    Ok(search.split_one()?)
}

// Tells the network, how far the search is, and by its place the leaf that is open next, if one is.
fn tell_search<F: Rule, G: Rule>(told: &mut Told, search: &Search<F, G>) {
    tell_edges(told, "network", search.network());
    told.line("settled ", &search.is_settled());
    if let Some(place) = search.next_open() {
        told.line("next ", &place);
    }
    told.line("splits ", &search.splits());
    told.line("leaves ", &search.tree().leaves());
}

// The network of saturated arcs of the ascent from no cut, where nothing is decided.
fn saturated<F: Rule>(
    alloc: Global,
    g: &NetGraph,
    ascent: &Chooser<F>,
    told: &mut Told,
) -> Result<(), Fault> {
    saturated_under(alloc, g, &Decision::none(alloc, g)?, ascent, told)
}

// The same under a decision.
fn saturated_under<F: Rule>(
    alloc: Global,
    g: &NetGraph,
    d: &Decision,
    ascent: &Chooser<F>,
    told: &mut Told,
) -> Result<(), Fault>
    requires { IsDecisionFor g.now d.now }
{
    let made = ascend(alloc, g, d, Packing::empty(alloc), ascent)?;
    if made.closed {
        return Err(Fault::NotAllowed);
    }
    let set = saturated_network(alloc, g, d, &made.packing)?;
    tell_edges(told, "saturated", &set);
    Ok(())
}
