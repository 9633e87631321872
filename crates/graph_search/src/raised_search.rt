//! The search that begins with a network.

ghost use Rattle.std.specs.Prelude.{◌≡◌, ◌<◌, length, IfOk};
ghost use Rattle.net_graph.specs.Network.{length_of};
ghost use Rattle.dual_ascent.specs.Choosing.{IsCallableOnSome, AnswersAPlace};
ghost use Rattle.branch.specs.States.{IsNetworkOf};
ghost use Rattle.graph_search.specs.Kinds.{kind_of};
ghost use Rattle.graph_search.specs.Searched.{IsTold};

use crate::anew::searched_anew;
use crate::raising::Raising;
use branch::{Search, Solved, SplitKind};
use dual_ascent::{Candidate, Chooser, Rule};
use net_graph::{EdgeSet, NetGraph};
use search_rules::{GraphOptions, SplitRule, ascent_place, split_place};
use std::alloc::{AllocError, Global};

/// What a search finds that begins with a network of a graph and with the leaf of an ascent from no cut, is raised, and
/// then makes at most as many splits as openings are allowed. An `Err` is want of memory.
pub fn searched<A: Raising>(
    alloc: Global,
    g: &NetGraph,
    first: EdgeSet,
    options: GraphOptions,
    raising: &A,
) -> Result<Solved, AllocError>
    requires network { IsNetworkOf g.now first }
    requires raising { A.is_for raising.now g.now }
    ensures { IfOk result (IsTold g.now (kind_of options.split) options.openings (length_of g.now first)) }
{
    let GraphOptions {
        openings,
        ascent,
        split,
    } = options;
    searched_by(
        alloc,
        g,
        first,
        openings,
        |list: &[Candidate]| -> usize
            requires { 0 < length list.now }
            ensures { result < length list.now }
        { ascent_place(ascent, list) },
        |list: &[Candidate]| -> usize
            requires { 0 < length list.now }
            ensures { result < length list.now }
        { split_place(split, list) },
        split,
        raising,
    )
}

// What a rule splits leaves on.
fn kind_of(rule: SplitRule) -> SplitKind
    ensures { result ≡ kind_of rule }
{
    match rule {
        SplitRule::Longest | SplitRule::First => SplitKind::Edges,
        SplitRule::Vertex => SplitKind::Vertices,
    }
}

// The same by any rules of places, with leaves split on what the rule of splits asks for.
fn searched_by<F: Rule, G: Rule, A: Raising>(
    alloc: Global,
    g: &NetGraph,
    first: EdgeSet,
    openings: u8,
    ascent: F,
    split: G,
    rule: SplitRule,
    raising: &A,
) -> Result<Solved, AllocError>
    requires network { IsNetworkOf g.now first }
    requires raising { A.is_for raising.now g.now }
    requires ascent_callable { IsCallableOnSome (F.may_choose ascent) }
    requires ascent_place { AnswersAPlace (F.chooses ascent) }
    requires split_callable { IsCallableOnSome (G.may_choose split) }
    requires split_place { AnswersAPlace (G.chooses split) }
    ensures { IfOk result (IsTold g.now (kind_of rule) openings (length_of g.now first)) }
{
    let mut search = Search::start(
        alloc,
        g,
        first,
        Chooser::new(ascent),
        Chooser::new(split),
        kind_of(rule),
    )?;
    raising.raise(alloc, &mut search, openings)?;
    let first = search.tree().packing(0).copy()?;
    let solved = search.solve(openings)?;
    searched_anew(alloc, g, solved, first, rule, openings)
}
