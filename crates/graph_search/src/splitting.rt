//! Splits on vertices that exchanges choose, with packings made anew for both children.

ghost use Rattle.std.specs.Prelude.{◌≡◌, ◌+◌, ◌<◌, ◌≤◌, length, slice_set, All, OnOk};
ghost use Rattle.std.specs.List.{insert};
ghost use Rattle.cert_tree.specs.Preorder.{packings_of, split_count};
ghost use Rattle.branch.specs.Kinds.{SplitsVertices};
ghost use Rattle.branch.specs.Searching.{AreOfSize, CanSplitAt};
ghost use Rattle.graph_search.specs.Plans.{IsPlanIn};
ghost use Rattle.graph_search.specs.Raised.{IsSameSearch};

use crate::children::Plan;
use crate::trials::Trial;
use branch::{Offered, Search};
use dual_ascent::Rule;
use net_graph::{EdgeSet, NetGraph, joins, total_weight};
use packing_judge::Ground;
use std::alloc::{AllocError, Global};
use tight_packing::{Budget, Guesses};

/// How leaves are split where exchanges leave a gap.
#[derive(Clone, Copy)]
pub struct Splitting {
    /// At most so many splits are made, with no more exchanges than both children of each would take.
    pub most: u8,
    /// No more splits are made than so many divided by the number of edges, since exchanges in large graphs take long.
    pub edge_splits: u32,
    /// Whether a leaf is split whose exchange has spent its budget, beside those for which it told that there is no
    /// packing of the wanted value.
    pub after_spent: bool,
    /// Before a leaf is split, splits of it are tried until so many in succession are no better than one before; where
    /// none may be, the first is made.
    pub patience: u8,
    /// What the exchange of a child may do.
    pub budget: Budget,
    /// In so many draws, each with at most so many descents of local search, networks are grown for a child with which
    /// its parent's network doesn't agree.
    pub draws: u32,
    pub descents: u32,
}

impl Splitting {
    /// Splits the leaves of a search in a graph with this ground, of those that are open the one of the least value
    /// first, on vertices that the last exchange for each leaf guesses, as long as there is such a guess, and makes no
    /// more than so many splits. An `Err` is want of memory.
    #[tactic(auto, using(branch::specs::KindLaws::leaf_splits_vertices))]
    pub(crate) fn split<F: Rule, G: Rule>(
        &self,
        alloc: Global,
        graph: &NetGraph,
        ground: &Ground,
        search: &mut Search<'_, F, G>,
        guesses: Guesses,
        openings: u8,
    ) -> Result<(), AllocError>
        requires graph { graph.now ≡ search.old.graph }
        requires leaf { split_count search.old.tree ≡ 0 }
        ensures same { IsSameSearch search.old search.new }
        ensures few { split_count search.new.tree ≤ openings }
        ensures vertices { SplitsVertices search.new.tree }
    {
        let mut plans = Vec::new(alloc);
        plans.push(Plan {
            network: search.network().copy()?,
            guesses,
        })?;
        let most = self.most_in(graph);
        let mut exchanges = u32::from(most) * 2;
        for _made in 0..openings.min(most) {
            let made = self.split_next(alloc, graph, ground, search, &mut plans, exchanges)?;
            let Some(made) = made else {
                break;
            };
            exchanges = exchanges.saturating_sub(made);
        }
        Ok(())
    }

    // How many splits are made in a graph at most.
    fn most_in(&self, graph: &NetGraph) -> u8 {
        let by_edges = self.edge_splits.checked_div(graph.edge_count());
        let splits = by_edges.unwrap_or(0).min(u32::from(self.most));
        u8::try_from(splits).unwrap_or(self.most)
    }

    // Splits the open leaf of the least value, if there is one that can be split as its exchange guesses, and tells how
    // many exchanges were made for it, of so many at most. An `Err` is want of memory.
    fn split_next<F: Rule, G: Rule>(
        &self,
        alloc: Global,
        graph: &NetGraph,
        ground: &Ground,
        search: &mut Search<'_, F, G>,
        plans: &mut Vec<Plan>,
        exchanges: u32,
    ) -> Result<Option<u32>, AllocError>
        requires graph { graph.now ≡ search.old.graph }
        requires few { split_count search.old.tree < 255 }
        requires vertices { SplitsVertices search.old.tree }
        requires plans { All (IsPlanIn search.old.graph) plans.old.items }
        ensures same { IsSameSearch search.old search.new }
        ensures few { split_count search.new.tree ≤ split_count search.old.tree + 1 }
        ensures vertices { SplitsVertices search.new.tree }
        ensures plans { OnOk result (All (IsPlanIn search.old.graph) plans.new.items) }
    {
        let Some(leaf) = search.next_open() else {
            return Ok(None);
        };
        let place = leaf as usize;
        if place >= plans.len() || !splits_anew(graph, search, leaf) {
            return Ok(None);
        }
        let plan = &plans[place];
        let trials = self.tried(alloc, graph, ground, search, leaf, plan, exchanges)?;
        let made = trials.exchanges;
        let best = trials.best;
        let Some(trial) = best else {
            return Ok(None);
        };
        let Trial {
            vertex,
            outside,
            inside,
        } = trial;
        let offered = Offered {
            outside: outside.packing,
            inside: inside.packing,
        };
        split_leaf(search, leaf, vertex, offered)?;
        offer_network(alloc, graph, search, &outside.plan.network)?;
        offer_network(alloc, graph, search, &inside.plan.network)?;
        put_plans(plans, place, outside.plan, inside.plan)?;
        Ok(Some(made))
    }
}

// Splits a leaf on a vertex, where all splits so far are on vertices. An `Err` is want of memory, and leaves the search
// as it was.
#[tactic(auto, using(crate::proofs::SplitLemmas::split_on_vertex))]
fn split_leaf<F: Rule, G: Rule>(
    search: &mut Search<'_, F, G>,
    leaf: u32,
    vertex: u32,
    offered: Offered,
) -> Result<(), AllocError>
    requires few { split_count search.old.tree < 255 }
    requires can { CanSplitAt search.old leaf vertex }
    requires sizes { AreOfSize search.old.graph.vertices offered }
    requires vertices { SplitsVertices search.old.tree }
    ensures same { IsSameSearch search.old search.new }
    ensures few { split_count search.new.tree ≤ split_count search.old.tree + 1 }
    ensures vertices { SplitsVertices search.new.tree }
{
    search.split_at(leaf, vertex, offered)?;
    Ok(())
}

// Puts the plans of two children in place of that of their parent. An `Err` is want of memory.
fn put_plans(
    plans: &mut Vec<Plan>,
    place: usize,
    outside: Plan,
    inside: Plan,
) -> Result<(), AllocError>
    requires { place < length plans.old.items }
    ensures { OnOk result
        (plans.new.items ≡ insert (slice_set plans.old.items place outside) (place + 1) inside) }
{
    plans[place] = outside;
    plans.insert(place + 1, inside)?;
    Ok(())
}

/// Whether a search has an open leaf, and the cuts of the one of the least value have the weight for children whose
/// packings are made anew.
pub(crate) fn splits_next<F: Rule, G: Rule>(graph: &NetGraph, search: &Search<'_, F, G>) -> bool {
    match search.next_open() {
        Some(leaf) => splits_anew(graph, search, leaf),
        None => false,
    }
}

// Whether a leaf's cuts have the weight for children whose packings are made anew.
fn splits_anew<F: Rule, G: Rule>(graph: &NetGraph, search: &Search<'_, F, G>, leaf: u32) -> bool
    requires leaf { leaf < length (packings_of search.now.tree) }
{
    let weight = total_weight(search.tree().packing(leaf).cuts());
    weight > 2 * u128::from(graph.edge_count())
}

// Offers a search a network, where it is one. An `Err` is want of memory.
fn offer_network<F: Rule, G: Rule>(
    alloc: Global,
    graph: &NetGraph,
    search: &mut Search<'_, F, G>,
    network: &EdgeSet,
) -> Result<(), AllocError>
    requires graph { graph.now ≡ search.old.graph }
    requires size { length network.now ≡ length graph.now.edges }
    ensures same { IsSameSearch search.old search.new }
    ensures tree { search.new.tree ≡ search.old.tree }
{
    if joins(alloc, graph, network)? {
        search.offer(network.copy()?);
    }
    Ok(())
}
