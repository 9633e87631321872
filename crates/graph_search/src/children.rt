//! The children of a split, with packings made anew for both.

ghost use Rattle.std.specs.Prelude.{ℕ, ◌≡◌, [], length, All, IfOk, IfSome};
ghost use Rattle.net_graph.specs.Graph.{Graph};
ghost use Rattle.net_graph.specs.Decision.{IsDecisionFor};
ghost use Rattle.packing_judge.specs.Outcome.{IsOutcomeFor};
ghost use Rattle.graph_search.specs.Plans.{IsPlanIn, IsChildIn};

use crate::exchanging::bound_of;
use crate::splitting::Splitting;
use crate::under::graph_under;
use branch::Search;
use dual_ascent::Rule;
use net_graph::{Decision, EdgeSet, NetGraph, Packing, joins, length};
use network_judge::shortened_by_shares;
use packing_judge::{Exchanged, Ground, Outcome, exchange};
use std::alloc::{AllocError, Global};
use tight_packing::Guesses;

/// How far a child is from its end of which nothing was told.
pub(crate) const SPENT: u64 = 1;

/// What is kept beside an open leaf: the network along which cuts were packed for it, and what the exchange guesses.
#[derive(Drop)]
pub(crate) struct Plan {
    pub network: EdgeSet,
    pub guesses: Guesses,
}

/// How the exchange for a child of a split ended.
#[derive(Clone, Copy)]
pub(crate) enum ChildEnd {
    /// With a packing of the wanted value.
    Closed,
    /// Its budget was spent.
    Spent,
    /// It told that there is no such packing: what it guesses tells of a fractional network that is shorter.
    Impossible,
    /// The child has no network, and there was no exchange.
    WithoutNetwork,
}

impl ChildEnd {
    // The end of a child whose exchange ended so.
    fn of(outcome: &Outcome) -> ChildEnd {
        match outcome {
            Outcome::Tight(_) => ChildEnd::Closed,
            Outcome::Exhausted(_) => ChildEnd::Spent,
            Outcome::Impossible(_) => ChildEnd::Impossible,
        }
    }
}

/// A child of a split: the packing that is offered for it, how the exchange that found it ended, and the child's plan.
#[derive(Drop)]
pub(crate) struct Child {
    pub packing: Packing,
    pub end: ChildEnd,
    pub plan: Plan,
}

impl Child {
    /// How far it is from its end: 0 where it is closed, `SPENT` where the budget was spent before it was told that
    /// there is no packing, and more where that was told, the more the greater the gap is.
    pub fn distance(&self) -> u64 {
        match self.end {
            ChildEnd::Closed => 0,
            ChildEnd::Spent => SPENT,
            ChildEnd::Impossible => self.plan.guesses.gap.saturating_add(SPENT + 1),
            ChildEnd::WithoutNetwork => u64::MAX,
        }
    }
}

impl Splitting {
    /// The packing of a child's exchange, which begins with the cuts of its parent, and the child's plan. An `Err` is
    /// want of memory.
    pub(crate) fn child<F: Rule, G: Rule>(
        &self,
        alloc: Global,
        graph: &NetGraph,
        ground: &Ground,
        search: &Search<'_, F, G>,
        plan: &Plan,
        start: &Packing,
        decision: &Decision,
    ) -> Result<Child, AllocError>
        requires graph { graph.now ≡ search.now.graph }
        requires plan { IsPlanIn search.now.graph plan.now }
        requires decision { IsDecisionFor search.now.graph decision.now }
        ensures { IfOk result (IsChildIn search.now.graph) }
    {
        let wanted = search.length();
        let Some(under) = graph_under(alloc, graph, decision, wanted)? else {
            return without_plan(alloc, plan);
        };
        let Some(network) = self.network_under(alloc, graph, &under, plan)? else {
            return without_plan(alloc, plan);
        };
        let own = ground.under(alloc, &under)?;
        let found = exchange(alloc, &under, &own, &network, wanted, start, self.budget)?;
        let Exchanged { outcome, guesses } = found;
        let end = ChildEnd::of(&outcome);
        let guesses = if self.may_follow(&outcome) {
            guesses
        } else {
            Guesses::none(alloc)
        };
        Ok(Child {
            packing: packing_of(alloc, outcome),
            end,
            plan: Plan { network, guesses },
        })
    }

    /// Whether splits may follow an exchange that ended so.
    pub(crate) fn may_follow(&self, outcome: &Outcome) -> bool {
        match outcome {
            Outcome::Impossible(_) => true,
            Outcome::Exhausted(_) => self.after_spent,
            Outcome::Tight(_) => false,
        }
    }

    // A network of the graph that a decision leaves: that of the parent's plan where it agrees with the decision, and
    // else the shortest of some that grow by the shares that the parent's exchange guesses. `None` where the graph has
    // none. An `Err` is want of memory.
    fn network_under(
        &self,
        alloc: Global,
        graph: &NetGraph,
        under: &NetGraph,
        plan: &Plan,
    ) -> Result<Option<EdgeSet>, AllocError>
        requires plan { IsPlanIn graph.now plan.now }
        requires edges { length under.now.edges ≡ length graph.now.edges }
        ensures { IfOk result (λ found. IfSome found (λ set. length set ≡ length graph.now.edges)) }
    {
        let network = &plan.network;
        if joins(alloc, under, network)? && length(under, network) == length(graph, network) {
            return Ok(Some(network.copy()?));
        }
        let all = EdgeSet::full(alloc, under.edge_count())?;
        if !joins(alloc, under, &all)? {
            return Ok(None);
        }
        let shares = plan.guesses.shares.as_slice();
        let grown = shortened_by_shares(alloc, under, &all, shares, self.draws, self.descents)?;
        Ok(Some(grown))
    }
}

// The packing that an exchange has at hand, and else no cut. It takes no memory.
fn packing_of(alloc: Global, outcome: Outcome) -> Packing
    ensures { (g : Graph) (aim wanted : ℕ) → IsOutcomeFor g aim wanted outcome
        → All (λ c. length c.members ≡ g.vertices) result }
{
    match bound_of(outcome) {
        Some(bound) => bound.packing,
        None => Packing::empty(alloc),
    }
}

// A child for which no cut is packed. An `Err` is want of memory.
fn without_plan(alloc: Global, plan: &Plan) -> Result<Child, AllocError>
    ensures packing { IfOk result (λ child. child.packing ≡ []) }
    ensures network { IfOk result (λ child. child.plan.network ≡ plan.now.network) }
{
    Ok(Child {
        packing: Packing::empty(alloc),
        end: ChildEnd::WithoutNetwork,
        plan: Plan {
            network: plan.network.copy()?,
            guesses: Guesses::none(alloc),
        },
    })
}
