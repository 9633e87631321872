//! Exchanges of cuts that raise the first leaf of a search.

ghost use Rattle.std.specs.Prelude.{ℕ, ◌≡◌, ◌<◌, IfOk, IfSome};
ghost use Rattle.net_graph.specs.Graph.{Graph};
ghost use Rattle.net_graph.specs.Network.{length_of};
ghost use Rattle.cert_tree.specs.Preorder.{split_count};
ghost use Rattle.packing_judge.specs.Bound.{IsBoundOf};
ghost use Rattle.packing_judge.specs.Outcome.{IsOutcomeFor};
ghost use Rattle.graph_search.specs.Raised.{IsSameSearch, IsUnsplit};

use crate::guiding::raise_along_network;
use crate::raising::Raising;
use crate::shortening::offer_shorter;
use crate::splitting::{Splitting, splits_next};
use branch::Search;
use dual_ascent::Rule;
use net_graph::{NetGraph, Packing};
use network_judge::shortened_by_shares;
use packing_judge::{Bound, Exchanged, Ground, Outcome, exchange};
use std::alloc::{AllocError, Global};
use tight_packing::{Budget, Guesses};

/// Exchanges that raise a search as long as it isn't settled: each first leaf is the better one of that at hand and of
/// an ascent that begins with what an exchange finds. Where that leads to a shorter network, or has spent its budget
/// and is to go on, another exchange follows. Before each exchange some ascents are made along the network, which may
/// come up to its length in less time. Where they leave a gap, leaves are split.
#[derive(Clone, Copy)]
pub struct Exchanges<'a> {
    /// The graph of the search.
    pub graph: &'a NetGraph,
    /// Its ground, on which they are carried out.
    pub ground: &'a Ground,
    /// At most so many are made, each but the first against a shorter network, or with a new budget and other draws.
    pub most: u8,
    /// At most so many ascents are made along the network before each.
    pub ascents: u8,
    /// Whether another one follows one that has spent its budget and led to no shorter network, where the leaf can't be
    /// split with packings made anew.
    pub goes_on: bool,
    /// What the first one may do, and each other one, of which each has a seed of its own.
    pub first: Budget,
    pub further: Budget,
    /// In so many draws networks are grown by the shares that an exchange guesses which leaves a gap.
    pub draws: u32,
    /// In how many descents of local search the network that the leaf then shows is made shorter at most.
    pub descents: u32,
    /// How leaves are split.
    pub splitting: Splitting,
}

impl Raising for Exchanges<'_> {
    ghost is_for = { λ exchanges g. exchanges.graph.now ≡ g };

    #[tactic(auto, using(branch::specs::KindLaws::leaf_splits_vertices))]
    fn raise<F: Rule, G: Rule>(
        &self,
        alloc: Global,
        search: &mut Search<'_, F, G>,
        openings: u8,
    ) -> Result<(), AllocError> {
        let guesses = self.raise_first(alloc, search, openings)?;
        self.splitting
            .split(alloc, self.graph, self.ground, search, guesses, openings)
    }
}

// How a turn of exchanging ended.
#[derive(Clone, Copy)]
enum TurnEnd {
    // It led to a shorter network, for which no cuts were exchanged yet.
    Shorter,
    // It spent its budget, and led to no shorter network.
    Spent,
    // It told that there is a packing of the network's length, or that there is none.
    Decided,
}

// What a turn of exchanging comes to: how it ended, and what the exchange guesses.
#[derive(Drop)]
struct Turn {
    end: TurnEnd,
    guesses: Guesses,
}

impl Exchanges<'_> {
    // Raises the first leaf of a search with so many openings by exchanges, and tells what the last one guesses. An
    // `Err` is want of memory.
    fn raise_first<F: Rule, G: Rule>(
        &self,
        alloc: Global,
        search: &mut Search<'_, F, G>,
        openings: u8,
    ) -> Result<Guesses, AllocError>
        requires graph { self.now.graph.now ≡ search.old.graph }
        requires leaf { split_count search.old.tree ≡ 0 }
        ensures { IsUnsplit search.old search.new }
    {
        let mut guesses = Guesses::none(alloc);
        for exchange in 0..self.most {
            raise_along_network(alloc, self.graph, search, self.ascents)?;
            if search.is_settled() {
                break;
            }
            let budget = self.budget(exchange);
            let turn = self.raise_once(alloc, search, budget)?;
            guesses = turn.guesses;
            if !self.goes_on_after(turn.end, search, openings) {
                break;
            }
        }
        Ok(guesses)
    }

    // Whether another exchange may follow a turn that ended so, where so many openings are allowed.
    fn goes_on_after<F: Rule, G: Rule>(
        &self,
        end: TurnEnd,
        search: &Search<'_, F, G>,
        openings: u8,
    ) -> bool {
        match end {
            TurnEnd::Shorter => true,
            TurnEnd::Spent => self.goes_on && !(openings > 0 && splits_next(self.graph, search)),
            TurnEnd::Decided => false,
        }
    }

    // What the exchange of a number, counted from 0, may do.
    fn budget(&self, exchange: u8) -> Budget {
        if exchange == 0 {
            return self.first;
        }
        Budget {
            seed: self.further.seed.wrapping_add(u64::from(exchange)),
            ..self.further
        }
    }

    // Raises a search by what an exchange along its network comes to. An `Err` is want of memory.
    fn raise_once<F: Rule, G: Rule>(
        &self,
        alloc: Global,
        search: &mut Search<'_, F, G>,
        budget: Budget,
    ) -> Result<Turn, AllocError>
        requires graph { self.now.graph.now ≡ search.old.graph }
        requires leaf { split_count search.old.tree ≡ 0 }
        ensures further { IfOk result (λ turn.
            length_of search.old.graph search.new.network < length_of search.old.graph search.old.network
            → turn.end ≡ TurnEnd.Shorter) }
        ensures unsplit { IsUnsplit search.old search.new }
    {
        let graph = self.graph;
        let before = search.length();
        let start = Packing::empty(alloc);
        let network = search.network();
        let found = exchange(alloc, graph, self.ground, network, before, &start, budget)?;
        let Exchanged { outcome, guesses } = found;
        let is_spent = matches!(outcome, Outcome::Exhausted(_));
        let further = self.splitting.may_follow(&outcome);
        let Some(bound) = bound_of(outcome) else {
            return Ok(Turn {
                end: TurnEnd::Decided,
                guesses: Guesses::none(alloc),
            });
        };
        search.raise(bound.packing)?;
        if !search.is_settled() {
            offer_shorter(alloc, graph, self.descents, search)?;
            self.offer_by_shares(alloc, guesses.shares.as_slice(), search)?;
        }
        let end = if search.length() < before {
            TurnEnd::Shorter
        } else if is_spent {
            TurnEnd::Spent
        } else {
            TurnEnd::Decided
        };
        Ok(Turn {
            end,
            guesses: if further {
                guesses
            } else {
                Guesses::none(alloc)
            },
        })
    }

    // Offers a search the networks that grow by shares of the edges. An `Err` is want of memory.
    fn offer_by_shares<F: Rule, G: Rule>(
        &self,
        alloc: Global,
        shares: &[u32],
        search: &mut Search<'_, F, G>,
    ) -> Result<(), AllocError>
        requires graph { self.now.graph.now ≡ search.old.graph }
        ensures same { IsSameSearch search.old search.new }
        ensures tree { search.new.tree ≡ search.old.tree }
    {
        let graph = self.graph;
        let network = search.network();
        let shorter = shortened_by_shares(
            alloc,
            graph,
            network,
            shares,
            self.draws,
            self.descents,
        )?;
        search.offer(shorter);
        Ok(())
    }
}

/// The packing that an exchange has at hand, if there is one.
pub(crate) fn bound_of(outcome: Outcome) -> Option<Bound>
    ensures { (g : Graph) (aim wanted : ℕ) → IsOutcomeFor g aim wanted outcome → IfSome result (IsBoundOf g) }
{
    match outcome {
        Outcome::Tight(bound) => Some(bound),
        Outcome::Impossible(bound) | Outcome::Exhausted(bound) => bound,
    }
}
