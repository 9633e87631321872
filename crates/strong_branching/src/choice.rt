//! What a leaf is split on where both children of each candidate are bounded first (strong branching, after Applegate,
//! Bixby, Chvátal and Cook 1995).

ghost use Rattle.std.specs.Prelude.{◌≡◌, length};
ghost use Rattle.net_graph.specs.Decision.{IsUndecided};
ghost use Rattle.branch.specs.Views.{IsViewIn};
ghost use Rattle.strong_branching.specs.Leaf.{IsLeafOf};

use crate::draws::Draws;
use crate::leaf::Leaf;
use branch::LeafView;
use net_graph::{EdgeSet, NetGraph};
use std::alloc::{AllocError, Global};

// So many orders are drawn for the ascents of each candidate's children.
const ORDERS: u8 = 2;

// Behind so many candidates a good one is enough.
const ENOUGH: u32 = 16;

/// What a leaf is split on, and the seed of the order of both children's ascents.
#[derive(Clone, Copy)]
pub struct Choice {
    /// The edge, by its number.
    pub edge: u32,
    /// The seed.
    pub seed: u64,
}

// The best choice so far.
#[derive(Clone, Copy)]
struct Best {
    choice: Option<Choice>,
    worth: i64,
    is_good: bool,
    candidates: u32,
    // How many of the leaf's saturated arcs are relevant.
    relevant: u32,
}

/// The undecided edge of a leaf's own network, and the order of the ascents of both children, that leave least open:
/// worth most is what closes one child and brings the other one closer to its end. Edges of the network that is known
/// come first, and where one is good not all others are looked at. `None` where there is no such edge. An
/// `Err` is want of memory.
pub fn choose(
    alloc: Global,
    graph: &NetGraph,
    view: LeafView<'_>,
    known: &EdgeSet,
    aim: u64,
    draws: &mut Draws,
) -> Result<Option<Choice>, AllocError>
    requires view { IsViewIn graph.now view }
    requires known { length known.now ≡ length graph.now.edges }
{
    let leaf = Leaf::of(graph, view, aim);
    let mut best = Best {
        choice: None,
        worth: 0,
        is_good: false,
        candidates: 0,
        relevant: leaf.relevant(alloc)?,
    };
    best.look_at(alloc, &leaf, known, true, draws)?;
    best.look_at(alloc, &leaf, known, false, draws)?;
    Ok(best.choice)
}

impl Best {
    // Looks at the undecided edges of a leaf's own network that are in the known one, or at those that are not. An
    // `Err` is want of memory.
    fn look_at(
        &mut self,
        alloc: Global,
        leaf: &Leaf<'_>,
        known: &EdgeSet,
        is_known: bool,
        draws: &mut Draws,
    ) -> Result<(), AllocError>
        requires leaf { IsLeafOf leaf.now }
        requires known { length known.now ≡ length leaf.now.graph.now.edges }
    {
        for edge in 0..leaf.graph.edge_count() {
            if self.is_good && self.candidates >= ENOUGH {
                break;
            }
            if known.has(edge) == is_known && leaf.is_candidate(edge) {
                self.try_edge(alloc, leaf, edge, draws)?;
            }
        }
        Ok(())
    }

    // Looks at an edge in some drawn orders. An `Err` is want of memory.
    fn try_edge(
        &mut self,
        alloc: Global,
        leaf: &Leaf<'_>,
        edge: u32,
        draws: &mut Draws,
    ) -> Result<(), AllocError>
        requires leaf { IsLeafOf leaf.now }
        requires edge { IsUndecided leaf.now.graph.now leaf.now.decision.now edge }
    {
        self.candidates = self.candidates.wrapping_add(1);
        for _ in 0..ORDERS {
            let seed = draws.seed();
            let (worth, is_good) = leaf.worth(alloc, edge, seed, self.relevant)?;
            draws.spend(leaf.graph.edge_count());
            if self.choice.is_none() || worth > self.worth {
                self.choice = Some(Choice { edge, seed });
                self.worth = worth;
            }
            self.is_good = self.is_good || is_good;
        }
        Ok(())
    }
}
