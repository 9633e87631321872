//! The ascent.

ghost use Rattle.std.specs.Prelude.{◌≡◌, length, All, IfOk, IfSome, OnOk};

use crate::region::Region;
use crate::waiting::Waiting;
use cut_groups::{Random, Tree, at, ends_of, set};
use net_graph::{Cut, NetGraph, Packing};
use std::alloc::{AllocError, Global};

// An ascent takes at most so many steps for an edge of the graph: each saturates an arc, or tells of a terminal that
// its cut isn't the next one.
const STEPS_AN_EDGE: u32 = 16;

/// Packs cuts by dual ascent along a network of a graph, given by its tree. Each cut is the set of the vertices from
/// which saturated arcs lead to a terminal, where the root isn't one of them and the tree enters it once; of these sets
/// one comes next that few arcs enter. With a seed, what is few is drawn. `None` where there is no such set left,
/// though saturated arcs don't lead to all terminals. Equal arguments give equal results. An `Err` is want of memory.
pub fn ascend_along(
    alloc: Global,
    graph: &NetGraph,
    tree: &Tree,
    seed: Option<u64>,
) -> Result<Option<Packing>, AllocError>
    ensures { IfOk result (λ found. IfSome found (All (λ c. length c.members ≡ graph.now.vertices))) }
{
    let Ascended { packing, is_whole } = ascend(alloc, graph, tree, seed)?;
    Ok(if is_whole { Some(packing) } else { None })
}

/// Packs cuts as `ascend_along` does, as far as it comes: also where there is no such set left though saturated arcs
/// don't lead to all terminals. Equal arguments give equal results. An `Err` is want of memory.
pub fn pack_along(
    alloc: Global,
    graph: &NetGraph,
    tree: &Tree,
    seed: Option<u64>,
) -> Result<Packing, AllocError>
    ensures { IfOk result (All (λ c. length c.members ≡ graph.now.vertices)) }
{
    let Ascended {
        packing,
        is_whole: _,
    } = ascend(alloc, graph, tree, seed)?;
    Ok(packing)
}

// What an ascent comes to: its cuts, and whether saturated arcs then lead to all terminals.
#[derive(Drop)]
struct Ascended {
    packing: Packing,
    is_whole: bool,
}

// Packs cuts until none is left. An `Err` is want of memory.
fn ascend(
    alloc: Global,
    graph: &NetGraph,
    tree: &Tree,
    seed: Option<u64>,
) -> Result<Ascended, AllocError>
    ensures { IfOk result (λ ascended. All (λ c. length c.members ≡ graph.now.vertices) ascended.packing) }
{
    let mut ascent = Ascent::of(alloc, graph, seed)?;
    let mut packing = Packing::empty(alloc);
    for _step in 0..graph.edge_count().saturating_mul(STEPS_AN_EDGE) {
        let Some(place) = ascent.waiting.next() else {
            break;
        };
        ascent.step(alloc, graph, tree, place, &mut packing)?;
    }
    Ok(Ascended {
        packing,
        is_whole: ascent.waiting.is_empty(),
    })
}

// What an ascent keeps from step to step.
#[derive(Drop)]
struct Ascent {
    // What is left of the room of each arc.
    left: Vec<u64>,
    // The heads of the arcs that were saturated last.
    saturated: Vec<u32>,
    waiting: Waiting,
    region: Region,
    random: Option<Random>,
}

impl Ascent {
    // An ascent without a cut. An `Err` is want of memory.
    fn of(alloc: Global, graph: &NetGraph, seed: Option<u64>) -> Result<Ascent, AllocError> {
        let mut left = Vec::new(alloc);
        for edge in graph.edges() {
            left.push(edge.length)?;
            left.push(edge.length)?;
        }
        Ok(Ascent {
            left,
            saturated: Vec::new(alloc),
            waiting: Waiting::of(alloc, graph)?,
            region: Region::empty(alloc, graph)?,
            random: seed.map(Random::new),
        })
    }

    // Looks at the terminal at a place of those that wait: it goes where saturated arcs lead to it from the root; else
    // it is put aside where the tree doesn't enter its cut once; else the cut is packed, if it comes next. An `Err` is
    // want of memory.
    fn step(
        &mut self,
        alloc: Global,
        graph: &NetGraph,
        tree: &Tree,
        place: usize,
        packing: &mut Packing,
    ) -> Result<(), AllocError>
        requires { All (λ c. length c.members ≡ graph.now.vertices) packing.old }
        ensures { OnOk result (All (λ c. length c.members ≡ graph.now.vertices) packing.new) }
    {
        let terminal = self.waiting.terminal(place);
        self.region.grow(graph, &self.left, terminal)?;
        if self.region.has(graph.root()) {
            self.waiting.leave(place);
            return Ok(());
        }
        let border = self.region.border(graph, tree, &self.left)?;
        if border.of_tree != 1 {
            let set = self.region.members(alloc, graph)?;
            self.waiting.put_aside(place, set);
            return Ok(());
        }
        let score = self.score(border.arcs);
        if !self.waiting.comes_first(place, score) {
            return Ok(());
        }
        self.lower(graph, border.least)?;
        self.waiting.take_back(&self.saturated);
        packing.push(Cut {
            weight: border.least,
            members: self.region.members(alloc, graph)?,
        })
    }

    // By what sets are compared that so many arcs enter: four times the number, and with draws up to a quarter more.
    fn score(&mut self, arcs: u32) -> u32 {
        let score = arcs.saturating_mul(4);
        match &mut self.random {
            Some(random) => score.saturating_add(random.below(arcs.saturating_add(4))),
            None => score,
        }
    }

    // Takes a weight from what is left of the arcs that enter the set. An `Err` is want of memory.
    fn lower(&mut self, graph: &NetGraph, weight: u64) -> Result<(), AllocError> {
        self.saturated.clear();
        for arc in self.region.entering() {
            let left = at(&self.left, *arc, 0).saturating_sub(weight);
            set(&mut self.left, *arc, left);
            if left == 0 {
                self.saturated.push(ends_of(graph, *arc).head)?;
            }
        }
        Ok(())
    }
}
