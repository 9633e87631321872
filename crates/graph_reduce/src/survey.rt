//! What is seen of the nodes of a state.

ghost use Rattle.std.specs.Prelude.{◌≡◌, ℕ, ◌+◌, ◌<◌, ◌⊎◌, false, true, length, slice_set, IfOk, OnOk};
ghost use Rattle.graph_reduce.specs.Survey.{IsNumbered, IsListed, IsSeenTo, AreListedTo, AreMarked, IsSurvey};

use crate::node_edges::NodeEdges;
use crate::number_sets::put;
use crate::places::edges_at;
use crate::work::Work;
use net_graph::VertexSet;
use std::alloc::{AllocError, Global};
use std::collections::BTreeSet;

/// The nodes of a state: where their edges are, and marks of those that are terminals.
#[derive(Drop)]
pub(crate) struct Survey {
    /// For each node places among which are those of its edges. A place whose edge is dropped or gets other ends is
    /// taken out where it is met.
    pub places: Vec<BTreeSet<u32>>,
    pub terminals: VertexSet,
}

impl Survey {
    /// The nodes of the state. An `Err` is want of memory.
    pub fn of(alloc: Global, work: &Work) -> Result<Survey, AllocError>
        requires { IsNumbered work.now }
        ensures { IfOk result (λ s. IsSurvey work.now s.places.items s.terminals) }
    {
        let places = listed_places(alloc, work)?;
        let mut terminals = VertexSet::empty(alloc, work.node_count())?;
        mark_terminals(work, &mut terminals);
        Ok(Survey { places, terminals })
    }

    /// The edges of a node of the state.
    pub fn edges_of(&mut self, work: &Work, v: u32) -> NodeEdges
        requires survey { IsSurvey work.now self.old.places.items self.old.terminals }
        requires node { v < length work.now.nodes }
        ensures seen { IsSeenTo work.now v (length work.now.edges) result }
        ensures survey { IsSurvey work.now self.new.places.items self.new.terminals }
    {
        edges_at(work, &mut self.places[v as usize], v)
    }

    /// That of two nodes for which fewer places are listed.
    pub fn less_listed(&self, u: u32, v: u32) -> u32
        requires one { u < length self.now.places.items }
        requires other { v < length self.now.places.items }
        ensures { (result ≡ u) ⊎ (result ≡ v) }
    {
        if self.places[v as usize].len() < self.places[u as usize].len() {
            v
        } else {
            u
        }
    }

    /// Lists a place for a node. An `Err` is want of memory.
    pub fn list(&mut self, v: u32, place: u32) -> Result<(), AllocError>
        requires { v < length self.old.places.items }
        ensures size { length self.new.places.items ≡ length self.old.places.items }
        ensures listed { OnOk result (IsListed self.new.places.items v place) }
        ensures kept { (u n : ℕ) → IsListed self.old.places.items u n → IsListed self.new.places.items u n }
        ensures terminals { self.new.terminals ≡ self.old.terminals }
    {
        put(&mut self.places[v as usize], place)
    }

    /// Marks another node in a terminal's place.
    pub fn move_terminal(&mut self, from: u32, to: u32)
        requires from { from < length self.old.terminals }
        requires to { to < length self.old.terminals }
        ensures places { self.new.places ≡ self.old.places }
        ensures terminals { self.new.terminals ≡ slice_set (slice_set self.old.terminals from false) to true }
    {
        self.terminals.remove(from);
        self.terminals.add(to);
    }
}

// The places of each node's edges. An `Err` is want of memory.
fn listed_places(alloc: Global, work: &Work) -> Result<Vec<BTreeSet<u32>>, AllocError>
    requires { IsNumbered work.now }
    ensures { IfOk result (λ v. AreListedTo work.now (length work.now.edges) v.items) }
{
    let mut places = no_places(alloc, work.node_count())?;
    for place in 0..work.place_count() {
        list_ends(work, &mut places, place)?;
    }
    Ok(places)
}

// Lists the place for both ends of its edge, where it holds one. An `Err` is want of memory.
fn list_ends(work: &Work, places: &mut [BTreeSet<u32>], place: u32) -> Result<(), AllocError>
    requires numbered { IsNumbered work.now }
    requires place { place < length work.now.edges }
    requires listed { AreListedTo work.now place places.old }
    ensures { OnOk result (AreListedTo work.now (place + 1) places.new) }
{
    if let Some(edge) = work.edge(place) {
        list(places, edge.a, place)?;
        list(places, edge.b, place)?;
    }
    Ok(())
}

// No place for any of so many nodes. An `Err` is want of memory.
fn no_places(alloc: Global, count: u32) -> Result<Vec<BTreeSet<u32>>, AllocError>
    ensures { IfOk result (λ v. length v.items ≡ count) }
{
    let mut places = Vec::with_capacity(alloc, count as usize)?;
    for _ in 0..count {
        places.push(BTreeSet::new(alloc))?;
    }
    Ok(places)
}

// Lists a place for a node. An `Err` is want of memory.
fn list(places: &mut [BTreeSet<u32>], v: u32, place: u32) -> Result<(), AllocError>
    requires { v < length places.old }
    ensures size { length places.new ≡ length places.old }
    ensures listed { OnOk result (IsListed places.new v place) }
    ensures kept { (u n : ℕ) → IsListed places.old u n → IsListed places.new u n }
{
    put(&mut places[v as usize], place)
}

// Marks the terminals.
fn mark_terminals(work: &Work, marks: &mut VertexSet)
    requires count { length marks.old ≡ length work.now.nodes }
    requires numbered { IsNumbered work.now }
    ensures { AreMarked work.now marks.new }
{
    marks.clear();
    for t in work.terminals() {
        marks.add(*t);
    }
}
