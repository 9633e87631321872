//! The search by splits.

ghost use Rattle.std.specs.Prelude.{◌≡◌, ◌+◌, ◌*◌, ◌<◌, ◌≤◌, ◌^◌, ◌↔◌, false, true, length, IsTrue};
ghost use Rattle.std.specs.Prelude.{IfOk, IfSome, IfNone, OnOk, OnErr};
ghost use Rattle.std.specs.Option.{option_copied};
ghost use Rattle.net_graph.specs.Network.{length_of};
ghost use Rattle.net_graph.specs.Decision.{nothing_decided};
ghost use Rattle.net_graph.specs.Packing.{IsFeasible};
ghost use Rattle.cert_tree.specs.Preorder.{packings_of, split_count};
ghost use Rattle.cert_tree.specs.TreeValue.{tree_value};

use crate::best::Best;
use crate::frontier::Frontier;
use crate::leaf::first_leaf;
use crate::next_opening::{opening_at, opening_on};
use crate::offered::Offered;
use crate::open::{bound_of, next_open};
use crate::saturation::has_saturated_end;
use crate::solved::Solved;
use crate::split_kind::SplitKind;
use crate::step::Step;
use crate::view::LeafView;
use cert_tree::{CertTree, SplitOn, tree_bounds_every_network};
use dual_ascent::{Chooser, Rule};
use net_graph::{Decision, EdgeSet, NetGraph, Packing};
use std::alloc::{AllocError, Global};
use std::marker::Model;

/// A search for a shortest network (branch and bound after Land and Doig 1960, with dual ascents after Wong
/// 1984). It keeps its best network and a certificate tree, and beside each leaf of the tree a network of edges
/// with a saturated arc where the leaf's packing is maximal. The best network is never longer than one of
/// these.
#[derive(Drop)]
pub struct Search<'a, F: Rule, G: Rule> {
    alloc: Global,
    graph: &'a NetGraph,
    ascent: Chooser<F>,
    split: Chooser<G>,
    kept: Frontier,
}

impl<'a, F: Rule, G: Rule> Model for Search<'a, F, G> {
    ghost use Rattle.branch.specs.Searching.{SearchState, search_state, IsSearch};
    ghost use Rattle.branch.specs.SearchCode.{search_code};

    ghost Value = { SearchState };

    ghost coded = { search_code };

    ghost view = { λ s. search_state s.graph.now s.kept };

    ghost invariant = { λ s. IsSearch s.graph.now s.kept };
}

impl<'a, F: Rule, G: Rule> Search<'a, F, G> {
    ghost use Rattle.branch.specs.States.{IsNetworkOf};
    ghost use Rattle.branch.specs.Notes.{shorter_of};
    ghost use Rattle.branch.specs.Kinds.{AreOfKind};
    ghost use Rattle.branch.specs.PlainOpenings.{LeadsByOpenings};
    ghost use Rattle.branch.specs.Runs.{EndsRunOfOpenings};
    ghost use Rattle.branch.specs.Searching.{IsRaised, IsOffered, IsSettled, IsShownFirst, TakesStep};
    ghost use Rattle.branch.specs.Searching.{IsOpenAt, IsDecidedAt, CanSplitAt, IsSplitAt, AreOfSize};
    ghost use Rattle.branch.specs.Views.{IsViewIn};
    ghost use Rattle.branch.specs.Solving.{IsSolved, ways_of};

    /// A search that begins with a network and with the leaf of an ascent from no cut. The rule `ascent` chooses among
    /// the candidates of an ascent, and `split` among what a leaf may be split on, in ascending number. Of the kind
    /// Edges these are the undecided edges of the leaf's own network, each with its length. Of the kind Vertices they
    /// are the undecided vertices at which edges of that network end, each with the number of these edges, and the
    /// edges as before where there is no such vertex. An `Err` is want of memory.
    pub fn start(
        alloc: Global,
        g: &'a NetGraph,
        first: EdgeSet,
        ascent: Chooser<F>,
        split: Chooser<G>,
        kind: SplitKind,
    ) -> Result<Search<'a, F, G>, AllocError>
        requires { IsNetworkOf g.now first }
        ensures graph { IfOk result (λ s. s.graph ≡ g.now) }
        ensures kind { IfOk result (λ s. s.kind ≡ kind) }
        ensures first { IfOk result (λ s. s.first_length ≡ length_of g.now first) }
        ensures leaf { IfOk result (λ s. split_count s.tree ≡ 0) }
        ensures network { IfOk result (λ s. s.network ≡ shorter_of g.now first s.shown) }
    {
        let leaf = first_leaf(alloc, g, Packing::empty(alloc), &ascent)?;
        let kept = Frontier::begin(alloc, g, kind, first, leaf)?;
        Ok(Search {
            alloc,
            graph: g,
            ascent,
            split,
            kept,
        })
    }

    /// Takes the leaf of an ascent that begins with given cuts in place of the tree's only leaf, where its value is
    /// greater, and the network that it shows in place of the best one, where it is shorter. An `Err` is want of
    /// memory, and leaves the search as it was.
    pub fn raise(&mut self, cuts: Packing) -> Result<(), AllocError>
        requires leaf { split_count self.old.tree ≡ 0 }
        requires feasible { IsFeasible self.old.graph (nothing_decided self.old.graph) cuts }
        requires few { length cuts ≤ 2 * length self.old.graph.edges }
        ensures ok { OnOk result (IsRaised cuts self.old self.new) }
        ensures err { OnErr result (self.new ≡ self.old) }
    {
        let leaf = first_leaf(self.alloc, self.graph, cuts, &self.ascent)?;
        let first = &self.kept.notes[0];
        if first.value < leaf.note.value {
            self.kept = self.kept.with_leaf(self.alloc, self.graph, leaf)?;
        }
        Ok(())
    }

    /// Takes a network in place of the best one, where it is shorter. It takes no memory.
    pub fn offer(&mut self, network: EdgeSet)
        requires { IsNetworkOf self.old.graph network }
        ensures { IsOffered network self.old self.new }
    {
        let best = Best::of(self.graph, network);
        if best.length < self.kept.best.length {
            self.kept.best = best;
        }
    }

    /// Splits the open leaf of the least value, the earliest in preorder on a tie: a leaf is open where its
    /// value is below the best network's length. An `Err` is want of memory, and leaves the search as it was.
    pub fn split_one(&mut self) -> Result<Step, AllocError>
        requires { split_count self.old.tree < 255 }
        ensures step { IfOk result (TakesStep self.old self.new) }
        ensures err { OnErr result (self.new ≡ self.old) }
    {
        let Some(place) = next_open(self.kept.notes.as_slice(), self.kept.best.length) else {
            return Ok(Step::Settled);
        };
        let opening = opening_at(
            self.alloc,
            self.graph,
            &self.kept,
            place,
            &self.ascent,
            &self.split,
        )?;
        self.kept.open(opening)?;
        Ok(Step::Split)
    }

    /// The open leaf of the least value, by its place in preorder, the earliest on a tie; `None` where no leaf's value
    /// is below the best network's length. It takes no memory.
    pub fn next_open(&self) -> Option<u32>
        ensures none { IfNone result (IsSettled self.now) }
        ensures open { IfSome result (IsOpenAt self.now) }
        ensures within { IfSome result (λ place. place < length (packings_of self.now.tree)) }
    {
        let count = self.kept.tree.leaves();
        let place = next_open(self.kept.notes.as_slice(), self.kept.best.length)?;
        prove!(place < count as usize);
        Some(place as u32)
    }

    /// What is decided at a leaf, given by its place in preorder. It takes no memory.
    pub fn decision(&self, leaf: u32) -> &Decision
        requires { leaf < length (packings_of self.now.tree) }
        ensures { IsDecidedAt self.now leaf result.now }
    {
        &self.kept.notes[leaf as usize].decision
    }

    /// A leaf, given by its place in preorder, with what is kept beside it; `None` where its packing isn't maximal, which
    /// is so only where its value is at least the sum of all lengths. It takes no memory.
    pub fn view(&self, leaf: u32) -> Option<LeafView<'_>>
        requires { leaf < length (packings_of self.now.tree) }
        ensures { IfSome result (IsViewIn self.now.graph) }
    {
        let note = &self.kept.notes[leaf as usize];
        let own = note.network.as_ref()?;
        Some(LeafView {
            decision: &note.decision,
            packing: self.kept.tree.packing(leaf),
            costs: &note.costs,
            own,
        })
    }

    /// Whether a leaf, given by its place in preorder, can be split on a vertex: exactly where its value is below the
    /// best network's length, the vertex is undecided there, and an undecided edge with a saturated arc ends at it. It
    /// takes no memory.
    pub fn splits_at(&self, leaf: u32, vertex: u32) -> bool
        requires leaf { leaf < length (packings_of self.now.tree) }
        requires vertex { vertex < self.now.graph.vertices }
        ensures { IsTrue result ↔ CanSplitAt self.now leaf vertex }
    {
        let note = &self.kept.notes[leaf as usize];
        note.value < u128::from(self.kept.best.length)
            && has_saturated_end(self.graph, note, vertex)
    }

    /// Splits a leaf, given by its place in preorder, on a vertex. Each child begins with what is carried to it. Where
    /// that is nothing, and where the leaf's own packing began with no cut and what is carried of it has the weight
    /// for more than two cuts for each edge, a child may begin with no cut: it then is the better one of what the
    /// ascent makes of what is carried and of the offered packing, if this is feasible there. An `Err` is want of
    /// memory, and leaves the search as it was.
    pub fn split_at(&mut self, leaf: u32, vertex: u32, offered: Offered) -> Result<(), AllocError>
        requires few { split_count self.old.tree < 255 }
        requires can { CanSplitAt self.old leaf vertex }
        requires sizes { AreOfSize self.old.graph.vertices offered }
        ensures ok { OnOk result (IsSplitAt leaf vertex self.old self.new) }
        ensures err { OnErr result (self.new ≡ self.old) }
    {
        let opening = opening_on(
            self.alloc,
            self.graph,
            &self.kept,
            leaf as usize,
            SplitOn::Vertex(vertex),
            Some(offered),
            &self.ascent,
        )?;
        self.kept.open(opening)?;
        Ok(())
    }

    /// Makes splits up to `allowed` in all, and tells what was found. It stops before that only where no leaf's value
    /// is below the network's length. An `Err` is want of memory.
    pub fn solve(mut self, allowed: u8) -> Result<Solved, AllocError>
        requires { split_count self.tree ≤ allowed }
        ensures solved { IfOk result (IsSolved self.entry.graph self.entry.first_length) }
        ensures few { IfOk result (λ s. split_count s.tree ≤ allowed) }
        // It is not optimal only where all allowed splits were made and some leaf's value is below the length.
        ensures stopped { IfOk result (λ s. s.optimal ≡ false → split_count s.tree ≡ allowed) }
        ensures below { IfOk result (λ s. s.optimal ≡ false
            → tree_value self.entry.graph (nothing_decided self.entry.graph) s.tree < s.length) }
        // The search at hand ends a run of openings, and plain openings of its kind lead from there to what is told.
        ensures began { EndsRunOfOpenings self.entry.graph self.entry.first_length self.entry.network self.entry.tree }
        ensures plain { IfOk result (λ s.
            LeadsByOpenings self.entry.kind self.entry.graph self.entry.network self.entry.tree s.network s.tree) }
        // With as many allowed splits as there are ways to decide what is split on, but one, it is optimal, where all
        // splits are of the kind.
        ensures enough { AreOfKind self.entry.kind self.entry.tree → IfOk result
            (λ s. ways_of self.entry.kind self.entry.graph ≤ allowed + 1 → s.optimal ≡ true) }
    {
        let made = self.splits() as u8;
        for _made in made..allowed {
            match self.split_one()? {
                Step::Settled => return Ok(self.finish()),
                Step::Split => {}
            }
        }
        Ok(self.finish())
    }

    /// Whether no leaf's value is below the best network's length. It takes no memory.
    pub fn is_settled(&self) -> bool
        ensures { IsTrue result ↔ IsSettled self.now }
    {
        next_open(self.kept.notes.as_slice(), self.kept.best.length).is_none()
    }

    /// The best network. It takes no memory.
    pub fn network(&self) -> &EdgeSet
        ensures network { result.now ≡ self.now.network }
        ensures network_of { IsNetworkOf self.now.graph result.now }
    {
        &self.kept.best.network
    }

    /// The best network's length. It takes no memory.
    pub fn length(&self) -> u64
        ensures { result ≡ length_of self.now.graph self.now.network }
    {
        self.kept.best.length
    }

    /// The network of edges with a saturated arc that the first leaf in preorder shows, where its packing is maximal.
    /// There is none only where that leaf is worth the sum of all lengths. It takes no memory.
    pub fn shown(&self) -> Option<&EdgeSet>
        ensures shown { option_copied result ≡ self.now.shown }
        ensures first { IsShownFirst self.now }
        ensures network_of { IfSome result (λ set. IsNetworkOf self.now.graph set.now) }
    {
        self.kept.notes[0].network.as_ref()
    }

    /// The tree. It takes no memory.
    pub fn tree(&self) -> &CertTree
        ensures { result.now ≡ self.now.tree }
    {
        &self.kept.tree
    }

    /// How many splits the tree has: so many openings made it. It takes no memory.
    pub fn splits(&self) -> u32
        ensures count { result ≡ split_count self.now.tree }
        ensures run { EndsRunOfOpenings self.now.graph self.now.first_length self.now.network self.now.tree }
    {
        self.kept.tree.splits()
    }

    /// What the search has found so far. It takes no memory.
    pub fn finish(self) -> Solved
        ensures network { result.network ≡ self.entry.network }
        ensures tree { result.tree ≡ self.entry.tree }
        ensures solved { IsSolved self.entry.graph self.entry.first_length result }
    {
        tree_bounds_every_network();
        let kept = self.kept;
        let bound = bound_of(kept.notes.as_slice(), kept.best.length);
        let Frontier {
            kind: _,
            first_length: _,
            best,
            tree,
            notes: _,
        } = kept;
        let Best { network, length } = best;
        Solved {
            network,
            length,
            bound,
            optimal: bound == length,
            tree,
        }
    }
}
