//! What a search keeps.

ghost use Rattle.std.specs.Prelude.{◌≡◌, ◌<◌, ◌≤◌, ◌^◌, [], ◌∷◌, length, IfOk, OnOk, OnErr};
ghost use Rattle.net_graph.specs.Network.{length_of};
ghost use Rattle.net_graph.specs.Decision.{nothing_decided};
ghost use Rattle.cert_tree.specs.Tree.Tree.{Leaf};
ghost use Rattle.cert_tree.specs.Preorder.{packings_of};

use crate::best::Best;
use crate::leaf::NewLeaf;
use crate::note::LeafNote;
use crate::opening::Opening;
use crate::split_kind::SplitKind;
use cert_tree::CertTree;
use net_graph::{EdgeSet, NetGraph};
use std::alloc::{AllocError, Global};

/// What a search keeps: what it splits its leaves on, the length of the network that it began with, the best network,
/// the tree, and beside each of its leaves, in preorder, a note.
#[derive(Drop)]
pub(crate) struct Frontier {
    pub kind: SplitKind,
    pub first_length: u64,
    pub best: Best,
    pub tree: CertTree,
    pub notes: Vec<LeafNote>,
}

impl Frontier {
    ghost use Rattle.branch.specs.Leaves.{leaf_under};
    ghost use Rattle.branch.specs.States.{IsNetworkOf};
    ghost use Rattle.branch.specs.Notes.{IsNoteOf, shorter_of};
    ghost use Rattle.branch.specs.Searching.{IsSearch, IsOpened, IsAsBefore};

    /// A search that begins with a network and with one leaf where nothing is decided. An `Err` is want of memory.
    pub fn begin(
        alloc: Global,
        g: &NetGraph,
        kind: SplitKind,
        first: EdgeSet,
        leaf: NewLeaf,
    ) -> Result<Frontier, AllocError>
        requires network { IsNetworkOf g.now first }
        requires note { IsNoteOf g.now (leaf_under (nothing_decided g.now) leaf.packing) leaf.note }
        ensures search { IfOk result (λ kept. IsSearch g.now kept) }
        ensures kind { IfOk result (λ kept. kept.kind ≡ kind) }
        ensures first { IfOk result (λ kept. kept.first_length ≡ length_of g.now first) }
        ensures leaf { IfOk result (λ kept. kept.tree ≡ Leaf leaf.packing) }
        ensures notes { IfOk result (λ kept. kept.notes.items ≡ leaf.note ∷ []) }
        ensures network { IfOk result (λ kept. kept.best.network ≡ shorter_of g.now first leaf.note.network) }
    {
        let NewLeaf { packing, note } = leaf;
        let first = Best::of(g, first);
        let first_length = first.length;
        let best = first.or_shorter(g, &note)?;
        let tree = CertTree::leaf(alloc, packing)?;
        let mut notes = Vec::with_capacity(alloc, 1)?;
        notes.push_reserved(note);
        Ok(Frontier {
            kind,
            first_length,
            best,
            tree,
            notes,
        })
    }

    /// What is kept with another leaf in place of the tree's only one. An `Err` is want of memory.
    pub fn with_leaf(
        &self,
        alloc: Global,
        g: &NetGraph,
        leaf: NewLeaf,
    ) -> Result<Frontier, AllocError>
        requires search { IsSearch g.now self.now }
        requires note { IsNoteOf g.now (leaf_under (nothing_decided g.now) leaf.packing) leaf.note }
        ensures search { IfOk result (λ kept. IsSearch g.now kept) }
        ensures kind { IfOk result (λ kept. kept.kind ≡ self.now.kind) }
        ensures first { IfOk result (λ kept. kept.first_length ≡ self.now.first_length) }
        ensures leaf { IfOk result (λ kept. kept.tree ≡ Leaf leaf.packing) }
        ensures notes { IfOk result (λ kept. kept.notes.items ≡ leaf.note ∷ []) }
        ensures network { IfOk result
            (λ kept. kept.best.network ≡ shorter_of g.now self.now.best.network leaf.note.network) }
    {
        let kept = Frontier::begin(alloc, g, self.kind, self.best.network.copy()?, leaf)?;
        Ok(Frontier {
            first_length: self.first_length,
            ..kept
        })
    }

    /// Makes an opening. An `Err` is want of memory, and leaves everything as it was.
    pub fn open(&mut self, opening: Opening) -> Result<(), AllocError>
        requires leaf { opening.leaf < length (packings_of self.old.tree) }
        requires note { opening.leaf < length self.old.notes.items }
        requires few { length (packings_of self.old.tree) < 2 ^ 31 }
        ensures ok { OnOk result (IsOpened opening self.old self.new) }
        ensures err { OnErr result (IsAsBefore self.old self.new) }
    {
        let Opening {
            leaf,
            on,
            outside,
            inside,
            best,
        } = opening;
        // With this room the notes can't be refused once the tree has changed.
        self.notes.reserve(1)?;
        self.tree
            .replace_leaf(leaf, on, outside.packing, inside.packing)?;
        self.notes[leaf as usize] = outside.note;
        self.notes.insert(leaf as usize + 1, inside.note).unwrap();
        self.best = best;
        Ok(())
    }
}
