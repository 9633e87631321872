//! The tree of packings that a bound rests on.

ghost use Rattle.std.specs.Prelude.{◌≡◌, ◌+◌, ◌<◌, ◌≤◌, ◌^◌, List, [], ◌∷◌, ◌++◌, length, slice_get, take, drop, None, Some, IfOk, OnOk, OnErr};
ghost use Rattle.net_graph.specs.declared.packing.Cut.{Cut};
ghost use Rattle.cert_tree.specs.Tree.{split_with};
ghost use Rattle.cert_tree.specs.Tree.Tree.{Leaf};
ghost use Rattle.cert_tree.specs.Preorder.{nodes_of, packings_of, split_count, leaves_in};
ghost use Rattle.cert_tree.specs.Replaced.{replaced};

use crate::split::SplitOn;
use net_graph::Packing;
use std::alloc::{AllocError, Global};
use std::marker::Model;

/// A tree whose leaves have packings and whose splits have edges or vertices. It is kept in preorder: a split, then
/// its outside child, then its inside child. Leaves and nodes are named by their places in this order.
#[derive(Drop)]
pub struct CertTree {
    nodes: Vec<Option<SplitOn>>,
    packings: Vec<Packing>,
}

impl Model for CertTree {
    ghost use Rattle.cert_tree.specs.declared.split.SplitOn.{SplitOn};
    ghost use Rattle.cert_tree.specs.Tree.{Tree};
    ghost use Rattle.cert_tree.specs.Preorder.{IsPreorder, tree_of};
    ghost use Rattle.cert_tree.specs.PreorderLaws.{tree_code};

    ghost Value = { Tree SplitOn };

    ghost coded = { tree_code };

    ghost view = { λ t. tree_of t.nodes.items t.packings.items };

    ghost invariant = { λ t. IsPreorder t.nodes.items t.packings.items };
}

impl CertTree {
    /// The tree that is one leaf. An `Err` is want of memory.
    pub fn leaf(alloc: Global, packing: Packing) -> Result<CertTree, AllocError>
        ensures { IfOk result (λ t. t ≡ Leaf packing) }
    {
        let mut nodes = Vec::with_capacity(alloc, 1)?;
        let mut packings = Vec::with_capacity(alloc, 1)?;
        nodes.push_reserved(None);
        packings.push_reserved(packing);
        Ok(CertTree { nodes, packings })
    }

    /// Puts a split with two leaves in place of a leaf. An `Err` is want of memory; it leaves the tree as it was and
    /// drops the two packings.
    pub fn replace_leaf(
        &mut self,
        leaf: u32,
        on: SplitOn,
        outside: Packing,
        inside: Packing,
    ) -> Result<(), AllocError>
        requires leaf { leaf < length (packings_of self.old) }
        requires few { length (packings_of self.old) < 2 ^ 31 }
        ensures ok { OnOk result (self.new ≡ replaced leaf (split_with on outside inside) self.old) }
        ensures err { OnErr result (self.new ≡ self.old) }
    {
        // All memory is made before the tree changes.
        let nodes = self.nodes_with_split(leaf, on)?;
        self.packings.insert(leaf as usize + 1, inside)?;
        self.packings[leaf as usize] = outside;
        self.nodes = nodes;
        Ok(())
    }

    // The nodes with a split on two leaves in place of a leaf.
    fn nodes_with_split(&self, leaf: u32, on: SplitOn) -> Result<Vec<Option<SplitOn>>, AllocError>
        requires leaf { leaf < length (packings_of self.now) }
        requires few { length (packings_of self.now) < 2 ^ 31 }
        ensures { IfOk result (λ nodes. (outside inside : List Cut) →
            nodes.items ≡ nodes_of (replaced leaf (split_with on outside inside) self.now)) }
    {
        let alloc = self.nodes.allocator().clone()?;
        split_at(alloc, self.nodes.as_slice(), self.place_of(leaf), on)
    }

    // The place of a leaf among the nodes.
    pub(crate) fn place_of(&self, leaf: u32) -> usize
        requires { leaf < length (packings_of self.now) }
        ensures at { slice_get (nodes_of self.now) result ≡ Some None }
        ensures before { leaves_in (take result (nodes_of self.now)) ≡ leaf }
    {
        let mut passed = 0;
        for (place, node) in self.nodes.iter().enumerate() {
            if node.is_none() {
                if passed == leaf {
                    return place;
                }
                passed += 1;
            }
        }
        unreachable!()
    }

    /// How many splits there are, less than 2^31.
    pub fn splits(&self) -> u32
        ensures { result ≡ split_count self.now }
    {
        (self.packings.len() - 1) as u32
    }

    /// How many leaves there are, at least 1 and at most 2^31.
    pub fn leaves(&self) -> u32
        ensures { result ≡ length (packings_of self.now) }
    {
        self.packings.len() as u32
    }

    /// The nodes in preorder: what it is on for a split, None for a leaf.
    pub fn nodes(&self) -> &[Option<SplitOn>]
        ensures nodes { result.now ≡ nodes_of self.now }
        ensures few { length (packings_of self.now) ≤ 2 ^ 31 }
    {
        self.nodes.as_slice()
    }

    /// The node at a place, with splits and leaves counted together: what it is on for a split, None for a leaf.
    pub fn node(&self, n: u32) -> Option<SplitOn>
        requires { n < length (nodes_of self.now) }
        ensures { slice_get (nodes_of self.now) n ≡ Some result }
    {
        self.nodes[n as usize]
    }

    /// The packing of a leaf.
    pub fn packing(&self, leaf: u32) -> &Packing
        requires { leaf < length (packings_of self.now) }
        ensures { slice_get (packings_of self.now) leaf ≡ Some result.now }
    {
        &self.packings[leaf as usize]
    }
}

// The nodes with a split on two leaves in place of the one at a place.
fn split_at(
    alloc: Global,
    nodes: &[Option<SplitOn>],
    place: usize,
    on: SplitOn,
) -> Result<Vec<Option<SplitOn>>, AllocError>
    requires { place < length nodes.now }
    ensures { IfOk result (λ split. split.items
        ≡ take place nodes.now ++ (Some on ∷ None ∷ None ∷ []) ++ drop (place + 1) nodes.now) }
{
    let mut split = Vec::new(alloc);
    split.extend_from_slice(&nodes[..place])?;
    split.extend_from_slice(&[Some(on), None, None])?;
    split.extend_from_slice(&nodes[place + 1..])?;
    Ok(split)
}
