//! The way of splits to a node.

ghost use Rattle.std.specs.Prelude.{◌≡◌, ◌<◌, ◌≤◌, List, [], ◌∷◌, length, drop, slice_get, Some, IfSome, IfNone, IfOk};
ghost use Rattle.cert_tree.specs.declared.way.Turn.{Turn};

use cert_tree::Turn;
use std::alloc::{AllocError, Global};
use std::marker::Model;

/// An answer has at most so many splits.
pub(crate) const MOST_SPLITS: u32 = 255;

/// The splits on the way to a node, at most 255. Contracts see them from the lowest one up.
#[derive(Drop)]
pub(crate) struct Path {
    /// From the top one down, with room for 255.
    turns: Vec<Turn>,
}

impl Model for Path {
    ghost use Rattle.std.specs.Prelude.{◌≡◌, List, reverse, vec_capacity};
    ghost use Rattle.cert_tree.specs.declared.way.Turn.{Turn};

    ghost Value = { List Turn };

    ghost view = { λ p. reverse p.turns.items };

    ghost invariant = { λ p. vec_capacity p.turns ≡ 255 };
}

impl Path {
    /// The way to the top of a tree. An `Err` is want of memory.
    pub(crate) fn new(alloc: Global) -> Result<Path, AllocError>
        ensures { IfOk result (λ path. path ≡ []) }
    {
        Ok(Path {
            turns: Vec::with_capacity(alloc, MOST_SPLITS as usize)?,
        })
    }

    /// The lowest split on the way, if there is one.
    pub(crate) fn lowest(&self) -> Option<Turn>
        ensures none { IfNone result (self.now ≡ []) }
        ensures some { IfSome result (λ t. (above : List Turn) × (self.now ≡ t ∷ above)) }
    {
        self.turns.last().copied()
    }

    /// How many splits are on the way.
    pub(crate) fn depth(&self) -> u32
        ensures { result ≡ length self.now }
    {
        self.turns.len() as u32
    }

    /// The split at a place of the way, counted from 0 and from the lowest one up.
    pub(crate) fn turn(&self, place: u32) -> Turn
        requires { place < length self.now }
        ensures { slice_get self.now place ≡ Some result }
    {
        self.turns[self.turns.len() - 1 - place as usize]
    }

    /// Goes down by one more split.
    pub(crate) fn push(&mut self, turn: Turn)
        requires { length self.old < 255 }
        ensures { self.new ≡ turn ∷ self.old }
    {
        self.turns.push_reserved(turn);
    }

    /// Goes up by one split.
    pub(crate) fn pop(&mut self)
        requires { 0 < length self.old }
        ensures { self.new ≡ drop 1 self.old }
    {
        self.turns.pop();
    }
}
