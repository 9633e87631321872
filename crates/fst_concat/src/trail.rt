//! Trails of the search.

ghost use Rattle.std.specs.Prelude.{◌≡◌};
ghost use Rattle.concatenation.specs.Trails.{splits_of};
ghost use Rattle.fst_concat.specs.Steps.{trail_of};

use std::marker::Model;

/// A step of a trail that is read in preorder: a split stands before the part with its tree, and that before the part
/// without it.
#[derive(Clone, Copy)]
pub(crate) enum Step {
    /// An end.
    Close,
    /// A split on the tree at a place.
    Fork(u32),
}

/// The trail of a search: an end, or a split on a place of the list, with the part without that tree and the part with
/// it. Contracts see the tree of it; it is kept as one list in preorder.
#[derive(Drop)]
pub struct Trail {
    steps: Vec<Step>,
    splits: u32,
}

impl Model for Trail {
    ghost use Rattle.std.specs.Prelude.{◌≡◌};
    ghost use Rattle.concatenation.specs.Trails.{Trail as TrailTree, splits_of};
    ghost use Rattle.fst_concat.specs.TrailCode.{trail_code};
    ghost use Rattle.fst_concat.specs.Steps.{trail_of};

    ghost Value = { TrailTree };

    ghost coded = { trail_code };

    ghost view = { λ t. trail_of t.steps.items };

    ghost invariant = { λ t. t.splits ≡ splits_of (trail_of t.steps.items) };
}

impl Trail {
    // The trail of steps, of which so many are splits.
    pub(crate) fn of_steps(steps: Vec<Step>, splits: u32) -> Trail
        requires { splits ≡ splits_of (trail_of steps.items) }
        ensures { result ≡ trail_of steps.items }
    {
        Trail { steps, splits }
    }

    /// How many splits there are.
    pub fn splits(&self) -> u32
        ensures { result ≡ splits_of self.now }
    {
        self.splits
    }
}
