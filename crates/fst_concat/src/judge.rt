//! What is found of choices: whether a search has to go on there.

ghost use Rattle.std.specs.Prelude.{ℕ, ◌≡◌, ◌<◌, ◌≤◌, length, IfOk, OnOk, IfSome, IfNone, true, map};
ghost use Rattle.concatenation.specs.Concatenation.{IsConcatenation, total_of};
ghost use Rattle.concatenation.specs.Choices.{taken_of, remaining_of, is_taken, is_left};
ghost use Rattle.concatenation.specs.Trails.{CanGoOn, IsOpenPlace};
ghost use Rattle.fst_concat.specs.Chosen.{IsChosen};
ghost use Rattle.fst_concat.specs.Listed.{IsListed};
ghost use Rattle.fst_concat.specs.Verdict.{VerdictHolds};

use crate::best::{Best, total_of};
use crate::bound::least_under;
use crate::parts::first_apart;
use crate::proposal::{Proposal, propose};
use concatenation::{Choice, more_trees};
use full_tree::{Places, Tree};
use std::alloc::{AllocError, Global};

/// What is found of choices.
#[derive(Clone, Copy)]
pub enum Verdict {
    /// Nothing that respects them is below the best total.
    Done,
    /// A search can go on with the tree at an open place.
    Undecided {
        /// Nothing that respects them is below this total.
        least: u128,
        /// The place.
        place: u32,
    },
}

/// What is found of choices. Concatenations that are found on the way lower the best one. An `Err` is want of memory.
pub fn judge(
    alloc: Global,
    points: u8,
    trees: &[Tree],
    listed: &[Places],
    choices: &[Choice],
    labels: &mut [u8],
    best: &mut Best,
) -> Result<Verdict, AllocError>
    requires some { 0 < points }
    requires few { points ≤ 50 }
    requires few_trees { length trees.now ≤ 20000 }
    requires listed { IsListed points trees.now listed.now }
    requires size { length choices.now ≡ length trees.now }
    requires labels { length labels.old ≡ points }
    requires chosen { IsChosen points trees.now best.old.places best.old.total }
    ensures chosen { OnOk result (IsChosen points trees.now best.new.places best.new.total) }
    ensures below { OnOk result (best.new.total ≤ best.old.total) }
    ensures holds { IfOk result (VerdictHolds points trees.now choices.now best.new.total) }
{
    more_trees();
    let remaining = remaining_of(alloc, choices)?;
    if first_apart(points, trees, listed, &remaining, labels).is_some() {
        return Ok(Verdict::Done);
    }
    let taken = taken_of(alloc, choices)?;
    if first_apart(points, trees, listed, &taken, labels).is_none() {
        best.offer(alloc, points, trees, &taken)?;
        return Ok(Verdict::Done);
    }
    weigh(alloc, points, trees, listed, choices, &taken, labels, best)
}

// What is found of choices where a search can go on: the labels are those of the parts that the taken trees join.
fn weigh(
    alloc: Global,
    points: u8,
    trees: &[Tree],
    listed: &[Places],
    choices: &[Choice],
    taken: &[bool],
    labels: &mut [u8],
    best: &mut Best,
) -> Result<Verdict, AllocError>
    requires some { 0 < points }
    requires few { points ≤ 50 }
    requires few_trees { length trees.now ≤ 20000 }
    requires listed { IsListed points trees.now listed.now }
    requires size { length choices.now ≡ length trees.now }
    requires taken { taken.now ≡ taken_of choices.now }
    requires can_go_on { CanGoOn points trees.now choices.now }
    requires labels { length labels.old ≡ points }
    requires chosen { IsChosen points trees.now best.old.places best.old.total }
    ensures chosen { OnOk result (IsChosen points trees.now best.new.places best.new.total) }
    ensures below { OnOk result (best.new.total ≤ best.old.total) }
    ensures holds { IfOk result (VerdictHolds points trees.now choices.now best.new.total) }
{
    let total = total_of(trees, taken);
    let proposal = propose(alloc, trees, listed, choices, labels, total, best)?;
    offer(
        alloc, points, trees, listed, taken, total, &proposal, labels, best,
    )?;
    let levels = proposal.levels_for(total, best.total);
    let least = least_under(points, trees, listed, levels, choices, total);
    if least >= best.total {
        return Ok(Verdict::Done);
    }
    match open_place(choices, proposal.split()) {
        Some(place) => Ok(Verdict::Undecided { least, place }),
        None => unreachable!(),
    }
}

// Offers the taken trees with those that are proposed, where they join all terminals, unless the levels alone may
// settle it. An `Err` is want of memory.
fn offer(
    alloc: Global,
    points: u8,
    trees: &[Tree],
    listed: &[Places],
    taken: &[bool],
    total: u128,
    proposal: &Proposal,
    labels: &mut [u8],
    best: &mut Best,
) -> Result<(), AllocError>
    requires some { 0 < points }
    requires few { points ≤ 50 }
    requires few_trees { length trees.now ≤ 20000 }
    requires listed { IsListed points trees.now listed.now }
    requires size { length taken.now ≡ length trees.now }
    requires labels { length labels.old ≡ points }
    requires chosen { IsChosen points trees.now best.old.places best.old.total }
    ensures chosen { OnOk result (IsChosen points trees.now best.new.places best.new.total) }
    ensures below { OnOk result (best.new.total ≤ best.old.total) }
{
    if proposal.reaches(total, best.total) {
        return Ok(());
    }
    let mut set = Vec::from_slice(alloc, taken)?;
    proposal.add_to(&mut set);
    if first_apart(points, trees, listed, &set, labels).is_none() {
        best.offer(alloc, points, trees, &set)?;
    }
    Ok(())
}

// An open place, where there is one: the wanted one, if it is open, else the first.
fn open_place(choices: &[Choice], wanted: Option<u32>) -> Option<u32>
    requires { length choices.now ≤ 20000 }
    ensures open { IfSome result (IsOpenPlace choices.now) }
    ensures none { IfNone result ((k : ℕ) → ¬ IsOpenPlace choices.now k) }
{
    match wanted {
        Some(wanted) if is_open(choices, wanted) => Some(wanted),
        _ => first_open(choices),
    }
}

// Whether a place is open.
fn is_open(choices: &[Choice], place: u32) -> bool
    ensures { result ≡ true → IsOpenPlace choices.now place }
{
    match choices.get(place as usize) {
        Some(choice) => *choice == Choice::Open,
        None => false,
    }
}

// The first open place.
fn first_open(choices: &[Choice]) -> Option<u32>
    requires { length choices.now ≤ 20000 }
    ensures open { IfSome result (IsOpenPlace choices.now) }
    ensures none { IfNone result ((k : ℕ) → ¬ IsOpenPlace choices.now k) }
{
    for place in 0..choices.len() {
        if choices[place] == Choice::Open {
            return Some(place as u32);
        }
    }
    None
}

// The set of the trees that are taken. An `Err` is want of memory.
fn taken_of(alloc: Global, choices: &[Choice]) -> Result<Vec<bool>, AllocError>
    ensures { IfOk result (λ set. set.items ≡ taken_of choices.now) }
{
    choices
        .iter()
        .map(|choice| matches!(choice, Choice::Taken))
        .collect(alloc)
}

// The set of the trees that are not left out. An `Err` is want of memory.
fn remaining_of(alloc: Global, choices: &[Choice]) -> Result<Vec<bool>, AllocError>
    ensures { IfOk result (λ set. set.items ≡ remaining_of choices.now) }
{
    choices
        .iter()
        .map(|choice| !matches!(choice, Choice::LeftOut))
        .collect(alloc)
}
