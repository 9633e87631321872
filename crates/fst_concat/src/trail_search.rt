//! The search, depth first: a split opens the part with its tree before the part without it.

ghost use Rattle.std.specs.Prelude.{ℕ, ◌≡◌, ◌<◌, ◌≤◌, ◌+◌, ◌^◌, min, length, IfOk, OnOk, slice_set, reverse, ◌∷◌, ◌++◌};
ghost use Rattle.std.specs.Prelude.{[]};
ghost use Rattle.fst_concat.specs.Chosen.{IsChosen, KindHolds};
ghost use Rattle.fst_concat.specs.Listed.{IsListed};
ghost use Rattle.fst_concat.specs.UnderWay.{IsUnderWay, steps_left};

use crate::best::Best;
use crate::chosen::{Chosen, ChosenKind};
use crate::judge::{Verdict, judge};
use crate::trail::{Step, Trail};
use concatenation::{Choice, closed_trail_is_least};
use full_tree::{Places, Tree};
use lists::ItemList;
use std::alloc::{AllocError, Global};

/// Where a search stands: its steps so far, the choices still to be judged, the last of them next, how many splits it
/// used, and the least total that an end was left open with.
#[derive(Drop)]
pub(crate) struct Way {
    pub steps: Vec<Step>,
    pub pending: Vec<ItemList<Choice>>,
    pub used: u32,
    pub low: u128,
}

/// The best concatenation that a search with so many allowed splits finds, beginning with a first one. An `Err` is
/// want of memory.
pub fn search(
    alloc: Global,
    points: u8,
    trees: &[Tree],
    listed: &[Places],
    allowed: u32,
    labels: &mut [u8],
    first: Best,
) -> Result<Chosen, AllocError>
    requires some { 0 < points }
    requires few { points ≤ 50 }
    requires few_trees { length trees.now ≤ 20000 }
    requires listed { IsListed points trees.now listed.now }
    requires labels { length labels.old ≡ points }
    requires chosen { IsChosen points trees.now first.places first.total }
    ensures chosen { IfOk result (λ chosen. IsChosen points trees.now chosen.places chosen.total) }
    ensures below { IfOk result (λ chosen. chosen.total ≤ first.total) }
    ensures kind { IfOk result (λ chosen. KindHolds points trees.now allowed chosen.total chosen.kind) }
{
    let mut best = first;
    let mut way = Way::begin(alloc, trees)?;
    while let Some(choices) = way.pending.pop() {
        step(
            alloc, points, trees, listed, allowed, labels, &mut way, &mut best, choices,
        )?;
    }
    Ok(finish(points, trees, allowed, way, best))
}

impl Way {
    // The way of a search that begins. An `Err` is want of memory.
    fn begin(alloc: Global, trees: &[Tree]) -> Result<Way, AllocError>
        ensures under_way { IfOk result (λ way. (n allowed total : ℕ)
            → IsUnderWay n trees.now allowed total way (reverse way.pending.items)) }
    {
        let mut pending = Vec::new(alloc);
        let choices = vec![in alloc; Choice::Open; trees.len()]?;
        pending.push(ItemList::from_vec(choices))?;
        Ok(Way {
            steps: Vec::new(alloc),
            pending,
            used: 0,
            low: u128::MAX,
        })
    }

    // Leaves an end, open with at least this total. An `Err` is want of memory.
    fn leave(&mut self, least: u128) -> Result<(), AllocError>
        ensures steps { OnOk result (self.new.steps.items ≡ self.old.steps.items ++ Step.Close ∷ []) }
        ensures pending { OnOk result (self.new.pending.items ≡ self.old.pending.items) }
        ensures used { OnOk result (self.new.used ≡ self.old.used) }
        ensures low { OnOk result (self.new.low ≡ min self.old.low least) }
        ensures small { self.old.low < 2 ^ 128 }
    {
        self.low = self.low.min(least);
        self.steps.push(Step::Close)?;
        Ok(())
    }

    // Splits choices on an open place. An `Err` is want of memory.
    fn fork(
        &mut self,
        alloc: Global,
        choices: ItemList<Choice>,
        place: u32,
    ) -> Result<(), AllocError>
        requires place { place < length choices }
        requires room { self.old.used < 4294967295 }
        ensures steps { OnOk result (self.new.steps.items ≡ self.old.steps.items ++ Step.Fork place ∷ []) }
        ensures pending { OnOk result (self.new.pending.items
            ≡ self.old.pending.items ++ slice_set choices place Choice.LeftOut
            ∷ slice_set choices place Choice.Taken ∷ []) }
        ensures used { OnOk result (self.new.used ≡ self.old.used + 1) }
        ensures low { OnOk result (self.new.low ≡ self.old.low) }
    {
        let without = decided(alloc, choices.as_slice(), place as usize, Choice::LeftOut)?;
        let with_it = decided(alloc, choices.as_slice(), place as usize, Choice::Taken)?;
        self.pending.push(without)?;
        self.pending.push(with_it)?;
        self.steps.push(Step::Fork(place))?;
        self.used += 1;
        Ok(())
    }
}

// Judges choices and takes the step that follows. An `Err` is want of memory.
fn step(
    alloc: Global,
    points: u8,
    trees: &[Tree],
    listed: &[Places],
    allowed: u32,
    labels: &mut [u8],
    way: &mut Way,
    best: &mut Best,
    choices: ItemList<Choice>,
) -> Result<(), AllocError>
    requires some { 0 < points }
    requires few { points ≤ 50 }
    requires few_trees { length trees.now ≤ 20000 }
    requires listed { IsListed points trees.now listed.now }
    requires labels { length labels.old ≡ points }
    requires chosen { IsChosen points trees.now best.old.places best.old.total }
    requires under_way { IsUnderWay points trees.now allowed best.old.total way.old
        (choices ∷ reverse way.old.pending.items) }
    ensures chosen { OnOk result (IsChosen points trees.now best.new.places best.new.total) }
    ensures below { OnOk result (best.new.total ≤ best.old.total) }
    ensures under_way { OnOk result
        (IsUnderWay points trees.now allowed best.new.total way.new (reverse way.new.pending.items)) }
    ensures nearer { OnOk result (steps_left allowed way.new ≤ steps_left allowed way.old) }
{
    match judge(
        alloc,
        points,
        trees,
        listed,
        choices.as_slice(),
        labels,
        best,
    )? {
        Verdict::Undecided { place, .. } if way.used < allowed => way.fork(alloc, choices, place),
        Verdict::Undecided { least, .. } => way.leave(least),
        Verdict::Done => way.leave(u128::MAX),
    }
}

// Choices with one more decided. An `Err` is want of memory.
fn decided(
    alloc: Global,
    choices: &[Choice],
    place: usize,
    choice: Choice,
) -> Result<ItemList<Choice>, AllocError>
    requires { place < length choices.now }
    ensures { IfOk result (λ list. list ≡ slice_set choices.now place choice) }
{
    let mut list = Vec::from_slice(alloc, choices)?;
    list[place] = choice;
    Ok(ItemList::from_vec(list))
}

// What a search that is over found.
fn finish(points: u8, trees: &[Tree], allowed: u32, way: Way, best: Best) -> Chosen
    requires chosen { IsChosen points trees.now best.places best.total }
    requires under_way { IsUnderWay points trees.now allowed best.total way [] }
    ensures chosen { IsChosen points trees.now result.places result.total }
    ensures total { result.total ≡ best.total }
    ensures kind { KindHolds points trees.now allowed result.total result.kind }
{
    closed_trail_is_least();
    let kind = if way.low < best.total {
        ChosenKind::Spent(Trail::of_steps(way.steps, way.used))
    } else {
        ChosenKind::Least
    };
    Chosen {
        kind,
        places: best.places,
        total: best.total,
    }
}
