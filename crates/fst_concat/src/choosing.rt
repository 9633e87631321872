//! Concatenations of least total.

ghost use Rattle.std.specs.Prelude.{◌≡◌, ◌<◌, ◌≤◌, ◌+◌, ◌^◌, All, length, IfOk, OnOk, IfErr};
ghost use Rattle.concatenation.specs.Concatenation.{IsConcatenation, IsLeastTotal, all_of};
ghost use Rattle.fst_concat.specs.declared.chosen.ChosenKind.TheVariants.{Least};
ghost use Rattle.fst_concat.specs.Chosen.{HasMembersBelow, IsChosen, IsUpToPairs, KindHolds, FaultHolds};

use crate::chosen::Chosen;
use crate::fault::ConcatFault;
use crate::listed::listed;
use crate::parts::first_apart;
use crate::start::first_best;
use crate::trail_search::search;
use concatenation::{more_trees, spent_trails_are_short};
use full_tree::TreeList;
use std::alloc::Global;

/// A concatenation of trees of the terminals below `points`, of a total as small as a search with so many allowed
/// splits finds. The kind says whether it is known as least: it is where the allowed splits are at least one fewer than
/// the sets of trees. `Unspanned` comes exactly where all trees together don't join the terminals, and names the least
/// terminal that they leave apart from the terminal 0; any other `Err` is want of memory.
pub fn concat(
    alloc: Global,
    points: u8,
    trees: &TreeList,
    allowed: u32,
) -> Result<Chosen, ConcatFault>
    requires some { 0 < points }
    requires few { points ≤ 50 }
    requires few_trees { length trees.now ≤ 20000 }
    requires trees { All (HasMembersBelow points) trees.now }
    ensures joins { IfOk result (λ chosen. IsChosen points trees.now chosen.places chosen.total) }
    ensures pairs { IfOk result (λ chosen. IsUpToPairs points trees.now chosen.total) }
    ensures kind { IfOk result (λ chosen. KindHolds points trees.now allowed chosen.total chosen.kind) }
    ensures many { IfOk result (λ chosen. 2 ^ length trees.now ≤ allowed + 1 → chosen.kind ≡ Least) }
    ensures spanned { OnOk result (IsConcatenation points trees.now (all_of trees.now)) }
    ensures fault { IfErr result (FaultHolds points trees.now) }
{
    more_trees();
    spent_trails_are_short();
    let trees = trees.as_slice();
    let listed = listed(alloc, points, trees)?;
    let mut labels = vec![in alloc; 0; points as usize]?;
    let all = vec![in alloc; true; trees.len()]?;
    if let Some(place) = first_apart(points, trees, &listed, &all, &mut labels) {
        return Err(ConcatFault::Unspanned { place });
    }
    let first = first_best(alloc, points, trees, &listed, &all)?;
    Ok(search(alloc, points, trees, &listed, allowed, &mut labels, first)?)
}
