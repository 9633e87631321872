//! Ordered sets of numbers.

ghost use Rattle.std.specs.Prelude.{◌≡◌, ◌≢◌, ℕ, ◌<◌, ◌≤◌, ◌⊎◌, MatchOption, OnOk};
ghost use Rattle.std.specs.BTreeSet.{btree_set_len};
ghost use Rattle.graph_reduce.specs.NumberSets.{IsIn, IsNextIn};

use std::alloc::AllocError;
use std::collections::BTreeSet;

/// The lowest number of the set from `from` on.
pub(crate) fn next_from(set: &BTreeSet<u32>, from: u32) -> Option<u32>
    ensures { MatchOption result ((n : ℕ) → from ≤ n → ¬ IsIn set.now n) (IsNextIn set.now from) }
{
    set.range(from..).next().copied()
}

/// Puts the number into the set. An `Err` is want of memory.
pub(crate) fn put(set: &mut BTreeSet<u32>, n: u32) -> Result<(), AllocError>
    ensures member { OnOk result (IsIn set.new n) }
    ensures kept { (k : ℕ) → IsIn set.old k → IsIn set.new k }
{
    set.insert(n)?;
    Ok(())
}

/// Takes a number of the set out.
pub(crate) fn remove(set: &mut BTreeSet<u32>, n: u32)
    requires { IsIn set.old n }
    ensures kept { (k : ℕ) → k ≢ n → IsIn set.old k → IsIn set.new k }
    ensures fewer { btree_set_len set.new < btree_set_len set.old }
{
    set.remove(&n);
}
