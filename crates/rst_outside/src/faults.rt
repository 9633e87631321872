//! The count of faults that every source, sink and shelf keeps.

ghost use Rattle.std.specs.Prelude.{◌≡◌, ◌≤◌};
ghost use Rattle.rst_outside.specs.Counts.{Rose, next_count};

use crate::source::Failed;

/// Counts one more fault, up to 2^64-1, and gives the error to return.
pub(crate) fn count_fault(faults: &mut u64) -> Failed
    ensures next { faults.new ≡ next_count faults.old }
    ensures kept { faults.old ≤ faults.new }
    ensures rose { Rose faults.old faults.new }
{
    *faults = faults.saturating_add(1);
    Failed
}
