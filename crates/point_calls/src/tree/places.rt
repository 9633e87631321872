//! Places of a list.

ghost use Rattle.std.specs.Prelude.{◌<◌, All, IfOk, IsTrue};

use row_tables::{Call, Fault};
use std::alloc::Global;

/// The numbers under a key, each below a count.
pub fn places(alloc: Global, call: &Call, key: &str, count: usize) -> Result<Vec<u32>, Fault>
    ensures { IfOk result (λ places. All (λ place. place < count) places.items) }
{
    let places = call.narrow_numbers(alloc, key)?;
    if !are_below(&places, count) {
        return Err(Fault::NotAllowed);
    }
    Ok(places)
}

// Whether each number is below a count.
fn are_below(numbers: &[u32], count: usize) -> bool
    ensures { IsTrue result → All (λ number. number < count) numbers.now }
{
    numbers.iter().all(|number| (*number as usize) < count)
}
