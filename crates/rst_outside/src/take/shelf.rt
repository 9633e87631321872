//! A whole file of a shelf.

ghost use Rattle.std.specs.Prelude.{◌≡◌, ◌≢◌, ◌<◌, ◌≤◌, length, vec_len, true, false, IfOk, OnOk, IsErrOf};
ghost use Rattle.rst_outside.specs.Counts.{Rose};
ghost use Rattle.rst_outside.specs.Shelf.{OfFile, Begins};

use super::{BLOCK, TakeFault};
use crate::shelf::Shelf;
use std::alloc::Global;

/// Reads the file `name` to its end, and gives all its bytes, `limit` at most. Where no file has the name the
/// first read fails.
pub fn take_named<S: Shelf>(
    alloc: Global,
    shelf: &mut S,
    name: &str,
    limit: u64,
) -> Result<Vec<u8>, TakeFault>
    ensures all { IfOk result
        (λ bytes. OfFile (S.state shelf.old).files name.now (λ file. bytes.items ≡ file)) }
    ensures within { IfOk result (λ bytes. vec_len bytes ≤ limit) }
    ensures failed { IsErrOf result TakeFault.Failed →
        Rose (S.state shelf.old).faults (S.state shelf.new).faults }
    ensures too_long { IsErrOf result TakeFault.TooLong →
        OfFile (S.state shelf.old).files name.now (λ file. limit < length file) }
    ensures files { (S.state shelf.new).files ≡ (S.state shelf.old).files }
    ensures count { (S.state shelf.old).faults ≤ (S.state shelf.new).faults }
{
    let mut bytes = Vec::new(alloc);
    while take_some(shelf, name, &mut bytes)? {
        if bytes.len() as u64 > limit {
            return Err(TakeFault::TooLong);
        }
    }
    Ok(bytes)
}

/// Reads once from where the bytes end in the file, puts what came behind them, and tells whether any came.
/// None comes only at the file's end.
fn take_some<S: Shelf>(shelf: &mut S, name: &str, bytes: &mut Vec<u8>) -> Result<bool, TakeFault>
    ensures came { OnOk result (OfFile (S.state shelf.old).files name.now
        (λ file. Begins bytes.old.items file → Begins bytes.new.items file)) }
    ensures more { result ≡ Ok true → vec_len bytes.old < vec_len bytes.new }
    ensures end { result ≡ Ok false → (bytes.new.items ≡ bytes.old.items)
        × OfFile (S.state shelf.old).files name.now (λ file. length file ≤ vec_len bytes.old) }
    ensures failed { IsErrOf result TakeFault.Failed →
        Rose (S.state shelf.old).faults (S.state shelf.new).faults }
    ensures not_too_long { result ≢ Err TakeFault.TooLong }
    ensures files { (S.state shelf.new).files ≡ (S.state shelf.old).files }
    ensures count { (S.state shelf.old).faults ≤ (S.state shelf.new).faults }
{
    let mut block = [0u8; BLOCK];
    let n = shelf
        .read_at(name, bytes.len() as u64, &mut block)
        .map_err(|_| TakeFault::Failed)?;
    bytes
        .extend_from_slice(&block[..n])
        .map_err(TakeFault::Memory)?;
    Ok(n > 0)
}
