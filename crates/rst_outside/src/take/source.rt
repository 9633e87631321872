//! A whole source, read to its end.

ghost use Rattle.std.specs.Prelude.{◌≡◌, ◌≢◌, ℕ, ◌++◌, ◌<◌, ◌≤◌, List, length, vec_len, true, false, IfOk, OnOk, OnErr, IsErrOf};
ghost use Rattle.rst_outside.specs.Counts.{Rose};
ghost use Rattle.rst_outside.specs.Source.{Came, IsAtEnd, CameToTheEnd};

use super::{BLOCK, TakeFault};
use crate::source::Source;
use std::alloc::Global;

/// Reads to the end, and gives all the bytes that came, `limit` at most.
pub fn take_all<S: Source>(alloc: Global, source: &mut S, limit: u64) -> Result<Vec<u8>, TakeFault>
    ensures all { IfOk result
        (λ bytes. CameToTheEnd (S.state source.old).rest bytes.items (S.state source.new).rest) }
    ensures within { IfOk result (λ bytes. vec_len bytes ≤ limit) }
    ensures failed { IsErrOf result TakeFault.Failed →
        Rose (S.state source.old).faults (S.state source.new).faults }
    ensures too_long { IsErrOf result TakeFault.TooLong → (bytes : List ℕ) × (limit < length bytes)
        × Came (S.state source.old).rest bytes (S.state source.new).rest }

    // After a refusal some first bytes of the rest are gone, and the rest is what follows them.
    ensures refused { OnErr result ((bytes : List ℕ)
        × Came (S.state source.old).rest bytes (S.state source.new).rest) }
    ensures count { (S.state source.old).faults ≤ (S.state source.new).faults }
{
    let mut bytes = Vec::new(alloc);
    while take_some(source, &mut bytes)? {
        if bytes.len() as u64 > limit {
            return Err(TakeFault::TooLong);
        }
    }
    Ok(bytes)
}

/// Reads once, puts what came behind the bytes, and tells whether any came. None comes only at the end.
fn take_some<S: Source>(source: &mut S, bytes: &mut Vec<u8>) -> Result<bool, TakeFault>
    ensures came { OnOk result ((some : List ℕ) × (bytes.new.items ≡ bytes.old.items ++ some)
        × Came (S.state source.old).rest some (S.state source.new).rest) }
    ensures more { result ≡ Ok true → vec_len bytes.old < vec_len bytes.new }
    ensures end { result ≡ Ok false →
        (bytes.new.items ≡ bytes.old.items) × IsAtEnd (S.state source.new).rest }
    ensures failed { IsErrOf result TakeFault.Failed →
        Rose (S.state source.old).faults (S.state source.new).faults }
    ensures not_too_long { result ≢ Err TakeFault.TooLong }
    ensures refused { OnErr result ((some : List ℕ)
        × Came (S.state source.old).rest some (S.state source.new).rest) }
    ensures count { (S.state source.old).faults ≤ (S.state source.new).faults }
{
    let mut block = [0u8; BLOCK];
    let n = source.read(&mut block).map_err(|_| TakeFault::Failed)?;
    bytes
        .extend_from_slice(&block[..n])
        .map_err(TakeFault::Memory)?;
    Ok(n > 0)
}
