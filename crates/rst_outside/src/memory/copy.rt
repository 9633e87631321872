//! What a read in memory copies.

ghost use Rattle.std.specs.Prelude.{◌≡◌, length, take, min};

/// Copies the first bytes of `from` to the front of `into`, as many as fit, and tells how many.
pub(super) fn copy_front(from: &[u8], into: &mut [u8]) -> usize
    ensures fits { result ≡ min (length into.new) (length from.now) }
    ensures copied { take result into.new ≡ take result from.now }
{
    let n = into.len().min(from.len());
    into[..n].copy_from_slice(&from[..n]);
    n
}
