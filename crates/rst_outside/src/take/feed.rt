//! A whole source, fed to a consumer piece by piece.

ghost use Rattle.std.specs.Prelude.{◌≡◌, ℕ, ◌<◌, ◌≤◌, List, [], length, IfOk, OnOk, OnErr};
ghost use Rattle.rst_outside.specs.Counts.{Rose};
ghost use Rattle.rst_outside.specs.Source.{Came, IsAtEnd, CameToTheEnd};
ghost use Rattle.rst_outside.specs.Fed.{Fed};

use crate::consumer::Consumer;
use crate::source::Source;

/// Why a source was not fed whole.
#[derive(Clone, Copy, Debug)]
pub enum FeedFault {
    /// A read failed.
    Failed,
    /// More bytes came than were allowed.
    TooLong,
}

/// Reads to the end by way of the buffer, and feeds the consumer each piece as it comes, `limit` bytes at most
/// in all. Where more come it stops behind the piece with which they did, and it takes no memory.
pub fn feed_all<S: Source, C: Consumer>(
    source: &mut S,
    buffer: &mut [u8],
    consumer: &mut C,
    limit: u64,
) -> Result<(), FeedFault>
    requires { 0 < length buffer.old }
    ensures all { OnOk result ((bytes : List ℕ) × (length bytes ≤ limit)
        × CameToTheEnd (S.state source.old).rest bytes (S.state source.new).rest
        × Fed C.stands consumer.old bytes consumer.new) }
    ensures failed { result ≡ Err FeedFault.Failed →
        Rose (S.state source.old).faults (S.state source.new).faults }
    ensures too_long { result ≡ Err FeedFault.TooLong → (bytes : List ℕ) × (limit < length bytes)
        × Came (S.state source.old).rest bytes (S.state source.new).rest
        × Fed C.stands consumer.old bytes consumer.new }

    // After a refusal some first bytes of the rest are gone, and they are what was fed.
    ensures refused { OnErr result ((bytes : List ℕ)
        × Came (S.state source.old).rest bytes (S.state source.new).rest
        × Fed C.stands consumer.old bytes consumer.new) }
    ensures count { (S.state source.old).faults ≤ (S.state source.new).faults }
{
    let mut left = limit;
    'pieces: loop {
        let n = feed_some(source, buffer, consumer)?;
        if n == 0 {
            return Ok(());
        }
        if n as u64 > left {
            return Err(FeedFault::TooLong);
        }
        left -= n as u64;
    }
}

/// Reads once, feeds the consumer what came, and tells how many bytes that were. None come only at the end.
fn feed_some<S: Source, C: Consumer>(
    source: &mut S,
    buffer: &mut [u8],
    consumer: &mut C,
) -> Result<usize, FeedFault>
    requires { 0 < length buffer.old }
    ensures fed { IfOk result (λ n. (bytes : List ℕ) × (length bytes ≡ n)
        × Came (S.state source.old).rest bytes (S.state source.new).rest
        × Fed C.stands consumer.old bytes consumer.new) }
    ensures end { result ≡ Ok 0 → IsAtEnd (S.state source.new).rest }
    ensures failed { OnErr result ((result ≡ Err FeedFault.Failed)
        × Rose (S.state source.old).faults (S.state source.new).faults) }
    ensures kept { OnErr result
        (((S.state source.new).rest ≡ (S.state source.old).rest) × (consumer.new ≡ consumer.old)) }
    ensures count { (S.state source.old).faults ≤ (S.state source.new).faults }
{
    let n = source.read(buffer).map_err(|_| FeedFault::Failed)?;
    consumer.feed(&buffer[..n]);
    Ok(n)
}
