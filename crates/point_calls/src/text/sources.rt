//! Sources that are taken and fed.

use crate::text::given::source as given_source;
use row_tables::{Call, Fault, Told, shown};
use rst_outside::{
    Consumer, MemSink, MemSource, Source, SureSink, SureSource, TakeFault, feed_all, put_all,
    take_all,
};
use std::alloc::Global;

/// A consumer that keeps the bytes in a sink, and tells contracts nothing of them.
#[derive(Drop)]
struct Gathering(MemSink);

impl Consumer for Gathering {
    ghost stands = { λ _ _. Unit {0} };

    fn feed(&mut self, piece: &[u8]) {
        let _ = put_all(&mut self.0, piece);
    }
}

/// What is taken of a source with at most `limit` bytes, then what is taken of its rest, and what the same source feeds
/// from its start, two bytes at a time.
pub(crate) fn source(alloc: Global, call: &Call, told: &mut Told) -> Result<(), Fault> {
    let limit = call.number("limit")?;
    tell_takes(alloc, &mut given_source(alloc, call)?, limit, told)?;
    tell_feeds(alloc, &mut given_source(alloc, call)?, limit, told)
}

// Tells what is taken of a source, and then of its rest.
fn tell_takes(
    alloc: Global,
    source: &mut MemSource,
    limit: u64,
    told: &mut Told,
) -> Result<(), Fault> {
    tell_taken(take_all(alloc, source, limit), told)?;
    tell_taken(take_all(alloc, source, limit), told)
}

// Tells what a source feeds.
fn tell_feeds(
    alloc: Global,
    source: &mut MemSource,
    limit: u64,
    told: &mut Told,
) -> Result<(), Fault> {
    let mut consumer = Gathering(MemSink::with_room(alloc, 64, 64, Vec::new(alloc))?);
    let fed = feed_all(source, &mut [0u8; 2], &mut consumer, limit);
    told.word("fed ");
    told.debug(&shown(consumer.0.bytes())?);
    told.debug_line(" ", &fed);
    Ok(())
}

/// What a source that never fails gives to four bytes and then, and what a sink says that never fails.
pub(crate) fn sure(alloc: Global, call: &Call, told: &mut Told) -> Result<(), Fault> {
    let bytes = call.bytes("bytes")?;
    let mut source = SureSource::new(Vec::from_slice(alloc, bytes)?);
    tell_sure(alloc, &mut source, told)?;
    told.debug_line("put ", &put_all(&mut SureSink::new(), bytes));
    Ok(())
}

// Tells what a source that never fails gives to four bytes and then.
fn tell_sure(alloc: Global, source: &mut SureSource, told: &mut Told) -> Result<(), Fault> {
    let mut block = [0u8; 4];
    if let Ok(n) = source.read(&mut block) {
        told.debug_line("read ", &shown(&block[..n])?);
    }
    tell_taken(take_all(alloc, source, 64), told)
}

// Tells the bytes that were taken, or why none were.
fn tell_taken(taken: Result<Vec<u8>, TakeFault>, told: &mut Told) -> Result<(), Fault> {
    match taken {
        Ok(bytes) => told.debug_line("taken ", &shown(&bytes)?),
        Err(TakeFault::Memory(_)) => return Err(Fault::Memory),
        Err(fault) => told.debug_line("", &fault),
    }
    Ok(())
}
