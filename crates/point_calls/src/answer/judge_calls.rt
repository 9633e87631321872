//! Answers that are judged.

use cert_check::{Checker, Finished, Workroom};
use graph_calls::told::tell_edges;
use hanan_grid::Grid;
use row_tables::{Call, Fault, Told, count};
use std::alloc::{AllocError, Global};

/// How many bytes are fed at once behind an answer.
const BLOCK: usize = 1 << 16;

/// The verdict on the answer under `bytes` for the points of a grid, and the edges that were read before it: once for
/// each number under `steps`, which says of how many bytes the pieces are that are fed. Under `blocks` may stand how
/// many blocks of 65536 bytes come behind the answer.
pub fn judge(alloc: Global, call: &Call, grid: &Grid, told: &mut Told) -> Result<(), Fault> {
    let blocks = if call.has("blocks") {
        call.number("blocks")?
    } else {
        0
    };
    let fed = Fed {
        bytes: call.bytes("bytes")?,
        blocks,
    };
    judge_by(alloc, grid, &fed, call.text("steps")?, told)
}

// What is fed: the bytes of an answer, and how many blocks behind them.
#[derive(Clone, Copy)]
struct Fed<'a> {
    bytes: &'a [u8],
    blocks: u64,
}

// The verdicts on what is fed by steps of these sizes.
fn judge_by(
    alloc: Global,
    grid: &Grid,
    fed: &Fed<'_>,
    steps: &str,
    told: &mut Told,
) -> Result<(), Fault> {
    for step in steps.split_whitespace() {
        tell(&finished(alloc, grid, fed, count(step)?)?, told);
    }
    Ok(())
}

// Tells the verdict, and the edges that were read before it.
fn tell(finished: &Finished, told: &mut Told) {
    told.debug_line("", &finished.verdict);
    tell_edges(told, "edges", &finished.network);
}

// What is found of what is fed, the answer in pieces of this size.
fn finished(
    alloc: Global,
    grid: &Grid,
    fed: &Fed<'_>,
    step: usize,
) -> Result<Finished, AllocError> {
    let block = vec![in alloc; b'0'; BLOCK]?;
    let Workroom {
        network,
        members,
        work,
    } = Workroom::new(alloc, grid)?;
    let checker = Checker::begin(grid, network, members, work);
    Ok(checked(checker, fed, step, &block))
}

// The same by a checker that was fed nothing, where the block stands.
fn checked(mut checker: Checker<'_>, fed: &Fed<'_>, step: usize, block: &[u8]) -> Finished {
    feed_pieces(&mut checker, fed.bytes, step);
    for _ in 0..fed.blocks {
        checker.feed(block);
    }
    checker.finish()
}

// Feeds bytes in pieces, with an empty one behind each.
fn feed_pieces(checker: &mut Checker<'_>, bytes: &[u8], step: usize) {
    for piece in bytes.chunks(step.max(1)) {
        checker.feed(piece);
        checker.feed(b"");
    }
}
