//! What is told of pairs of numbers.

ghost use Rattle.std.specs.Prelude.{◌↔◌, ◌<◌, IsTrue, All};
ghost use Rattle.spanning.specs.Leaving.{HasNumbersBelow};

use row_tables::{Call, Fault, Told, exactly};
use spanning::{Joined, Pair, least_joining};
use std::alloc::Global;

/// Which pairs under `pairs` join the numbers below the one under `below` at the least total, and that total.
pub fn joining(alloc: Global, call: &Call, told: &mut Told) -> Result<(), Fault> {
    join(alloc, call.byte("below")?, &pairs(alloc, call)?, told)
}

// Which pairs join the numbers below `n`.
fn join(alloc: Global, n: u8, pairs: &[Pair], told: &mut Told) -> Result<(), Fault> {
    if n == 0 || n > 50 || pairs.len() > 20_000 || !are_below(n, pairs) {
        return Err(Fault::NotAllowed);
    }
    match least_joining(alloc, n, pairs)? {
        None => told.word("none\n"),
        Some(joined) => tell(&joined, told),
    }
    Ok(())
}

// The places of the pairs, and their total.
fn tell(joined: &Joined, told: &mut Told) {
    for place in joined.places.as_slice() {
        told.line("pair ", place);
    }
    told.line("total ", &joined.total);
}

// The pairs under `pairs`: two numbers and a length a line.
fn pairs(alloc: Global, call: &Call) -> Result<Vec<Pair>, Fault> {
    let lines = call.text("pairs")?;
    let mut pairs = Vec::new(alloc);
    for line in lines.lines() {
        pairs.push(pair(line)?)?;
    }
    Ok(pairs)
}

// The pair of a line.
fn pair(line: &str) -> Result<Pair, Fault> {
    let [a, b, length] = exactly::<3>(line)?;
    if a > 255 || b > 255 {
        return Err(Fault::BadNumber);
    }
    Ok(Pair {
        a: a as u8,
        b: b as u8,
        length,
    })
}

// Whether each pair is of two numbers below `n`.
fn are_below(n: u8, pairs: &[Pair]) -> bool
    ensures { IsTrue result ↔ All (HasNumbersBelow n) pairs.now }
{
    pairs.iter().all(|pair| pair.a < n && pair.b < n)
}
