//! The units in which lengths are counted: an exchange is carried out in coarse units first, so that it costs little
//! more where lengths have many digits, and in parts of their greatest common divisor where a network is short.

use net_graph::NetGraph;
use std::alloc::{AllocError, Global};

// A network is at most 2 to this many units long: what an arc costs, 16 times its overload in
// sixteenths of a unit, then stays below 2^63.
const LENGTH_BITS: u32 = 53;

// In the coarsest units a network is about 2 to this many long, which is long enough for whole weights to be found and
// short enough for few rounds; in each further ones 2 to so many times as long.
const COARSE_BITS: u32 = 17;

const STEP_BITS: u32 = 10;

const MOST_STEPS_DOWN: u32 = 4;

// A network is about 2 to this many units long or longer where parts of the greatest common divisor of the lengths, no
// less than one in so many, make it so: the finer the units are, the more packings stand in whole ones.
const ENOUGH_BITS: u32 = 18;

const MOST_PARTS: u64 = 4096;

// Coarse units are more than 2 to this many fine ones.
const LEAST_BITS: u32 = 2;

// Where a network is about 2 to this many units long, what is rounded off hides no packing.
const FINE_BITS: u32 = 37;

// Euclid's algorithm on numbers below 2^64 takes fewer steps.
const MOST_STEPS: u32 = 100;

/// How lengths are counted.
#[derive(Clone, Copy)]
pub struct Scale {
    /// The unit, at least 1.
    pub unit: u64,
    /// By how much the wanted value is below the length of the network.
    pub slack: u64,
}

impl Scale {
    /// A length in units, rounded down.
    pub fn units(self, length: u64) -> i64 {
        let units = length.checked_div(self.unit).unwrap_or(0);
        i64::try_from(units).unwrap_or(0)
    }
}

/// The finest unit for a network of some length: the greatest common divisor of all edges' lengths; where the network
/// is then short, a part of it; where it is too long, this times the least power of 2 at which it isn't. Lengths are
/// rounded down to units. At least 1.
pub fn finest_unit(graph: &NetGraph, length: u64) -> u64 {
    let mut divisor = 0u64;
    for edge in graph.edges() {
        divisor = common_divisor(divisor, edge.length);
    }
    let divisor = part_of(divisor.max(1), length);
    let bits = bits_of(length, divisor);
    divisor
        .wrapping_shl(bits.saturating_sub(LENGTH_BITS))
        .max(1)
}

// The greatest part of a divisor at which a network of some length isn't short, or else the least one.
fn part_of(divisor: u64, length: u64) -> u64 {
    let mut part = divisor;
    for parts in 2..=MOST_PARTS {
        if bits_of(length, part) >= ENOUGH_BITS {
            break;
        }
        if divisor.checked_rem(parts) == Some(0) {
            part = divisor.checked_div(parts).unwrap_or(part);
        }
    }
    part
}

/// The units in which an exchange along a network of some length is carried out before it is in the finest one: coarser
/// ones, the coarsest first. None for a short network. An `Err` is want of memory.
pub fn coarse_units(alloc: Global, length: u64, finest: u64) -> Result<Vec<u64>, AllocError> {
    let bits = bits_of(length, finest);
    let mut units = Vec::new(alloc);
    for step in 0..MOST_STEPS_DOWN {
        let coarse_bits = COARSE_BITS.wrapping_add(step.wrapping_mul(STEP_BITS));
        let shift = bits.saturating_sub(coarse_bits);
        if shift > LEAST_BITS {
            units.push(finest.wrapping_shl(shift).max(1))?;
        }
    }
    Ok(units)
}

/// Whether a network is so many units long that an exchange which shows that there is no packing needn't be made in
/// finer units: in these the prices of arcs that stay overloaded would pass all bounds.
pub fn is_fine(length: u64, unit: u64) -> bool {
    bits_of(length, unit) >= FINE_BITS
}

// How many binary digits a length has in a unit.
fn bits_of(length: u64, unit: u64) -> u32 {
    let units = length.checked_div(unit).unwrap_or(0);
    64u32.saturating_sub(units.leading_zeros())
}

// The greatest common divisor of two numbers (Euclid); that of 0 and another is the other.
fn common_divisor(a: u64, b: u64) -> u64 {
    let mut a = a;
    let mut b = b;
    for _ in 0..MOST_STEPS {
        let Some(rest) = a.checked_rem(b) else {
            break;
        };
        a = b;
        b = rest;
    }
    a
}
