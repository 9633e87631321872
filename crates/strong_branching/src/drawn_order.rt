//! The order in which an ascent takes its candidates, as a seed draws it.

ghost use Rattle.std.specs.Prelude.{◌<◌, length};

use dual_ascent::Candidate;

/// The place of the candidate that an ascent takes: equal seeds and lists give equal places. One seed in three draws
/// any of them; the others favour cuts of few vertices.
pub fn drawn_place(seed: u64, list: &[Candidate]) -> usize
    requires { 0 < length list.now }
    ensures { result < length list.now }
{
    list.iter()
        .enumerate()
        .min_by_key(|(_, candidate)| drawn_key(seed, **candidate))
        .map_or(0, |(place, _)| place)
}

/// The place of the candidate of a number, and else the first one.
pub fn place_of(number: u32, list: &[Candidate]) -> usize
    requires { 0 < length list.now }
    ensures { result < length list.now }
{
    list.iter()
        .enumerate()
        .min_by_key(|(_, candidate)| candidate.number.abs_diff(number))
        .map_or(0, |(place, _)| place)
}

// What a candidate is drawn by: the least is taken.
fn drawn_key(seed: u64, candidate: Candidate) -> u64 {
    let drawn = mixed(seed, candidate);
    if seed.is_multiple_of(3) {
        drawn
    } else {
        candidate.size.wrapping_mul((drawn & 255).wrapping_add(256))
    }
}

// A number that a seed and a candidate give (the last steps of the generator of Steele, Lea and Flood 2014).
fn mixed(seed: u64, candidate: Candidate) -> u64 {
    let word = seed
        .wrapping_add(u64::from(candidate.number))
        .wrapping_mul(0x9e37_79b9_7f4a_7c15)
        .wrapping_add(candidate.size);
    let word = (word ^ word.wrapping_shr(30)).wrapping_mul(0xbf58_476d_1ce4_e5b9);
    let word = (word ^ word.wrapping_shr(27)).wrapping_mul(0x94d0_49bb_1331_11eb);
    word ^ word.wrapping_shr(31)
}
