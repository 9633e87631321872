//! What a rule chooses of a list of candidates.

ghost use Rattle.std.specs.Prelude.{◌<◌, length};

use crate::rules::{AscentRule, SplitRule};
use dual_ascent::Candidate;

/// The place of the candidate that an ascent takes.
pub fn ascent_place(rule: AscentRule, list: &[Candidate]) -> usize
    requires { 0 < length list.now }
    ensures { result < length list.now }
{
    list.iter()
        .enumerate()
        .min_by_key(|(_, candidate)| match rule {
            AscentRule::Least => (candidate.size, candidate.number),
            AscentRule::First => (0, candidate.number),
        })
        .map_or(0, |(place, _)| place)
}

/// The place of the candidate that a leaf is split on: the edge or the vertex of its number.
pub fn split_place(rule: SplitRule, list: &[Candidate]) -> usize
    requires { 0 < length list.now }
    ensures { result < length list.now }
{
    list.iter()
        .enumerate()
        .min_by_key(|(_, candidate)| match rule {
            SplitRule::Longest | SplitRule::Vertex => (u64::MAX - candidate.size, candidate.number),
            SplitRule::First => (0, candidate.number),
        })
        .map_or(0, |(place, _)| place)
}
