//! The parts that trees join terminals to, as labels: terminals of one label are one part.

ghost use Rattle.std.specs.Prelude.{ℕ, ◌≡◌, ◌<◌, ◌≤◌, Bool, All, length, map, slice_index, IfSome, IfNone, MatchOption};
ghost use Rattle.concatenation.specs.Concatenation.{IsConcatenation};
ghost use Rattle.fst_concat.specs.Chosen.{IsFirstApart};
ghost use Rattle.fst_concat.specs.Listed.{IsListed};
ghost use Rattle.fst_concat.specs.Parts.{ArePartsUpTo, merged, joined_with, joined};

use full_tree::{Places, Tree};

/// The least terminal that no chain of the set's trees joins to the terminal 0, where there is one: then the labels
/// are left as those of the parts. The set is a concatenation exactly where there is none.
pub fn first_apart(
    points: u8,
    trees: &[Tree],
    listed: &[Places],
    set: &[bool],
    labels: &mut [u8],
) -> Option<u8>
    requires some { 0 < points }
    requires few { points ≤ 50 }
    requires listed { IsListed points trees.now listed.now }
    requires size { length set.now ≡ length trees.now }
    requires labels { length labels.old ≡ points }
    ensures { MatchOption result (IsConcatenation points trees.now set.now)
        (IsFirstApart points trees.now set.now) }
{
    join_parts(points, trees, listed, set, labels);
    first_other(labels)
}

// Labels the terminals by the parts that the set's trees join them to.
fn join_parts(points: u8, trees: &[Tree], listed: &[Places], set: &[bool], labels: &mut [u8])
    requires few { points ≤ 50 }
    requires listed { IsListed points trees.now listed.now }
    requires size { length set.now ≡ length trees.now }
    requires labels { length labels.old ≡ points }
    ensures { ArePartsUpTo points trees.now set.now (length trees.now) labels.new }
{
    tell_apart(labels);
    for place in 0..trees.len() {
        if set[place] {
            join_members(listed[place].as_slice(), labels);
        }
    }
}

// Labels each terminal by itself.
fn tell_apart(labels: &mut [u8])
    requires few { length labels.old ≤ 50 }
    ensures { (i : ℕ) → i < length labels.old → slice_index labels.new i ≡ i }
{
    for i in 0..labels.len() {
        labels[i] = i as u8;
    }
}

// Joins the parts of all members.
fn join_members(members: &[u8], labels: &mut [u8])
    requires below { All (λ i. i < length labels.old) members.now }
    ensures { labels.new ≡ joined members.now labels.old }
{
    if let [first, rest @ ..] = members {
        join_rest(*first, rest, labels);
    }
}

// Joins the parts of members to that of the first one.
fn join_rest(first: u8, rest: &[u8], labels: &mut [u8])
    requires first { first < length labels.old }
    requires below { All (λ i. i < length labels.old) rest.now }
    ensures { labels.new ≡ joined_with first rest.now labels.old }
{
    for member in rest {
        let from = labels[*member as usize];
        let to = labels[first as usize];
        merge(from, to, labels);
    }
}

// Gives the terminals of one label the other.
fn merge(from: u8, to: u8, labels: &mut [u8])
    ensures { labels.new ≡ merged from to labels.old }
{
    if from == to {
        return;
    }
    for label in labels.iter_mut() {
        if *label == from {
            *label = to;
        }
    }
}

// The first place whose label isn't that of the place 0.
fn first_other(labels: &[u8]) -> Option<u8>
    requires some { 0 < length labels.now }
    requires few { length labels.now ≤ 50 }
    ensures none { IfNone result
        ((i : ℕ) → i < length labels.now → slice_index labels.now i ≡ slice_index labels.now 0) }
    ensures within { IfSome result (λ place. place < length labels.now) }
    ensures other { IfSome result (λ place. slice_index labels.now place ≡ slice_index labels.now 0 → ⊥) }
    ensures before { IfSome result (λ place. (i : ℕ) → i < place
        → slice_index labels.now i ≡ slice_index labels.now 0) }
{
    for place in 0..labels.len() {
        if labels[place] != labels[0] {
            return Some(place as u8);
        }
    }
    None
}
