//! Partitions with amounts, as they are proposed and as the bound weighs them.

ghost use Rattle.std.specs.Prelude.{ℕ, ◌≡◌, ◌+◌, ◌*◌, ◌-◌, ◌<◌, ◌≤◌, All, length, map, slice_index, IsTrue};
ghost use Rattle.full_tree.specs.Code.{ascending_places, members_of};
ghost use Rattle.concatenation.specs.Partitions.{load_of, bound_of, touched_count};
ghost use Rattle.fst_concat.specs.Levels.{layers_of, any_label};

use full_tree::Tree;

/// How many levels are weighed at most.
pub const MAX_LEVELS: usize = 64;

/// A partition of at most 50 terminals, by a label for each, with its amount.
#[derive(Clone, Copy)]
pub struct Level {
    pub labels: [u8; 50],
    pub amount: u64,
}

/// Whether each level has as many labels.
pub fn are_sized(points: u8, levels: &[Level]) -> bool
    requires few { points ≤ 50 }
    ensures { IsTrue result → All (λ layer. length layer.labels ≡ points) (layers_of points levels.now) }
{
    for level in levels {
        if level.labels[..points as usize].len() != points as usize {
            return false;
        }
    }
    true
}

/// What a tree of these members takes of all amounts.
pub fn load(points: u8, levels: &[Level], tree: &Tree, members: &[u8]) -> u128
    requires few { points ≤ 50 }
    requires few_levels { length levels.now ≤ 64 }
    requires few_members { length members.now ≤ 8 }
    requires below { All (λ i. i < points) members.now }
    requires members { members.now ≡ members_of tree.now.code }
    ensures { result ≡ load_of (layers_of points levels.now) tree.now }
{
    let mut load = 0;
    for level in levels {
        let touched = touched(&level.labels[..points as usize], members);
        load += u128::from(level.amount) * (touched.saturating_sub(1) as u128);
    }
    load
}

/// Whether a tree of these members lies in one part of each partition.
pub fn lies_inside(points: u8, levels: &[Level], tree: &Tree, members: &[u8]) -> bool
    requires few { points ≤ 50 }
    requires below { All (λ i. i < points) members.now }
    requires members { members.now ≡ members_of tree.now.code }
    ensures { IsTrue result → All (λ layer. touched_count layer.labels tree.now ≤ 1) (layers_of points levels.now) }
{
    for level in levels {
        if touched(&level.labels[..points as usize], members) > 1 {
            return false;
        }
    }
    true
}

/// What the partitions bound.
pub fn bound(points: u8, levels: &[Level]) -> u128
    requires few { points ≤ 50 }
    requires few_levels { length levels.now ≤ 64 }
    ensures value { result ≡ bound_of (layers_of points levels.now) }
    ensures small { result ≤ 64 * (18446744073709551615 * 50) }
{
    let mut bound = 0;
    for level in levels {
        let parts = part_count(&level.labels[..points as usize]);
        bound += u128::from(level.amount) * (parts.saturating_sub(1) as u128);
    }
    bound
}

// How many parts the members touch.
fn touched(labels: &[u8], members: &[u8]) -> usize
    requires below { All (λ i. i < length labels.now) members.now }
    ensures value { result ≡ length (ascending_places (map (slice_index labels.now) members.now)) }
    ensures few { result ≤ length members.now }
{
    let mut count = 0;
    for place in (0..members.len()).rev() {
        let label = labels[members[place] as usize];
        if !is_touched(labels, &members[place + 1..], label) {
            count += 1;
        }
    }
    count
}

// Whether one of the members has the label.
fn is_touched(labels: &[u8], members: &[u8], label: u8) -> bool
    requires below { All (λ i. i < length labels.now) members.now }
    ensures { result ≡ any_label label (map (slice_index labels.now) members.now) }
{
    for member in members {
        if labels[*member as usize] == label {
            return true;
        }
    }
    false
}

// How many labels there are.
fn part_count(labels: &[u8]) -> usize
    ensures value { result ≡ length (ascending_places labels.now) }
    ensures few { result ≤ length labels.now }
{
    let mut count = 0;
    for place in (0..labels.len()).rev() {
        if !is_among(&labels[place + 1..], labels[place]) {
            count += 1;
        }
    }
    count
}

// Whether a label is among others.
fn is_among(labels: &[u8], label: u8) -> bool
    ensures { result ≡ any_label label labels.now }
{
    for other in labels {
        if *other == label {
            return true;
        }
    }
    false
}
