//! What a search for a concatenation answers.

use crate::trail::Trail;
use spanning::PlaceList;

/// How far a search came.
#[derive(Drop)]
pub enum ChosenKind {
    /// No concatenation has a smaller total.
    Least,
    /// All splits that were allowed were used, and an end of the trail is open.
    Spent(Trail),
}

/// A concatenation: the places of its trees, ascending, and its total.
#[derive(Drop)]
pub struct Chosen {
    pub kind: ChosenKind,
    pub places: PlaceList,
    pub total: u128,
}
