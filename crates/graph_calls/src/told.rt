//! What is told of sets and packings.

use net_graph::{EdgeSet, Packing, VertexSet};
use row_tables::Told;

/// Tells a line with a word and the numbers of the set's edges.
pub fn tell_edges(told: &mut Told, word: &str, set: &EdgeSet) {
    told.word(word);
    for n in 0..set.len() {
        if set.has(n) {
            told.value(" ", &n);
        }
    }
    told.word("\n");
}

/// Tells a line with a word and the numbers of the set's vertices.
pub fn tell_vertices(told: &mut Told, word: &str, set: &VertexSet) {
    told.word(word);
    for n in 0..set.len() {
        if set.has(n) {
            told.value(" ", &n);
        }
    }
    told.word("\n");
}

/// Tells a line for each cut: the word `cut`, its weight, a mark, and its members.
pub fn tell_cuts(told: &mut Told, packing: &Packing, mark: &str) {
    for cut in packing.cuts() {
        told.value("cut ", &cut.weight);
        tell_vertices(told, mark, &cut.members);
    }
}
