//! Packings that are offered for the two children of a split.

use net_graph::Packing;

/// Packings that are offered for the two children of a split: for what misses the vertex, and for what meets it.
/// Nothing is promised of them but that their cuts are sets of the graph's vertices.
#[derive(Drop)]
pub struct Offered {
    pub outside: Packing,
    pub inside: Packing,
}
