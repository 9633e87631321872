//! Searches over the arcs of a graph that may be walked.

ghost use Rattle.std.specs.Prelude.{◌≡◌, ◌%◌, ◌==◌, length};

use crate::described::only;
use crate::told::tell_vertices;
use net_graph::{NetGraph, Passage, found_leading_to, reached_from};
use row_tables::{Call, Fault, Told};
use std::alloc::Global;

// Each edge may be walked from its end a to its end b alone.
#[derive(Clone, Copy)]
struct OneWay {
    edges: u32,
}

impl Passage for OneWay {
    ghost opens = { λ _ arc. arc % 2 == 0 };

    ghost edges = { λ way. way.edges };

    fn is_open(&self, arc: u32) -> bool {
        arc % 2 == 0
    }
}

/// What is reached from the vertex under `from`, and from where it is reached, where each edge of the graph may be
/// walked from its first end to its second alone.
pub fn ways(alloc: Global, call: &Call, g: &NetGraph, told: &mut Told) -> Result<(), Fault> {
    let v = only(call.text("from")?)?;
    if v >= g.vertex_count() {
        return Err(Fault::NotAllowed);
    }
    let way = OneWay {
        edges: g.edge_count(),
    };
    tell_vertices(told, "reached", &reached_from(alloc, g, v, &way)?);
    tell_vertices(told, "leading", found_leading_to(alloc, g, v, &way)?.set());
    Ok(())
}
