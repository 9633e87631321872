//! The border of a set of a grid's vertices: the edges that have one end in it alone, found by whole words of the set.

ghost use Rattle.std.specs.Prelude.{◌≡◌, ℕ, ◌+◌, ◌-◌, ◌*◌, ◌^◌, ◌==◌, ◌<◌, ◌≤◌, length};
ghost use Rattle.std.specs.Int.{bit_at};
ghost use Rattle.net_graph.specs.Flags.{has};
ghost use Rattle.net_graph.specs.Graph.{Graph};
ghost use Rattle.hanan_grid.specs.Grid.{hanan_grid_of};
ghost use Rattle.cert_check.specs.Strips.{IsLaidOut, IsStrip, edges_before};

use hanan_grid::Grid;
use net_graph::{NetGraph, VertexSet};
use tree_judge::{Border, Run};

/// How many columns and rows a grid has, which tells how its vertices and edges are numbered.
#[derive(Clone, Copy)]
pub(crate) struct Layout {
    pub columns: u32,
    pub rows: u32,
}

impl Border for Layout {
    ghost use Rattle.std.specs.Prelude.{◌-◌, ◌*◌};
    ghost use Rattle.cert_check.specs.Strips.{IsLaidOut, edges_before};

    ghost is_of = { λ g layout. IsLaidOut g layout };

    ghost count = { λ g layout. 2 * layout.rows - 1 };

    ghost before = { λ g layout place. edges_before layout place };

    fn runs(&self, _g: &NetGraph) -> u32 {
        2 * self.rows - 1
    }

    fn run(&self, g: &NetGraph, place: u32, members: &VertexSet) -> Run {
        // Few vertices, so their numbers are within 32 bits.
        prove!(g.vertex_count() <= 2500);
        let strip = strip_at(*self, place);
        Run {
            edge: strip.edge,
            marks: parted_in(members, strip),
        }
    }
}

/// Edges of successive numbers, which join successive vertices to those that are a step further on.
#[derive(Clone, Copy)]
pub(crate) struct Strip {
    /// The number of the first edge.
    pub edge: u32,
    /// The end of the first edge with the lower number.
    pub vertex: u32,
    /// How much higher the number of an edge's other end is.
    pub step: u32,
    /// How many edges there are.
    pub count: u32,
}

/// The layout of a grid.
pub(crate) fn layout_of(grid: &Grid) -> Layout
    ensures { IsLaidOut (hanan_grid_of grid.now) result }
{
    Layout {
        columns: grid.columns(),
        rows: grid.rows(),
    }
}

/// The strip of edges at a place, counted from 0: first the horizontal edges of each row, then the vertical ones
/// from each row to the next.
pub(crate) fn strip_at(layout: Layout, place: u32) -> Strip
    requires some { 0 < layout.columns }
    requires few_columns { layout.columns ≤ 50 }
    requires few_rows { layout.rows ≤ 50 }
    requires place { place + 1 < 2 * layout.rows }
    ensures first { result.edge ≡ edges_before layout place }
    ensures behind { result.edge + result.count ≡ edges_before layout (place + 1) }
    ensures strip { (g : Graph) → IsLaidOut g layout → IsStrip g result }
{
    let Layout { columns, rows } = layout;
    if place < rows {
        Strip {
            edge: place * (columns - 1),
            vertex: place * columns,
            step: 1,
            count: columns - 1,
        }
    } else {
        let row = place - rows;
        Strip {
            edge: rows * (columns - 1) + row * columns,
            vertex: row * columns,
            step: columns,
            count: columns,
        }
    }
}

/// Which edges of a strip have one end in the set alone, by their places there: the first at the lowest bit.
pub(crate) fn parted_in(members: &VertexSet, strip: Strip) -> u64
    requires few_vertices { length members.now ≤ 2500 }
    requires few { strip.count ≤ 50 }
    requires within { strip.vertex + strip.step + strip.count ≤ length members.now }
    ensures below { result < 2 ^ strip.count }
    ensures others { (i : ℕ) → i < strip.count → bit_at result i ≡ 0
        → has members.now (strip.vertex + i) ≡ has members.now (strip.vertex + strip.step + i) }
{
    if strip.count == 0 {
        return 0;
    }
    let near = flags_from(members, strip.vertex, strip.count);
    let far = flags_from(members, strip.vertex + strip.step, strip.count);
    (near ^ far) & ((1 << strip.count) - 1)
}

// The flags of so many vertices from one on, the first at the lowest bit. What stands above them tells nothing.
fn flags_from(members: &VertexSet, vertex: u32, count: u32) -> u64
    requires some { 0 < count }
    requires few { count ≤ 50 }
    requires within { vertex + count ≤ length members.now }
    ensures { (i : ℕ) → i < count → has members.now (vertex + i) ≡ (bit_at result i == 1) }
{
    let (place, shift) = (vertex / 64, vertex % 64);
    let low = members.word(place) >> shift;
    if shift + count <= 64 {
        return low;
    }
    low | members.word(place + 1) << (64 - shift)
}
