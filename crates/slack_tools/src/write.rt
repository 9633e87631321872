//! The text of a grid's bounds.

ghost use Rattle.std.specs.Prelude.{◌≡◌, ◌<◌, ◌≤◌, [], length, flat_map, if◌then◌else◌, slice_index};
ghost use Rattle.rst_outside.specs.Sink.{Writes};
ghost use Rattle.text_out.specs.Gathers.{Gathers};
ghost use Rattle.hanan_grid.specs.Grid.{hanan_grid_of};
ghost use Rattle.slack_tools.specs.Text.{bound_line, edge_text, head_text, is_above, listed, slack_text};

use answer_text::write_name;
use hanan_grid::{EdgeName, Grid};
use rst_outside::{PutFault, Sink};
use text_out::{Block, finish, literal, number};

/// Writes the edges whose bound is above the threshold, or all edges where there is none, in ascending number, each by
/// its ends and with its bound. It takes no memory; on an `Err` the sink failed, and the text was cut short.
#[tactic(auto, using(text_out::specs::GatherLaws::pieces), unfolding(crate::specs::Text::slack_text))]
pub(crate) fn write_slack<S: Sink>(
    sink: &mut S,
    grid: &Grid,
    above: Option<u64>,
    bounds: &[u64],
) -> Result<(), PutFault>
    requires { length bounds.now ≡ length (hanan_grid_of grid.now).edges }
    ensures { Writes (S.state sink.old) (slack_text grid.now above bounds.now) (S.state sink.new) result }
{
    let mut block = Block::new();
    write_all(&mut block, sink, grid, above, bounds);
    finish(block, sink)
}

// The whole text, of which the last bytes wait in the block.
#[tactic(auto, using(text_out::specs::GatherLaws::pieces), unfolding(crate::specs::Text::slack_text))]
fn write_all<S: Sink>(
    block: &mut Block,
    sink: &mut S,
    grid: &Grid,
    above: Option<u64>,
    bounds: &[u64],
)
    requires { length bounds.now ≡ length (hanan_grid_of grid.now).edges }
    ensures { Gathers (S.state sink.old) block.old (slack_text grid.now above bounds.now)
        (S.state sink.new) block.new }
{
    write_head(block, sink, listed_count(above, bounds));
    write_lines(block, sink, grid, above, bounds);
    literal(block, sink, b"end\n");
}

// The first two lines.
#[tactic(auto, using(text_out::specs::GatherLaws::pieces))]
fn write_head<S: Sink>(block: &mut Block, sink: &mut S, count: usize)
    ensures { Gathers (S.state sink.old) block.old (head_text count) (S.state sink.new) block.new }
{
    literal(block, sink, b"rst slack 1\nedges ");
    number(block, sink, count);
    literal(block, sink, b"\n");
}

// How many edges have a line.
fn listed_count(above: Option<u64>, bounds: &[u64]) -> usize
    ensures { result ≡ length (listed above bounds.now) }
{
    let mut count = 0;
    for edge in 0..bounds.len() {
        count += line_count(above, bounds[edge]);
    }
    count
}

// How many lines an edge of this bound has: one or none.
fn line_count(above: Option<u64>, bound: u64) -> usize
    ensures value { result ≡ (if is_above above bound then 1 else 0) }
    ensures few { result ≤ 1 }
{
    if is_above(above, bound) { 1 } else { 0 }
}

// Whether an edge of this bound has a line.
fn is_above(above: Option<u64>, bound: u64) -> bool
    ensures { result ≡ is_above above bound }
{
    match above {
        None => true,
        Some(most) => most < bound,
    }
}

// The lines of all edges that have one.
fn write_lines<S: Sink>(
    block: &mut Block,
    sink: &mut S,
    grid: &Grid,
    above: Option<u64>,
    bounds: &[u64],
)
    requires { length bounds.now ≡ length (hanan_grid_of grid.now).edges }
    ensures { Gathers (S.state sink.old) block.old
        (flat_map (edge_text grid.now bounds.now) (listed above bounds.now)) (S.state sink.new) block.new }
{
    for edge in 0..grid.graph().edge_count() {
        write_edge(block, sink, grid, above, bounds, edge);
    }
}

// The line of an edge, if it has one.
#[tactic(auto, using(text_out::specs::GatherLaws::pieces))]
fn write_edge<S: Sink>(
    block: &mut Block,
    sink: &mut S,
    grid: &Grid,
    above: Option<u64>,
    bounds: &[u64],
    edge: u32,
)
    requires size { length bounds.now ≡ length (hanan_grid_of grid.now).edges }
    requires edge { edge < length bounds.now }
    ensures { Gathers (S.state sink.old) block.old
        (if is_above above (slice_index bounds.now edge) then edge_text grid.now bounds.now edge else [])
        (S.state sink.new) block.new }
{
    let bound = bounds[edge as usize];
    if is_above(above, bound) {
        write_line(block, sink, &grid.edge_name(edge), bound);
    }
}

// An edge by its ends, and its bound.
#[tactic(auto, using(text_out::specs::GatherLaws::pieces))]
fn write_line<S: Sink>(block: &mut Block, sink: &mut S, name: &EdgeName, bound: u64)
    ensures { Gathers (S.state sink.old) block.old (bound_line name.now bound) (S.state sink.new) block.new }
{
    write_name(block, sink, name);
    literal(block, sink, b" ");
    number(block, sink, bound);
    literal(block, sink, b"\n");
}
