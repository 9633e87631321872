//! Plots of networks, in PostScript.

ghost use Rattle.std.specs.Prelude.{◌≡◌, ◌<◌, [], length, flat_map, if◌then◌else◌};
ghost use Rattle.rst_outside.specs.Sink.{Writes};
ghost use Rattle.text_out.specs.Gathers.{Gathers};
ghost use Rattle.net_graph.specs.Flags.{has};
ghost use Rattle.net_graph.specs.Members.{members_of};
ghost use Rattle.hanan_grid.specs.Grid.{hanan_grid_of};
ghost use Rattle.printed_texts.specs.Plot.{scale_of, page_text, stroke, name_stroke, edge_stroke, cross, strokes_text, plot_text};

use crate::scale::{PagePoint, Scale};
use hanan_grid::{EdgeName, Grid};
use net_graph::EdgeSet;
use points_in::Point;
use rst_outside::{PutFault, Sink};
use text_out::{Block, finish, literal, number};

/// Writes a plot of a network on a grid, as a PostScript program of one page: a stroke for each edge of the network
/// in ascending number, from its lower-numbered vertex to the other one, and a cross of two strokes for each point of
/// the grid in order. The least coordinates lie at 36, and the greater of the grid's width and height is 540 long. It
/// takes no memory; on an `Err` the sink failed, and the text was cut short.
#[tactic(auto, using(text_out::specs::GatherLaws::pieces), unfolding(crate::specs::Plot::plot_text))]
pub fn plot<S: Sink>(sink: &mut S, grid: &Grid, network: &EdgeSet) -> Result<(), PutFault>
    requires { length network.now ≡ length (hanan_grid_of grid.now).edges }
    ensures { Writes (S.state sink.old) (plot_text grid.now network.now) (S.state sink.new) result }
{
    let mut block = Block::new();
    literal(&mut block, sink, b"%!\n");
    write_strokes(&mut block, sink, grid, network);
    literal(&mut block, sink, b"showpage\n");
    finish(block, sink)
}

// All strokes.
#[tactic(auto, using(text_out::specs::GatherLaws::pieces))]
fn write_strokes<S: Sink>(block: &mut Block, sink: &mut S, grid: &Grid, network: &EdgeSet)
    requires { length network.now ≡ length (hanan_grid_of grid.now).edges }
    ensures { Gathers (S.state sink.old) block.old (strokes_text grid.now network.now) (S.state sink.new) block.new }
{
    let scale = Scale::of(grid);
    write_network(block, sink, &scale, grid, network);
    write_crosses(block, sink, &scale, grid.points().as_slice());
}

// The strokes of the network's edges.
fn write_network<S: Sink>(
    block: &mut Block,
    sink: &mut S,
    scale: &Scale,
    grid: &Grid,
    network: &EdgeSet,
)
    requires { length network.now ≡ length (hanan_grid_of grid.now).edges }
    ensures { Gathers (S.state sink.old) block.old
        (flat_map (edge_stroke scale.now grid.now) (members_of network.now))
        (S.state sink.new) block.new }
{
    for edge in 0..network.len() {
        write_member(block, sink, scale, grid, network, edge);
    }
}

// The stroke of an edge, if the network has it.
#[tactic(auto, using(text_out::specs::GatherLaws::pieces))]
fn write_member<S: Sink>(
    block: &mut Block,
    sink: &mut S,
    scale: &Scale,
    grid: &Grid,
    network: &EdgeSet,
    edge: u32,
)
    requires size { length network.now ≡ length (hanan_grid_of grid.now).edges }
    requires edge { edge < length network.now }
    ensures { Gathers (S.state sink.old) block.old
        (if has network.now edge then edge_stroke scale.now grid.now edge else [])
        (S.state sink.new) block.new }
{
    if network.has(edge) {
        write_name(block, sink, scale, &grid.edge_name(edge));
    }
}

// The stroke of an edge by its name.
#[tactic(auto, using(text_out::specs::GatherLaws::pieces))]
fn write_name<S: Sink>(block: &mut Block, sink: &mut S, scale: &Scale, name: &EdgeName)
    ensures { Gathers (S.state sink.old) block.old (name_stroke scale.now name.now) (S.state sink.new) block.new }
{
    let from = scale.on_page(&Point {
        x: name.x1,
        y: name.y1,
    });
    let to = scale.on_page(&Point {
        x: name.x2,
        y: name.y2,
    });
    write_stroke(block, sink, &from, &to);
}

// The crosses of points.
#[tactic(auto, using(text_out::specs::GatherLaws::pieces))]
fn write_crosses<S: Sink>(block: &mut Block, sink: &mut S, scale: &Scale, points: &[Point])
    ensures { Gathers (S.state sink.old) block.old (flat_map (cross scale.now) points.now)
        (S.state sink.new) block.new }
{
    for point in points {
        write_cross(block, sink, scale, point);
    }
}

// The cross of a point.
#[tactic(auto, using(text_out::specs::GatherLaws::pieces))]
fn write_cross<S: Sink>(block: &mut Block, sink: &mut S, scale: &Scale, point: &Point)
    ensures { Gathers (S.state sink.old) block.old (cross scale.now point.now) (S.state sink.new) block.new }
{
    let at = scale.on_page(point);
    write_stroke(
        block,
        sink,
        &PagePoint {
            x: at.x - 3,
            y: at.y,
        },
        &PagePoint {
            x: at.x + 3,
            y: at.y,
        },
    );
    write_stroke(
        block,
        sink,
        &PagePoint {
            x: at.x,
            y: at.y - 3,
        },
        &PagePoint {
            x: at.x,
            y: at.y + 3,
        },
    );
}

// A stroke from one point of the page to another.
#[tactic(auto, using(text_out::specs::GatherLaws::pieces))]
fn write_stroke<S: Sink>(block: &mut Block, sink: &mut S, from: &PagePoint, to: &PagePoint)
    ensures { Gathers (S.state sink.old) block.old (stroke from.now to.now) (S.state sink.new) block.new }
{
    literal(block, sink, b"newpath\n");
    write_page_point(block, sink, from);
    literal(block, sink, b" moveto\n");
    write_page_point(block, sink, to);
    literal(block, sink, b" lineto\nstroke\n");
}

// A point of the page by its coordinates.
#[tactic(auto, using(text_out::specs::GatherLaws::pieces))]
fn write_page_point<S: Sink>(block: &mut Block, sink: &mut S, at: &PagePoint)
    ensures { Gathers (S.state sink.old) block.old (page_text at.now) (S.state sink.new) block.new }
{
    number(block, sink, at.x);
    literal(block, sink, b" ");
    number(block, sink, at.y);
}
