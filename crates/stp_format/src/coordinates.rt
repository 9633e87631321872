//! The Coordinates section.

ghost use Rattle.std.specs.Prelude.{◌≡◌, ◌<◌, ◌≤◌, ℕ, List, [], length, Option, Some, Ok, OnOk};
ghost use Rattle.points_in.specs.declared.point.Point.{Point};
ghost use Rattle.stp_format.specs.Lines.{words_of};
ghost use Rattle.stp_format.specs.Sections.{Sections, in_coordinates, outside, point_line};
ghost use Rattle.stp_format.specs.Reading.{Gives, Tells, next_line, is_left_out as is_left_out_of};
ghost use Rattle.stp_format.specs.Left.{line_of, told, Reads, point_or_end};

use crate::counted::is_node;
use crate::fault::StpFault;
use crate::line::{Line, told_line};
use crate::lines::Lines;
use crate::node_points::NodePoints;
use crate::number::{coordinate_in, count_in};
use crate::words::{is_keyword, no_word, three_words};
use points_in::Point;
use std::alloc::Global;

// Whether a line of the section is left out by its keyword.
fn is_left_out(keyword: &[u8]) -> bool
    ensures { (s : Sections) (nodes : ℕ) (points : List (ℕ × Point))
        → result ≡ is_left_out_of (in_coordinates s nodes points) keyword.now }
{
    is_keyword(b"D", keyword) || is_keyword(b"DDD", keyword)
}

// Adds the point of a line.
fn add_point(
    line: u64,
    nodes: u32,
    points: &mut NodePoints,
    operands: &[u8],
) -> Result<(), StpFault>
    ensures { Gives (λ _. points.new) result (point_line line nodes points.old (words_of operands.now)) }
{
    let (first, second, third) = three_words(line, operands)?;
    let node = count_in(line, first)?;
    let x = coordinate_in(line, second)?;
    let y = coordinate_in(line, third)?;
    if !is_node(nodes, node) {
        return Err(StpFault::NodeOutOfRange(line));
    }
    if points.get(node).is_some() {
        return Err(StpFault::BadLine(line));
    }
    points.insert(node, Point { x, y })?;
    Ok(())
}

// Adds the point of a line, or tells that the line ends the section.
fn point_told(nodes: u32, points: &mut NodePoints, line: &Line<'_>) -> Result<bool, StpFault>
    ensures { (s : Sections) → Tells (point_or_end s nodes points.new) result
        (next_line (in_coordinates s nodes points.old) (line_of line.now)) }
{
    if is_left_out(line.keyword) {
        return Err(StpFault::LeftOut(line.number));
    }
    if is_keyword(b"DD", line.keyword) {
        add_point(line.number, nodes, points, line.operands)?;
        return Ok(true);
    }
    if !is_keyword(b"END", line.keyword) {
        return Err(StpFault::BadLine(line.number));
    }
    no_word(line.number, line.operands)?;
    Ok(false)
}

// Reads the line of a point, or the end of the section, and tells whether it was a point.
fn next_point(text: &mut Lines<'_>, nodes: u32, points: &mut NodePoints) -> Result<bool, StpFault>
    ensures read { (s : Sections) → Reads (in_coordinates s nodes points.old) (point_or_end s nodes points.new)
        text.old result text.new }
    ensures shorter { OnOk result (length (told text.new) < length (told text.old)) }
{
    let line = told_line(text)?;
    point_told(nodes, points, &line)
}

/// Reads the section behind its name.
pub(crate) fn read_coordinates(
    alloc: Global,
    text: &mut Lines<'_>,
    nodes: u32,
) -> Result<NodePoints, StpFault>
    ensures read { (s : Sections) → Reads (in_coordinates s nodes [])
        (λ points. Ok (outside (record s { coordinates = Some points }))) text.old result text.new }
    ensures shorter { OnOk result (length (told text.new) ≤ length (told text.old)) }
{
    let mut points = NodePoints::empty(alloc);
    while next_point(text, nodes, &mut points)? {}
    Ok(points)
}
