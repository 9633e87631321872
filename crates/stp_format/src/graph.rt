//! The Graph section.

ghost use Rattle.std.specs.Prelude.{◌≡◌, ◌<◌, ◌≤◌, ◌^◌, ℕ, List, [], length, Option, Some, None, Ok, IfOk, IfSome, OnOk};
ghost use Rattle.std.specs.List.{AllByRecursion};
ghost use Rattle.stp_format.specs.Lines.{words_of};
ghost use Rattle.stp_format.specs.declared.edge.StpEdge.{StpEdge};
ghost use Rattle.stp_format.specs.Value.{IsEdge};
ghost use Rattle.stp_format.specs.Sections.{Sections, GraphSoFar, in_graph, outside, unsized, sized, listing, nodes_line, edge_line};
ghost use Rattle.stp_format.specs.Reading.{Gives, Tells, next_line, is_left_out as is_left_out_of};
ghost use Rattle.stp_format.specs.Left.{line_of, told, Reads, edge_or_end};

use crate::counted::{counted, is_node};
use crate::edge::StpEdge;
use crate::fault::{StpFault, StpSection};
use crate::line::{Line, told_line};
use crate::lines::Lines;
use crate::number::{count_in, weight_in};
use crate::words::{is_keyword, no_word, three_words};
use lists::ItemList;
use std::alloc::Global;
use std::marker::Model;

/// How many nodes there are, and the edges between them, in order.
#[derive(Drop)]
pub(crate) struct Graph {
    pub(crate) nodes: u32,
    pub(crate) edges: ItemList<StpEdge>,
}

impl Model for Graph {
    ghost use Rattle.stp_format.specs.Value.{StpGraph, IsGraph};

    ghost Value = { StpGraph };

    ghost view = { λ graph. record { nodes = graph.nodes; edges = graph.edges } };

    ghost invariant = { λ graph. IsGraph (record { nodes = graph.nodes; edges = graph.edges }) };
}

// Whether a line of the section is left out by its keyword.
fn is_left_out(keyword: &[u8]) -> bool
    ensures { (s : Sections) (g : GraphSoFar) → result ≡ is_left_out_of (in_graph s g) keyword.now }
{
    is_keyword(b"Arcs", keyword) || is_keyword(b"A", keyword)
}

// The count of the nodes.
fn nodes_in(line: u64, operands: &[u8]) -> Result<u32, StpFault>
    ensures nodes { Gives (λ nodes. nodes) result (nodes_line line (words_of operands.now)) }
    ensures some { IfOk result (λ nodes. 1 ≤ nodes) }
{
    let nodes = counted(line, operands)?;
    if nodes == 0 {
        Err(StpFault::BadLine(line))
    } else {
        Ok(nodes)
    }
}

// The edge of a line.
fn edge_in(line: u64, nodes: u32, operands: &[u8]) -> Result<StpEdge, StpFault>
    ensures edge { Gives (λ e. e) result (edge_line line nodes (words_of operands.now)) }
    ensures is { IfOk result (IsEdge nodes) }
{
    let (first, second, third) = three_words(line, operands)?;
    let i = count_in(line, first)?;
    let j = count_in(line, second)?;
    let length = weight_in(line, third)?;
    if is_node(nodes, i) && is_node(nodes, j) {
        Ok(StpEdge { i, j, length })
    } else {
        Err(StpFault::NodeOutOfRange(line))
    }
}

// The count of the nodes, in the first line of the section.
fn nodes_told(line: &Line<'_>) -> Result<u32, StpFault>
    ensures nodes { (s : Sections) → Gives (λ nodes. in_graph s (sized nodes)) result
        (next_line (in_graph s unsized) (line_of line.now)) }
    ensures some { IfOk result (λ nodes. 1 ≤ nodes) }
{
    if is_left_out(line.keyword) {
        return Err(StpFault::LeftOut(line.number));
    }
    if !is_keyword(b"Nodes", line.keyword) {
        return Err(StpFault::BadLine(line.number));
    }
    nodes_in(line.number, line.operands)
}

// The count of the edges, in the second line.
fn edge_count_told(line: &Line<'_>) -> Result<u32, StpFault>
    ensures { (s : Sections) (nodes : ℕ) → Gives (λ due. in_graph s (listing nodes due [])) result
        (next_line (in_graph s (sized nodes)) (line_of line.now)) }
{
    if is_left_out(line.keyword) {
        return Err(StpFault::LeftOut(line.number));
    }
    if !is_keyword(b"Edges", line.keyword) {
        return Err(StpFault::BadLine(line.number));
    }
    counted(line.number, line.operands)
}

// The edge of a further line. None where the line ends the section.
fn edge_told(nodes: u32, line: &Line<'_>) -> Result<Option<StpEdge>, StpFault>
    ensures told { (s : Sections) (due : ℕ) (edges : List StpEdge)
        → Tells (edge_or_end s nodes due edges) result
        (next_line (in_graph s (listing nodes due edges)) (line_of line.now)) }
    ensures edge { IfOk result (λ o. IfSome o (IsEdge nodes)) }
{
    if is_left_out(line.keyword) {
        return Err(StpFault::LeftOut(line.number));
    }
    if is_keyword(b"E", line.keyword) {
        return Ok(Some(edge_in(line.number, nodes, line.operands)?));
    }
    if !is_keyword(b"END", line.keyword) {
        return Err(StpFault::BadLine(line.number));
    }
    no_word(line.number, line.operands)?;
    Ok(None)
}

// Reads the first line.
fn read_nodes(text: &mut Lines<'_>) -> Result<u32, StpFault>
    ensures nodes { (s : Sections) → Reads (in_graph s unsized) (λ nodes. Ok (in_graph s (sized nodes)))
        text.old result text.new }
    ensures some { IfOk result (λ nodes. 1 ≤ nodes) }
    ensures shorter { OnOk result (length (told text.new) < length (told text.old)) }
{
    let line = told_line(text)?;
    nodes_told(&line)
}

// Reads the second line.
fn read_edge_count(text: &mut Lines<'_>) -> Result<u32, StpFault>
    ensures read { (s : Sections) (nodes : ℕ) → Reads (in_graph s (sized nodes))
        (λ due. Ok (in_graph s (listing nodes due []))) text.old result text.new }
    ensures shorter { OnOk result (length (told text.new) < length (told text.old)) }
{
    let line = told_line(text)?;
    edge_count_told(&line)
}

// Reads a further line.
fn next_edge(text: &mut Lines<'_>, nodes: u32) -> Result<Option<StpEdge>, StpFault>
    ensures read { (s : Sections) (due : ℕ) (edges : List StpEdge) → Reads (in_graph s (listing nodes due edges))
        (edge_or_end s nodes due edges) text.old result text.new }
    ensures edge { IfOk result (λ o. IfSome o (IsEdge nodes)) }
    ensures shorter { OnOk result (length (told text.new) < length (told text.old)) }
{
    let line = told_line(text)?;
    edge_told(nodes, &line)
}

// Reads the edges and the end of the section.
fn read_edges(
    alloc: Global,
    text: &mut Lines<'_>,
    nodes: u32,
    due: u32,
) -> Result<ItemList<StpEdge>, StpFault>
    ensures read { (s : Sections) → Reads (in_graph s (listing nodes due []))
        (λ edges. Ok (outside (record s { graph = Some (record { nodes = nodes; edges = edges }) })))
        text.old result text.new }
    ensures edges { IfOk result (AllByRecursion (IsEdge nodes)) }
    ensures few { IfOk result (λ edges. length edges < 2 ^ 32) }
    ensures shorter { OnOk result (length (told text.new) ≤ length (told text.old)) }
{
    let mut edges = ItemList::empty(alloc);
    while let Some(edge) = next_edge(text, nodes)? {
        edges.push(edge)?;
    }
    if edges.len() == due as usize {
        Ok(edges)
    } else {
        Err(StpFault::WrongCount(StpSection::Graph))
    }
}

/// Reads the section behind its name.
pub(crate) fn read_graph(alloc: Global, text: &mut Lines<'_>) -> Result<Graph, StpFault>
    ensures read { (s : Sections) → Reads (in_graph s unsized)
        (λ g. Ok (outside (record s { graph = Some g }))) text.old result text.new }
    ensures shorter { OnOk result (length (told text.new) ≤ length (told text.old)) }
{
    let nodes = read_nodes(text)?;
    let due = read_edge_count(text)?;
    let edges = read_edges(alloc, text, nodes, due)?;
    Ok(Graph { nodes, edges })
}
