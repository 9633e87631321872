//! The Terminals section.

ghost use Rattle.std.specs.Prelude.{◌≡◌, ◌<◌, ◌≤◌, ◌^◌, ℕ, List, [], length, Option, Some, Ok, IsTrue, IfOk, IfSome, OnOk};
ghost use Rattle.std.specs.List.{AllByRecursion};
ghost use Rattle.stp_format.specs.Lines.{words_of};
ghost use Rattle.stp_format.specs.Value.{is_node as is_node_of, AreTerminals};
ghost use Rattle.stp_format.specs.Sections.{Sections, TerminalsSoFar, in_terminals, outside, uncounted, naming, terminal_line};
ghost use Rattle.stp_format.specs.Reading.{Gives, Tells, next_line, is_left_out as is_left_out_of};
ghost use Rattle.stp_format.specs.Left.{line_of, told, Reads, terminal_or_end};

use crate::counted::{counted, is_node};
use crate::fault::{StpFault, StpSection};
use crate::line::{Line, told_line};
use crate::lines::Lines;
use crate::words::{is_keyword, no_word};
use lists::ItemList;
use std::alloc::Global;

// Whether a line of the section is left out by its keyword.
fn is_left_out(keyword: &[u8]) -> bool
    ensures { (s : Sections) (nodes : ℕ) (t : TerminalsSoFar)
        → result ≡ is_left_out_of (in_terminals s nodes t) keyword.now }
{
    is_keyword(b"Root", keyword) || is_keyword(b"RootP", keyword) || is_keyword(b"TP", keyword)
}

// The node of a line.
fn terminal_in(line: u64, nodes: u32, operands: &[u8]) -> Result<u32, StpFault>
    ensures terminal { Gives (λ node. node) result (terminal_line line nodes (words_of operands.now)) }
    ensures is { IfOk result (λ node. IsTrue (is_node_of nodes node)) }
{
    let node = counted(line, operands)?;
    if is_node(nodes, node) {
        Ok(node)
    } else {
        Err(StpFault::NodeOutOfRange(line))
    }
}

// The count of the terminals, in the first line of the section.
fn count_told(line: &Line<'_>) -> Result<u32, StpFault>
    ensures { (s : Sections) (nodes : ℕ) → Gives (λ due. in_terminals s nodes (naming due [])) result
        (next_line (in_terminals s nodes uncounted) (line_of line.now)) }
{
    if is_left_out(line.keyword) {
        return Err(StpFault::LeftOut(line.number));
    }
    if !is_keyword(b"Terminals", line.keyword) {
        return Err(StpFault::BadLine(line.number));
    }
    counted(line.number, line.operands)
}

// The node of a further line. None where the line ends the section.
fn terminal_told(nodes: u32, line: &Line<'_>) -> Result<Option<u32>, StpFault>
    ensures told { (s : Sections) (due : ℕ) (terminals : List ℕ)
        → Tells (terminal_or_end s nodes due terminals) result
        (next_line (in_terminals s nodes (naming due terminals)) (line_of line.now)) }
    ensures terminal { IfOk result (λ o. IfSome o (λ node. IsTrue (is_node_of nodes node))) }
{
    if is_left_out(line.keyword) {
        return Err(StpFault::LeftOut(line.number));
    }
    if is_keyword(b"T", line.keyword) {
        return Ok(Some(terminal_in(line.number, nodes, line.operands)?));
    }
    if !is_keyword(b"END", line.keyword) {
        return Err(StpFault::BadLine(line.number));
    }
    no_word(line.number, line.operands)?;
    Ok(None)
}

// Reads the first line.
fn read_count(text: &mut Lines<'_>) -> Result<u32, StpFault>
    ensures read { (s : Sections) (nodes : ℕ) → Reads (in_terminals s nodes uncounted)
        (λ due. Ok (in_terminals s nodes (naming due []))) text.old result text.new }
    ensures shorter { OnOk result (length (told text.new) < length (told text.old)) }
{
    let line = told_line(text)?;
    count_told(&line)
}

// Reads a further line.
fn next_terminal(text: &mut Lines<'_>, nodes: u32) -> Result<Option<u32>, StpFault>
    ensures read { (s : Sections) (due : ℕ) (terminals : List ℕ)
        → Reads (in_terminals s nodes (naming due terminals))
        (terminal_or_end s nodes due terminals) text.old result text.new }
    ensures terminal { IfOk result (λ o. IfSome o (λ node. IsTrue (is_node_of nodes node))) }
    ensures shorter { OnOk result (length (told text.new) < length (told text.old)) }
{
    let line = told_line(text)?;
    terminal_told(nodes, &line)
}

/// Reads the section behind its name.
pub(crate) fn read_terminals(
    alloc: Global,
    text: &mut Lines<'_>,
    nodes: u32,
) -> Result<ItemList<u32>, StpFault>
    ensures read { (s : Sections) → Reads (in_terminals s nodes uncounted)
        (λ terminals. Ok (outside (record s { terminals = Some terminals }))) text.old result text.new }
    ensures terminals { IfOk result (AreTerminals nodes) }
    ensures shorter { OnOk result (length (told text.new) ≤ length (told text.old)) }
{
    let due = read_count(text)?;
    let mut terminals = ItemList::empty(alloc);
    while let Some(node) = next_terminal(text, nodes)? {
        terminals.push(node)?;
    }
    if terminals.len() == due as usize {
        Ok(terminals)
    } else {
        Err(StpFault::WrongCount(StpSection::Terminals))
    }
}
