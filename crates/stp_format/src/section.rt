//! The sections of a file, one after the other.

ghost use Rattle.std.specs.Prelude.{◌≡◌, ◌<◌, ◌≤◌, length, Ok, OnOk};
ghost use Rattle.stp_format.specs.Sections.{no_sections, Sections, outer_line, file_of, outside, in_comment, section_line, behind_graph};
ghost use Rattle.stp_format.specs.Reading.{Gives, Tells};
ghost use Rattle.stp_format.specs.Left.{line_of, told, Reads, begun, section_or_end};

use crate::coordinates::read_coordinates;
use crate::fault::{StpFault, StpSection};
use crate::file::StpFile;
use crate::graph::{Graph, read_graph};
use crate::line::{Line, told_line};
use crate::lines::Lines;
use crate::node_points::NodePoints;
use crate::terminals::read_terminals;
use crate::words::{is_keyword, no_word, one_word};
use lists::ItemList;
use std::alloc::Global;
use std::marker::Model;

/// The sections that were read.
#[derive(Drop)]
pub(crate) struct SectionsRead {
    graph: Option<Graph>,
    terminals: Option<ItemList<u32>>,
    coordinates: Option<NodePoints>,
}

impl Model for SectionsRead {
    ghost use Rattle.stp_format.specs.Sections.{Sections};
    ghost use Rattle.stp_format.specs.Value.{AreSectionsOf};

    ghost Value = { Sections };

    ghost view = { λ s. record { graph = s.graph; terminals = s.terminals; coordinates = s.coordinates } };

    ghost invariant = { λ s. AreSectionsOf s.graph s.terminals };
}

// What a line outside of the sections begins.
#[derive(Clone, Copy)]
enum Begins {
    Comment,
    Graph,
    // With the count of the nodes.
    Terminals(u32),
    Coordinates(u32),
    // The file ends.
    End,
}

impl SectionsRead {
    /// No section was read. It takes no memory.
    pub(crate) fn none() -> Self
        ensures { result ≡ no_sections }
    {
        SectionsRead {
            graph: None,
            terminals: None,
            coordinates: None,
        }
    }

    // The count of the nodes, for a section that stands behind a Graph section, and only once.
    fn nodes_for(&self, line: u64, again: bool) -> Result<u32, StpFault>
        ensures { Gives (λ nodes. nodes) result (behind_graph line self.now.graph again) }
    {
        match &self.graph {
            None => Err(StpFault::MissingSection(StpSection::Graph)),
            Some(_) if again => Err(StpFault::BadLine(line)),
            Some(graph) => Ok(graph.nodes),
        }
    }

    // The section of a name.
    fn named(&self, line: u64, name: &[u8]) -> Result<Begins, StpFault>
        ensures { Tells (begun self.now) result (section_line self.now line name.now) }
    {
        if is_keyword(b"Comment", name) {
            Ok(Begins::Comment)
        } else if is_keyword(b"Graph", name) {
            if self.graph.is_some() {
                Err(StpFault::BadLine(line))
            } else {
                Ok(Begins::Graph)
            }
        } else if is_keyword(b"Terminals", name) {
            let nodes = self.nodes_for(line, self.terminals.is_some())?;
            Ok(Begins::Terminals(nodes))
        } else if is_keyword(b"Coordinates", name) {
            let nodes = self.nodes_for(line, self.coordinates.is_some())?;
            Ok(Begins::Coordinates(nodes))
        } else {
            Err(StpFault::LeftOut(line))
        }
    }

    // What a line outside of the sections begins.
    fn begun_by(&self, line: &Line<'_>) -> Result<Begins, StpFault>
        ensures { Tells (begun self.now) result (outer_line self.now (line_of line.now)) }
    {
        if is_keyword(b"SECTION", line.keyword) {
            let name = one_word(line.number, line.operands)?;
            return self.named(line.number, name);
        }
        if !is_keyword(b"EOF", line.keyword) {
            return Err(StpFault::BadLine(line.number));
        }
        no_word(line.number, line.operands)?;
        Ok(Begins::End)
    }

    /// Reads the next section, or the end of the file, and tells whether it was a section.
    pub(crate) fn read_next(
        &mut self,
        alloc: Global,
        text: &mut Lines<'_>,
    ) -> Result<bool, StpFault>
        ensures read { Reads (outside self.old) (section_or_end self.new) text.old result text.new }
        ensures shorter { OnOk result (length (told text.new) < length (told text.old)) }
    {
        let line = told_line(text)?;
        match self.begun_by(&line)? {
            Begins::Comment => skip_comment(text)?,
            Begins::Graph => self.graph = Some(read_graph(alloc, text)?),
            Begins::Terminals(nodes) => {
                self.terminals = Some(read_terminals(alloc, text, nodes)?);
            }
            Begins::Coordinates(nodes) => {
                self.coordinates = Some(read_coordinates(alloc, text, nodes)?);
            }
            Begins::End => return Ok(false),
        }
        Ok(true)
    }

    /// The file of the sections, where none is missing that every file has.
    pub(crate) fn into_file(self) -> Result<StpFile, StpFault>
        ensures { Gives (λ file. file) result (file_of self) }
    {
        let SectionsRead {
            graph,
            terminals,
            coordinates,
        } = self;
        let Some(graph) = graph else {
            return Err(StpFault::MissingSection(StpSection::Graph));
        };
        let Some(terminals) = terminals else {
            return Err(StpFault::MissingSection(StpSection::Terminals));
        };
        Ok(StpFile::of(graph, terminals, coordinates))
    }
}

// Passes over the lines of a Comment section, up to its end.
fn skip_comment(text: &mut Lines<'_>) -> Result<(), StpFault>
    ensures read { (s : Sections) → Reads (in_comment s) (λ _. Ok (outside s)) text.old result text.new }
    ensures shorter { OnOk result (length (told text.new) ≤ length (told text.old)) }
{
    while !is_keyword(b"END", told_line(text)?.keyword) {}
    Ok(())
}
