//! What is due at the beginning of a line, and where an edge or a vertex is named.

ghost use Rattle.std.specs.Prelude.{◌≡◌};
ghost use Rattle.answer_text.specs.declared.line.Stage.TheVariants as stage_of;
ghost use Rattle.answer_text.specs.declared.scan.Scan.TheVariants as scan_of;
ghost use Rattle.answer_text.specs.declared.version.Version.{Version};
ghost use Rattle.answer_text.specs.Forms.{most_edges};
ghost use Rattle.answer_text.specs.Scanning.{edge_scan, first_scan, vertex_scan};

use crate::form::Form;
use crate::line::Stage;
use crate::scan::{Corner, Field, Scan, Word};
use crate::version::Version;

// What is due at the beginning of a line of a text of this form and version.
pub(crate) fn first_scan(form: Form, version: Version, stage: Stage) -> Scan
    ensures { result ≡ first_scan form version stage }
{
    match stage {
        Stage::Title => Scan::Word(title_word(form), 0),
        Stage::Length => Scan::Word(Word::Length, 0),
        Stage::Bound => Scan::Word(Word::Bound, 0),
        Stage::Status => Scan::Word(Word::Status, 0),
        Stage::Openings => Scan::Word(openings_word(form), 0),
        Stage::Concat => Scan::Word(Word::Concat, 0),
        Stage::Count => Scan::Word(Word::Edges(most_edges(form)), 0),
        Stage::Edges(0) => Scan::Word(Word::Tree, 0),
        Stage::Edges(_) => edge_scan(form),
        Stage::Body(0, 0) => Scan::Word(Word::End, 0),
        Stage::Body(0, _) => Scan::Node(version, form),
        Stage::Body(_, _) => Scan::Word(Word::Cut, 0),
        Stage::Done => Scan::Ended,
    }
}

// The word that a text begins with.
fn title_word(form: Form) -> Word
    ensures { (v : Version) → scan_of.Word result 0 ≡ first_scan form v stage_of.Title }
{
    match form {
        Form::OnGrid(_) => Word::Title,
        Form::OfGraph(_, _) => Word::GraphTitle,
    }
}

// The word that the line of the openings begins with.
fn openings_word(form: Form) -> Word
    ensures { (v : Version) → scan_of.Word result 0 ≡ first_scan form v stage_of.Openings }
{
    match form {
        Form::OnGrid(_) => Word::Openings,
        Form::OfGraph(_, _) => Word::LastOpenings,
    }
}

// How many edges a text may count.
pub(crate) fn most_edges(form: Form) -> u32
    ensures { result ≡ most_edges form }
{
    match form {
        Form::OfGraph(0, _) => 0,
        _ => u32::MAX,
    }
}

// What is due where an edge is named.
pub(crate) fn edge_scan(form: Form) -> Scan
    ensures { result ≡ edge_scan form }
{
    match form {
        Form::OnGrid(_) => Scan::Coordinate(Corner::X1),
        Form::OfGraph(edges, _) => Scan::Due(Field::EdgeNumber(edges)),
    }
}

// What is due where a vertex is named.
pub(crate) fn vertex_scan(form: Form) -> Scan
    ensures { result ≡ vertex_scan form }
{
    match form {
        Form::OnGrid(_) => Scan::Coordinate(Corner::X),
        Form::OfGraph(_, vertices) => Scan::Due(Field::VertexNumber(vertices)),
    }
}
