//! The end of a line.

ghost use Rattle.std.specs.Prelude.{◌≡◌, ℕ, ◌<◌, ◌≤◌, ◌^◌, ◌+◌, ◌-◌, Bool, Some, None, IfSome, IfNone};
ghost use Rattle.answer_text.specs.declared.label.EdgeLabel.{EdgeLabel};
ghost use Rattle.answer_text.specs.declared.label.VertexLabel.{VertexLabel};
ghost use Rattle.answer_text.specs.declared.head.AnswerHead.{AnswerHead};
ghost use Rattle.answer_text.specs.LineKinds as line_of;
ghost use Rattle.answer_text.specs.declared.scan.Corner.TheVariants as corner_of;
ghost use Rattle.answer_text.specs.declared.scan.Field.TheVariants as field_of;
ghost use Rattle.answer_text.specs.declared.scan.Scan.TheVariants as scan_of;
ghost use Rattle.answer_text.specs.declared.line.Stage.{Stage};
ghost use Rattle.answer_text.specs.Lines.{step, nodes_due};
ghost use Rattle.answer_text.specs.Scanning.{Closes, IsInField, IsNoLineLeft, IsSound, MakesLine, name_line, signed};
ghost use Rattle.answer_text.specs.Spelling.{FitsName};

use crate::event::Event;
use crate::head::{AnswerHead, ConcatNote};
use crate::label::{EdgeLabel, VertexLabel};
use crate::line::Stage;
use crate::scan::byte::with_sign;
use crate::scan::{Closed, Corner, Field, Kept, Scan};
use crate::split::SplitName;
use points_in::Point;

// Ends the line: notes what it tells of the head and what is due behind it, and tells its event, if it is one. None
// where what was read is no line that is due.
pub(crate) fn close_line(
    kept: &mut Kept,
    head: &mut AnswerHead,
    scan: Scan,
) -> Option<Option<Event>>
    requires { nodes_due kept.old.stage < 2 ^ 64 - 1 }
    ensures closes { IfSome result (λ told. IsSound kept.old scan → FitsName kept.old.name →
        Closes kept.old scan head.old kept.new head.new told) }
    ensures none { IfNone result (IsSound kept.old scan → IsNoLineLeft kept.old scan) }
    ensures few { nodes_due kept.new.stage ≤ nodes_due kept.old.stage + 1 }
    ensures refused { scan ≡ scan_of.Refused → result ≡ None }
{
    match scan {
        Scan::LineEnd(closed) => Some(close_word(kept, head, closed)),
        Scan::Number(field, value) => close_number(kept, head, field, value),
        Scan::Set(place) => close_set(kept, place),
        _ => None,
    }
}

// Ends a line whose last word was read whole.
fn close_word(kept: &mut Kept, head: &mut AnswerHead, closed: Closed) -> Option<Event>
    ensures closes { FitsName kept.old.name →
        Closes kept.old (scan_of.LineEnd closed) head.old kept.new head.new result }
    ensures few { nodes_due kept.new.stage ≤ nodes_due kept.old.stage + 1 }
{
    match closed {
        Closed::Title(version) => {
            kept.version = version;
            kept.stage = Stage::Length;
            None
        }
        Closed::Status(optimal) => {
            head.optimal = optimal;
            kept.stage = Stage::Openings;
            None
        }
        Closed::Tree => {
            kept.stage = Stage::Body(0, 1);
            Some(Event::Tree)
        }
        Closed::End => {
            kept.stage = Stage::Done;
            Some(Event::End)
        }
    }
}

// Ends a line whose last word is a number.
fn close_number(
    kept: &mut Kept,
    head: &mut AnswerHead,
    field: Field,
    value: u128,
) -> Option<Option<Event>>
    requires { nodes_due kept.old.stage < 2 ^ 64 - 1 }
    ensures closes { IfSome result (λ told. IsInField field value → FitsName kept.old.name →
        Closes kept.old (scan_of.Number field value) head.old kept.new head.new told) }
    ensures none { IfNone result (IsInField field value → IsNoLineLeft kept.old (scan_of.Number field value)) }
    ensures few { nodes_due kept.new.stage ≤ nodes_due kept.old.stage + 1 }
{
    match field {
        Field::Length => {
            head.length = u64::try_from(value).ok()?;
            kept.stage = Stage::Bound;
            Some(None)
        }
        Field::Bound => {
            head.bound = u64::try_from(value).ok()?;
            kept.stage = Stage::Status;
            Some(None)
        }
        Field::Openings => {
            head.openings = u8::try_from(value).ok()?;
            kept.stage = Stage::Concat;
            Some(None)
        }
        Field::LastOpenings => {
            head.openings = u8::try_from(value).ok()?;
            kept.stage = Stage::Count;
            Some(Some(Event::Head(*head)))
        }
        Field::Total(least) => {
            head.concat = ConcatNote {
                least,
                total: value,
            };
            kept.stage = Stage::Count;
            Some(Some(Event::Head(*head)))
        }
        Field::Count(_) => {
            let edges = u32::try_from(value).ok()?;
            kept.stage = Stage::Edges(edges);
            Some(Some(Event::EdgeCount(edges)))
        }
        Field::Leaf => close_leaf(kept, u32::try_from(value).ok()?),
        Field::EdgeNumber(_) => close_edge(kept, EdgeLabel::Number(u32::try_from(value).ok()?)),
        Field::VertexNumber(_) => {
            close_vertex(kept, VertexLabel::Number(u32::try_from(value).ok()?))
        }
        Field::Coordinate(corner, minus) => close_coordinate(kept, corner, minus, value),
        Field::Weight => None,
    }
}

// Ends the line of a leaf of so many cuts.
fn close_leaf(kept: &mut Kept, cuts: u32) -> Option<Option<Event>>
    ensures closes { IfSome result (λ told. (h : AnswerHead) → FitsName kept.old.name →
        Closes kept.old (scan_of.Number field_of.Leaf cuts) h kept.new h told) }
    ensures none { IfNone result ((s' : Stage) → step kept.old.stage (line_of.Leaf cuts) ≡ Some s' → ⊥) }
    ensures few { nodes_due kept.new.stage ≤ nodes_due kept.old.stage + 1 }
{
    let Stage::Body(_, nodes) = kept.stage else {
        return None;
    };
    kept.stage = Stage::Body(cuts, nodes.checked_sub(1)?);
    Some(Some(Event::Leaf(cuts)))
}

// Ends a line whose last word is a coordinate.
fn close_coordinate(
    kept: &mut Kept,
    corner: Corner,
    minus: bool,
    value: u128,
) -> Option<Option<Event>>
    requires { nodes_due kept.old.stage < 2 ^ 64 - 1 }
    ensures closes { IfSome result (λ told. (h : AnswerHead) → IsInField (field_of.Coordinate corner minus) value →
        FitsName kept.old.name →
        Closes kept.old (scan_of.Number (field_of.Coordinate corner minus) value) h kept.new h told) }
    ensures none { IfNone result (IsInField (field_of.Coordinate corner minus) value →
        IsNoLineLeft kept.old (scan_of.Number (field_of.Coordinate corner minus) value)) }
    ensures few { nodes_due kept.new.stage ≤ nodes_due kept.old.stage + 1 }
{
    match corner {
        Corner::Y2 => close_name(kept, with_sign(minus, value)?),
        Corner::Y => close_point(kept, with_sign(minus, value)?),
        _ => None,
    }
}

// Ends a line whose last word is the last coordinate of an edge's ends.
fn close_name(kept: &mut Kept, last: i64) -> Option<Option<Event>>
    requires { nodes_due kept.old.stage < 2 ^ 64 - 1 }
    ensures closes { IfSome result (λ told. (h : AnswerHead) (minus : Bool) (value : ℕ) → last ≡ signed minus value →
        IsInField (field_of.Coordinate corner_of.Y2 minus) value → FitsName kept.old.name →
        Closes kept.old (scan_of.Number (field_of.Coordinate corner_of.Y2 minus) value) h kept.new h told) }
    ensures none { IfNone result ((e : EdgeLabel) (s' : Stage) →
        step kept.old.stage (name_line kept.old.version kept.old.stage e) ≡ Some s' → ⊥) }
    ensures few { nodes_due kept.new.stage ≤ nodes_due kept.old.stage + 1 }
{
    kept.name.y2 = last;
    close_edge(kept, EdgeLabel::Ends(kept.name))
}

// Ends the line of an edge of the network, or of a split on an edge.
fn close_edge(kept: &mut Kept, label: EdgeLabel) -> Option<Option<Event>>
    requires { nodes_due kept.old.stage < 2 ^ 64 - 1 }
    ensures makes { IfSome result (λ told.
        MakesLine kept.old (name_line kept.old.version kept.old.stage label) kept.new told) }
    ensures none { IfNone result ((e : EdgeLabel) (s' : Stage) →
        step kept.old.stage (name_line kept.old.version kept.old.stage e) ≡ Some s' → ⊥) }
    ensures few { nodes_due kept.new.stage ≤ nodes_due kept.old.stage + 1 }
{
    match kept.stage {
        Stage::Edges(edges) => {
            kept.stage = Stage::Edges(edges.checked_sub(1)?);
            Some(Some(Event::Edge(label)))
        }
        Stage::Body(cuts, nodes) => {
            kept.stage = Stage::Body(cuts, nodes + 1);
            Some(Some(Event::Split(SplitName::Edge(label))))
        }
        _ => None,
    }
}

// Ends a line whose last word is the last coordinate of a vertex's point.
fn close_point(kept: &mut Kept, last: i64) -> Option<Option<Event>>
    requires { nodes_due kept.old.stage < 2 ^ 64 - 1 }
    ensures closes { IfSome result (λ told. (h : AnswerHead) (minus : Bool) (value : ℕ) → last ≡ signed minus value →
        IsInField (field_of.Coordinate corner_of.Y minus) value → FitsName kept.old.name →
        Closes kept.old (scan_of.Number (field_of.Coordinate corner_of.Y minus) value) h kept.new h told) }
    ensures none { IfNone result ((p : VertexLabel) (s' : Stage) →
        step kept.old.stage (line_of.SplitVertex p) ≡ Some s' → ⊥) }
    ensures few { nodes_due kept.new.stage ≤ nodes_due kept.old.stage + 1 }
{
    kept.name.y1 = last;
    let point = Point {
        x: kept.name.x1,
        y: last,
    };
    close_vertex(kept, VertexLabel::At(point))
}

// Ends the line of a split on a vertex.
fn close_vertex(kept: &mut Kept, label: VertexLabel) -> Option<Option<Event>>
    requires { nodes_due kept.old.stage < 2 ^ 64 - 1 }
    ensures makes { IfSome result (λ told. MakesLine kept.old (line_of.SplitVertex label) kept.new told) }
    ensures none { IfNone result ((p : VertexLabel) (s' : Stage) →
        step kept.old.stage (line_of.SplitVertex p) ≡ Some s' → ⊥) }
    ensures few { nodes_due kept.new.stage ≤ nodes_due kept.old.stage + 1 }
{
    let Stage::Body(cuts, nodes) = kept.stage else {
        return None;
    };
    kept.stage = Stage::Body(cuts, nodes + 1);
    Some(Some(Event::Split(SplitName::Vertex(label))))
}

// Ends a cut's line, of whose set so many digits were read.
fn close_set(kept: &mut Kept, place: u32) -> Option<Option<Event>>
    ensures closes { IfSome result (λ told. (h : AnswerHead) → IsSound kept.old (scan_of.Set place) →
        FitsName kept.old.name → Closes kept.old (scan_of.Set place) h kept.new h told) }
    ensures none { IfNone result (IsSound kept.old (scan_of.Set place) → IsNoLineLeft kept.old (scan_of.Set place)) }
    ensures few { nodes_due kept.new.stage ≤ nodes_due kept.old.stage + 1 }
{
    if place < kept.members.len().div_ceil(4) {
        return None;
    }
    let Stage::Body(cuts, nodes) = kept.stage else {
        return None;
    };
    kept.stage = Stage::Body(cuts.checked_sub(1)?, nodes);
    Some(Some(Event::Cut(kept.weight)))
}
