//! What the lines of an answer tell a judge, whose labels are those of edges and vertices.

ghost use Rattle.std.specs.Prelude.{◌≡◌, IfOk, IfErr};
ghost use Rattle.tree_judge.specs.Steps.{IsStepIn};
ghost use Rattle.cert_check.specs.Named.{named_of};
ghost use Rattle.cert_check.specs.Resolved.{NameFault, ResolvesTo, claim_of};

use crate::subject::Subject;
use answer_text::{AnswerHead, EdgeLabel, Event, SplitName};
use cert_tree::SplitOn;
use tree_judge::{Cause, Claim, Step};

/// The step that a line tells. An `Err` is why the line is wrong where its label is that of nothing of the graph.
pub(crate) fn step_told(subject: Subject, line: u64, event: &Event) -> Result<Step, Cause>
    ensures step { IfOk result (λ step. ResolvesTo (named_of subject.entry) event.now (λ x. x ≡ step)) }
    ensures inside { IfOk result (IsStepIn (named_of subject.entry).graph) }
    ensures fault { IfErr result (NameFault (named_of subject.entry) line event.now) }
{
    match event {
        Event::Head(head) => Ok(Step::Claims(claim(head))),
        Event::EdgeCount(count) => Ok(Step::EdgeCount(*count)),
        Event::Edge(label) => edge_step(subject, line, label),
        Event::Tree => Ok(Step::Tree),
        Event::Split(name) => split_step(subject, line, name),
        Event::Leaf(count) => Ok(Step::Leaf(*count)),
        Event::Cut(weight) => Ok(Step::Cut(*weight)),
        Event::End => Ok(Step::End),
    }
}

// What a head claims.
fn claim(head: &AnswerHead) -> Claim
    ensures { result ≡ claim_of head.now }
{
    Claim {
        length: head.length,
        bound: head.bound,
        optimal: head.optimal,
    }
}

// The edge of the graph that a line names.
fn edge_step(subject: Subject, line: u64, label: &EdgeLabel) -> Result<Step, Cause>
    ensures step { IfOk result (λ step. ResolvesTo (named_of subject.entry) (Event.Edge label.now) (λ x. x ≡ step)) }
    ensures inside { IfOk result (IsStepIn (named_of subject.entry).graph) }
    ensures fault { IfErr result (NameFault (named_of subject.entry) line (Event.Edge label.now)) }
{
    match subject.edge_labelled(label) {
        Some(edge) => Ok(Step::Edge(edge)),
        None => Err(Cause::OffGrid(line)),
    }
}

// The split on an edge or a vertex of the graph that a line names.
fn split_step(subject: Subject, line: u64, name: &SplitName) -> Result<Step, Cause>
    ensures step { IfOk result (λ step. ResolvesTo (named_of subject.entry) (Event.Split name.now) (λ x. x ≡ step)) }
    ensures inside { IfOk result (IsStepIn (named_of subject.entry).graph) }
    ensures fault { IfErr result (NameFault (named_of subject.entry) line (Event.Split name.now)) }
{
    match name {
        SplitName::Edge(label) => match subject.edge_labelled(label) {
            Some(edge) => Ok(Step::Split(SplitOn::Edge(edge))),
            None => Err(Cause::OffGrid(line)),
        },
        SplitName::Vertex(label) => match subject.vertex_labelled(label) {
            Some(vertex) => Ok(Step::Split(SplitOn::Vertex(vertex))),
            None => Err(Cause::OffGridVertex(line)),
        },
    }
}
