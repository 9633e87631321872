//! Where the rules at nodes apply.

ghost use Rattle.std.specs.Prelude.{◌≡◌, ℕ, ◌<◌, length, MatchOption};
ghost use Rattle.std.specs.Bool.{OnTrue, OnFalse};
ghost use Rattle.graph_reduce.specs.Step.{Applies};
ghost use Rattle.graph_reduce.specs.Survey.{AreMarked, IsNumbered, IsSurvey};
ghost use Rattle.graph_reduce.specs.Due.{HasAllAt};
ghost use Rattle.graph_reduce.specs.NodeRules.{rule_of, suits, IsOfKind, IsLowest};

use crate::node_edges::NodeEdges;
use crate::number_sets::{next_from, remove};
use crate::survey::Survey;
use crate::work::Work;
use std::collections::BTreeSet;

/// The rules at nodes.
#[derive(Clone, Copy)]
pub(crate) enum NodeRule {
    /// A node that is no terminal has at most one edge: it is dropped with its edge.
    Leaf,
    /// A node that is no terminal has two edges: they become one.
    Passed,
    /// A terminal has one edge, which is forced.
    TerminalLeaf,
}

impl NodeRule {
    /// Whether a node's edges are as the rule wants them.
    fn suits(self, edges: NodeEdges) -> bool
        ensures { result ≡ suits self edges }
    {
        match self {
            NodeRule::Leaf => matches!(edges, NodeEdges::NoEdge | NodeEdges::OneEdge(_)),
            NodeRule::Passed => matches!(edges, NodeEdges::TwoEdges(_, _)),
            NodeRule::TerminalLeaf => matches!(edges, NodeEdges::OneEdge(_)),
        }
    }
}

/// The lowest node at which the rule applies, where each of them is due. Other nodes that are met are taken out.
pub(crate) fn lowest(
    work: &Work,
    survey: &mut Survey,
    due: &mut BTreeSet<u32>,
    rule: NodeRule,
) -> Option<u32>
    requires numbered { IsNumbered work.now }
    requires survey { IsSurvey work.now survey.old.places.items survey.old.terminals }
    requires due { HasAllAt work.now rule due.old }
    ensures survey { IsSurvey work.now survey.new.places.items survey.new.terminals }
    ensures due { HasAllAt work.now rule due.new }
    ensures lowest { MatchOption result ((v : ℕ) → ¬ Applies work.now (rule_of rule) v) (IsLowest work.now rule) }
{
    while let Some(v) = next_from(due, 0) {
        if applies(work, survey, rule, v) {
            return Some(v);
        }
        remove(due, v);
    }
    None
}

// Whether there is such a node and the rule applies at it.
fn applies(work: &Work, survey: &mut Survey, rule: NodeRule, v: u32) -> bool
    requires numbered { IsNumbered work.now }
    requires survey { IsSurvey work.now survey.old.places.items survey.old.terminals }
    ensures survey { IsSurvey work.now survey.new.places.items survey.new.terminals }
    ensures yes { OnTrue result (Applies work.now (rule_of rule) v) }
    ensures no { OnFalse result (¬ Applies work.now (rule_of rule) v) }
    ensures node { OnTrue result (v < length work.now.nodes) }
{
    v < work.node_count() && applies_at(work, survey, rule, v)
}

// Whether the rule applies at the node.
fn applies_at(work: &Work, survey: &mut Survey, rule: NodeRule, v: u32) -> bool
    requires survey { IsSurvey work.now survey.old.places.items survey.old.terminals }
    requires node { v < length work.now.nodes }
    ensures survey { IsSurvey work.now survey.new.places.items survey.new.terminals }
    ensures yes { OnTrue result (Applies work.now (rule_of rule) v) }
    ensures no { OnFalse result (¬ Applies work.now (rule_of rule) v) }
{
    is_of_kind(work, survey, rule, v) && rule.suits(survey.edges_of(work, v))
}

// Whether the node is left and no terminal or, for the last rule, a terminal.
fn is_of_kind(work: &Work, survey: &Survey, rule: NodeRule, v: u32) -> bool
    requires marks { AreMarked work.now survey.now.terminals }
    requires node { v < length work.now.nodes }
    ensures yes { OnTrue result (IsOfKind work.now rule v) }
    ensures no { OnFalse result (¬ IsOfKind work.now rule v) }
{
    let terminal = survey.terminals.has(v);
    match rule {
        NodeRule::Leaf => !terminal && work.has_node(v),
        NodeRule::Passed => !terminal && work.has_node(v),
        NodeRule::TerminalLeaf => terminal,
    }
}
