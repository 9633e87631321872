//! The judge of an answer's steps, one after another.

ghost use Rattle.std.specs.Prelude.{ℕ, ◌≡◌, ◌≤◌, List, Bool, Option, Some, IfSome, IfNone, false, length, replicate};
ghost use Rattle.net_graph.specs.Graph.{Graph};
ghost use Rattle.net_graph.specs.Decision.{Decided};
ghost use Rattle.cert_tree.specs.Decisions.{IsUndecidedSplit};
ghost use Rattle.tree_judge.specs.Ends.{EndsWith};
ghost use Rattle.tree_judge.specs.Judged.{SoFar, Passes, Fails, IsNetworkRight, IsNetworkWrong};
ghost use Rattle.tree_judge.specs.Judged.{bound_found, decision_due, nothing_told, with_cuts_due, with_split};
ghost use Rattle.tree_judge.specs.Room.{nothing_kept};
ghost use Rattle.tree_judge.specs.Splits.{MaySplitOn, SplitOnFault};
ghost use Rattle.tree_judge.specs.Standing.{IsJudgeOn, StandsFor, network_of};
ghost use Rattle.tree_judge.specs.Steps.{IsSplitIn, IsStepIn};

use crate::border::Border;
use crate::cause::Cause;
use crate::claim::Claim;
use crate::decided::is_split_undecided;
use crate::edges::EdgesRead;
use crate::end::judged_end;
use crate::leaf::read_cut;
use crate::network::network_fault;
use crate::path::MOST_SPLITS;
use crate::room::Room;
use crate::step::Step;
use crate::way::{go_on, go_outside, length_inside};
use cert_tree::SplitOn;
use net_graph::{EdgeSet, NetGraph, VertexSet};

/// A judge of an answer on a graph, which is told the answer's steps one after another. It takes no memory: it works in
/// the room that it is handed. It keeps what stands for the steps so far.
#[derive(Drop)]
pub struct Judge {
    /// What the answer claims.
    claim: Claim,
    /// How many edges are still due.
    edges_due: u32,
    edges: EdgesRead,
    /// How many splits there were, at most 255.
    splits: u32,
    /// How many cuts of the leaf are still due.
    cuts_due: u32,
    /// The loads of the leaf's cuts, and the way to the leaf.
    room: Room,
    /// The sum of the weights of the leaf's cuts, or 2^64-1 where it is more.
    weight: u64,
    /// The least value of the leaves before, or 2^64-1 where it is more.
    least: u64,
}

impl Judge {
    /// A judge before the first step. It is handed an empty set of the graph's edges for the network, and a room for
    /// the graph in which nothing was judged. The graph has at most 255 terminals.
    pub fn begin(g: &NetGraph, network: EdgeSet, room: Room) -> Judge
        requires network { network ≡ replicate (length g.now.edges) false }
        requires terminals { length g.now.terminals ≤ 255 }
        requires room { room ≡ nothing_kept (length g.now.edges) g.now.vertices }
        ensures sizes { IsJudgeOn g.now result }
        ensures nothing { StandsFor g.now (nothing_told g.now) result }
    {
        Judge {
            claim: Claim {
                length: 0,
                bound: 0,
                optimal: false,
            },
            edges_due: 0,
            edges: EdgesRead::begin(network),
            splits: 0,
            cuts_due: 0,
            room,
            weight: 0,
            least: u64::MAX,
        }
    }

    /// Judges the next step, which a line tells; the members are those of a cut. Gives why the line is wrong, if it is.
    pub fn judge<B: Border>(
        &mut self,
        g: &NetGraph,
        border: &B,
        line: u64,
        step: Step,
        members: &VertexSet,
    ) -> Option<Cause>
        requires sizes { IsJudgeOn g.now self.old }
        requires border { B.is_of g.now border.now }
        requires step { IsStepIn g.now step }
        requires members { length members.now ≡ g.now.vertices }
        ensures sizes { IsJudgeOn g.now self.new }
        ensures passes { IfNone result ((s : SoFar) → StandsFor g.now s self.old
            → (s' : SoFar) × Passes g.now s step (Some members.now) s' × StandsFor g.now s' self.new) }
        ensures fault { IfSome result (λ cause. (s : SoFar) → StandsFor g.now s self.old
            → Fails g.now s line step (Some members.now) cause (network_of self.new)) }
    {
        match step {
            Step::Claims(claim) => {
                self.claim = claim;
                None
            }
            Step::EdgeCount(count) => {
                self.edges_due = count;
                self.judge_network(g)
            }
            Step::Edge(edge) => self.judge_edge(g, line, edge),
            Step::Tree | Step::End => None,
            Step::Split(on) => self.judge_split(g, line, on),
            Step::Leaf(count) => {
                self.set_cuts_due(g, count);
                None
            }
            Step::Cut(weight) => self.judge_cut(g, border, line, weight, members),
        }
    }

    // Judges an edge.
    fn judge_edge(&mut self, g: &NetGraph, line: u64, edge: u32) -> Option<Cause>
        requires sizes { IsJudgeOn g.now self.old }
        requires edge { IsStepIn g.now (Step.Edge edge) }
        ensures sizes { IsJudgeOn g.now self.new }
        ensures passes { IfNone result ((s : SoFar) (members : Option (List Bool)) → StandsFor g.now s self.old
            → (s' : SoFar) × Passes g.now s (Step.Edge edge) members s' × StandsFor g.now s' self.new) }
        ensures fault { IfSome result (λ cause. (s : SoFar) (members : Option (List Bool)) → StandsFor g.now s self.old
            → Fails g.now s line (Step.Edge edge) members cause self.new.edges) }
    {
        if let Some(cause) = self.edges.read(g, line, edge) {
            return Some(cause);
        }
        self.edges_due = self.edges_due.saturating_sub(1);
        self.judge_network(g)
    }

    // Judges the edges, where none is due any more.
    fn judge_network(&mut self, g: &NetGraph) -> Option<Cause>
        requires sizes { IsJudgeOn g.now self.old }
        ensures same { self.new ≡ self.old }
        ensures passes { IfNone result ((s : SoFar) → StandsFor g.now s self.old → IsNetworkRight g.now s) }
        ensures fault { IfSome result (λ cause. (s : SoFar) → StandsFor g.now s self.old
            → IsNetworkWrong g.now s cause) }
    {
        if self.edges_due > 0 {
            return None;
        }
        network_fault(
            &mut self.room.search,
            g,
            self.claim.length,
            self.edges.network(),
        )
    }

    // Judges a split.
    fn judge_split(&mut self, g: &NetGraph, line: u64, on: SplitOn) -> Option<Cause>
        requires sizes { IsJudgeOn g.now self.old }
        requires on { IsSplitIn g.now on }
        ensures sizes { IsJudgeOn g.now self.new }
        ensures passes { IfNone result ((s : SoFar) → StandsFor g.now s self.old
            → MaySplitOn g.now (decision_due g.now s) s.splits on × StandsFor g.now (with_split g.now s on) self.new) }
        ensures fault { IfSome result (λ cause. (s : SoFar) → StandsFor g.now s self.old
            → SplitOnFault g.now (decision_due g.now s) s.splits on line cause) }
        ensures edges { self.new.edges ≡ self.old.edges }
    {
        if !is_split_undecided(&self.room.way.decided, g, on) {
            return Some(decided_cause(line, on));
        }
        if self.splits >= MOST_SPLITS {
            return Some(Cause::TooDeep(line));
        }
        go_outside(&mut self.room.way, g, on);
        self.splits += 1;
        None
    }

    // Judges a cut.
    fn judge_cut<B: Border>(
        &mut self,
        g: &NetGraph,
        border: &B,
        line: u64,
        weight: u64,
        members: &VertexSet,
    ) -> Option<Cause>
        requires sizes { IsJudgeOn g.now self.old }
        requires border { B.is_of g.now border.now }
        requires members { length members.now ≡ g.now.vertices }
        ensures sizes { IsJudgeOn g.now self.new }
        ensures passes { IfNone result ((s : SoFar) → StandsFor g.now s self.old → (s' : SoFar)
            × Passes g.now s (Step.Cut weight) (Some members.now) s' × StandsFor g.now s' self.new) }
        ensures fault { IfSome result (λ cause. (s : SoFar) → StandsFor g.now s self.old
            → Fails g.now s line (Step.Cut weight) (Some members.now) cause self.new.edges) }
    {
        if let Some(cause) = read_cut(
            &mut self.room.loads,
            &self.room.way,
            g,
            border,
            line,
            weight,
            members,
        ) {
            return Some(cause);
        }
        self.weight = self.weight.saturating_add(weight);
        self.set_cuts_due(g, self.cuts_due.saturating_sub(1));
        None
    }

    // So many cuts of the leaf are due: where none is, it ends, and the next node is due.
    fn set_cuts_due(&mut self, g: &NetGraph, due: u32)
        requires sizes { IsJudgeOn g.now self.old }
        ensures sizes { IsJudgeOn g.now self.new }
        ensures stands { (s : SoFar) → StandsFor g.now s self.old
            → StandsFor g.now (with_cuts_due g.now s due) self.new }
        ensures edges { self.new.edges ≡ self.old.edges }
    {
        self.cuts_due = due;
        if due > 0 {
            return;
        }
        let value = self
            .weight
            .saturating_add(length_inside(&self.room.way.decided, g));
        self.least = self.least.min(value);
        self.weight = 0;
        self.room.loads.clear();
        go_on(&mut self.room.way, g);
    }

    /// The claim of the answer where it is right, behind the last step. An `Err` is why it is not.
    pub fn end(&self) -> Result<Claim, Cause>
        ensures { (g : Graph) (s : SoFar) → StandsFor g s self.now → EndsWith s.claim (bound_found s) result }
    {
        let length = self.claim.length;
        prove!(length <= u64::MAX);
        judged_end(self.claim, self.least.min(length))
    }

    /// The edges that were judged to be right, to be kept.
    pub fn into_network(self) -> EdgeSet
        ensures { result ≡ network_of self }
    {
        self.edges.into_network()
    }
}

// Why the line of a split is wrong that is on what is decided.
fn decided_cause(line: u64, on: SplitOn) -> Cause
    ensures { (g : Graph) (d : Decided) (splits : ℕ) → (IsUndecidedSplit g d on → ⊥)
        → SplitOnFault g d splits on line result }
{
    match on {
        SplitOn::Edge(edge) => Cause::Decided { line, edge },
        SplitOn::Vertex(vertex) => Cause::DecidedVertex { line, vertex },
    }
}
