//! The network and the tree of an answer's text, of which the labels are all that is the grid's or the graph's own.

ghost use Rattle.std.specs.Prelude.{◌≡◌, ◌++◌, length, map, All};
ghost use Rattle.text_out.specs.Gathers.{Gathers};
ghost use Rattle.net_graph.specs.Members.{members_of};
ghost use Rattle.cert_tree.specs.Preorder.{nodes_of};
ghost use Rattle.answer_text.specs.declared.version.Version.TheVariants as version_of;
ghost use Rattle.answer_text.specs.Answers.{IsNodeOn, IsSplitOn, edge_labels, labelled, split_label};
ghost use Rattle.answer_text.specs.LineKinds as line_of;
ghost use Rattle.answer_text.specs.Lines.{lines_text, network_lines, proof_lines, tree_lines};
ghost use Rattle.answer_text.specs.Spelling.{FitsSplit};

use crate::answer::Answer;
use crate::labelled::Labelled;
use crate::naming::{write_edge, write_split};
use crate::split::SplitName;
use crate::write::{write_leaf, write_number};
use cert_tree::{CertTree, SplitOn};
use net_graph::EdgeSet;
use rst_outside::Sink;
use text_out::{Block, literal};

// The lines behind the head.
#[tactic(auto, using(text_out::specs::GatherLaws::pieces))]
pub(crate) fn write_body<S: Sink, L: Labelled>(
    block: &mut Block,
    sink: &mut S,
    of: &L,
    answer: &Answer,
)
    requires network { length answer.now.network ≡ length (L.graph of.now).edges }
    requires nodes { All (IsNodeOn (L.graph of.now)) (nodes_of answer.now.tree) }
    ensures { Gathers (S.state sink.old) block.old
        (lines_text (network_lines (edge_labels (L.labels of.now) (members_of answer.now.network))
        ++ proof_lines version_of.Two (labelled (L.labels of.now) answer.now.tree)))
        (S.state sink.new) block.new }
{
    write_network(block, sink, of, &answer.network);
    write_proof(block, sink, of, &answer.tree);
}

// The network: how many edges it has, and the edges.
#[tactic(auto, using(text_out::specs::GatherLaws::pieces))]
fn write_network<S: Sink, L: Labelled>(block: &mut Block, sink: &mut S, of: &L, network: &EdgeSet)
    requires { length network.now ≡ length (L.graph of.now).edges }
    ensures { Gathers (S.state sink.old) block.old
        (lines_text (network_lines (edge_labels (L.labels of.now) (members_of network.now))))
        (S.state sink.new) block.new }
{
    write_number(block, sink, b"edges ", count_of(network));
    write_edges(block, sink, of, network);
}

// How many edges the set has.
pub(crate) fn count_of(set: &EdgeSet) -> u32
    ensures { result ≡ length (members_of set.now) }
{
    let mut count = 0;
    for e in 0..set.len() {
        if set.has(e) {
            count += 1;
        }
    }
    count
}

// A line for each edge of the set, in ascending number.
fn write_edges<S: Sink, L: Labelled>(block: &mut Block, sink: &mut S, of: &L, network: &EdgeSet)
    requires { length network.now ≡ length (L.graph of.now).edges }
    ensures { Gathers (S.state sink.old) block.old
        (lines_text (map line_of.Edge (edge_labels (L.labels of.now) (members_of network.now))))
        (S.state sink.new) block.new }
{
    for e in 0..network.len() {
        if network.has(e) {
            write_edge(block, sink, &of.edge_label(e));
        }
    }
}

// The tree between the lines before it and after it.
#[tactic(auto, using(text_out::specs::GatherLaws::pieces))]
fn write_proof<S: Sink, L: Labelled>(block: &mut Block, sink: &mut S, of: &L, tree: &CertTree)
    requires { All (IsNodeOn (L.graph of.now)) (nodes_of tree.now) }
    ensures { Gathers (S.state sink.old) block.old
        (lines_text (proof_lines version_of.Two (labelled (L.labels of.now) tree.now)))
        (S.state sink.new) block.new }
{
    literal(block, sink, b"tree\n");
    write_tree(block, sink, of, tree);
    literal(block, sink, b"end\n");
}

// The nodes of a tree in preorder.
fn write_tree<S: Sink, L: Labelled>(block: &mut Block, sink: &mut S, of: &L, tree: &CertTree)
    requires { All (IsNodeOn (L.graph of.now)) (nodes_of tree.now) }
    ensures { Gathers (S.state sink.old) block.old
        (lines_text (tree_lines version_of.Two (labelled (L.labels of.now) tree.now)))
        (S.state sink.new) block.new }
{
    let mut leaf = 0;
    for node in tree.nodes() {
        match node {
            Some(on) => write_split(block, sink, &split_label(of, on)),
            None => {
                write_leaf(block, sink, tree.packing(leaf));
                leaf += 1;
            }
        }
    }
}

// The label of the edge or the vertex that a split is on.
pub(crate) fn split_label<L: Labelled>(of: &L, on: &SplitOn) -> SplitName
    requires { IsSplitOn (L.graph of.now) on.now }
    ensures name { result ≡ split_label (L.labels of.now) on.now }
    ensures fits { FitsSplit version_of.Two (L.form of.now) result }
{
    match on {
        SplitOn::Edge(edge) => SplitName::Edge(of.edge_label(*edge)),
        SplitOn::Vertex(vertex) => SplitName::Vertex(of.vertex_label(*vertex)),
    }
}
