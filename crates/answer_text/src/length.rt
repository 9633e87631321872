//! The lengths of the parts of an answer's text.

ghost use Rattle.std.specs.Prelude.{◌≡◌, ◌+◌, ◌*◌, ◌/◌, ◌<◌, ◌≤◌, ◌^◌, length, map, All};
ghost use Rattle.std.specs.Fmt.{decimal, signed_decimal};
ghost use Rattle.net_graph.specs.Graph.{IsGraph};
ghost use Rattle.net_graph.specs.Members.{members_of};
ghost use Rattle.answer_text.specs.declared.version.Version.TheVariants as version_of;
ghost use Rattle.answer_text.specs.LineKinds as line_of;
ghost use Rattle.answer_text.specs.Lines.{head_lines, leaf_lines, line_text, lines_text};
ghost use Rattle.answer_text.specs.Lines.{network_lines, split_line, tree_lines};
ghost use Rattle.answer_text.specs.Spelling.{FitsEdge, FitsHead, FitsWeight, SpellsAnswer};
ghost use Rattle.answer_text.specs.Text.{answer_text};
ghost use Rattle.cert_tree.specs.Preorder.{nodes_of, packings_of};
ghost use Rattle.answer_text.specs.Answers.{FitsNode, IsAnswerOn, IsNodeOn, IsPackingOn};
ghost use Rattle.answer_text.specs.Answers.{edge_labels, labelled, value_told};

use crate::answer::Answer;
use crate::body::{count_of, split_label};
use crate::head::{AnswerHead, ConcatNote};
use crate::label::{EdgeLabel, VertexLabel};
use crate::labelled::Labelled;
use crate::split::SplitName;
use crate::version::Version;
use crate::write::{kind_of, status_word, title_of};
use cert_tree::CertTree;
use itoa::Buffer;
use net_graph::{Cut, EdgeSet, Packing};

// The length of the lines before the tree and behind it, `tree` and `end`.
const AROUND_TREE: u64 = 9;

/// The length of the text that `write_answer` writes, which is below 2^32. It takes no memory. The text spells the
/// answer.
pub fn answer_len<L: Labelled>(of: &L, answer: &Answer) -> u64
    requires { IsAnswerOn (L.graph of.now) answer.now }
    ensures length { result ≡ length (answer_text (value_told (L.form of.now) (L.labels of.now) answer.now)) }
    ensures short { result < 2 ^ 32 }
    ensures spells { SpellsAnswer (L.form of.now)
        (answer_text (value_told (L.form of.now) (L.labels of.now) answer.now))
        (value_told (L.form of.now) (L.labels of.now) answer.now) }
{
    // A graph has few edges: so the sums stay within 64 bits.
    prove!(of.labelled_edges() <= 4900);
    head_len(of.version(), &answer.head)
        + network_len(of, &answer.network)
        + AROUND_TREE
        + tree_len(of, &answer.tree)
}

// The length of the network's part.
fn network_len<L: Labelled>(of: &L, network: &EdgeSet) -> u64
    requires size { length network.now ≡ length (L.graph of.now).edges }
    requires few { length network.now ≤ 4900 }
    ensures length { result
        ≡ length (lines_text (network_lines (edge_labels (L.labels of.now) (members_of network.now)))) }
    ensures short { result ≤ 50 + 164 * 4900 }
    ensures count { length (edge_labels (L.labels of.now) (members_of network.now)) < 2 ^ 32 }
    ensures fits { All (FitsEdge (L.form of.now)) (edge_labels (L.labels of.now) (members_of network.now)) }
{
    7 + number_len(u128::from(count_of(network))) + edges_len(of, network)
}

// The length of the lines of its edges.
fn edges_len<L: Labelled>(of: &L, network: &EdgeSet) -> u64
    requires size { length network.now ≡ length (L.graph of.now).edges }
    requires few { length network.now ≤ 4900 }
    ensures length { result
        ≡ length (lines_text (map line_of.Edge (edge_labels (L.labels of.now) (members_of network.now)))) }
    ensures short { result ≤ 164 * 4900 }
    ensures fits { All (FitsEdge (L.form of.now)) (edge_labels (L.labels of.now) (members_of network.now)) }
{
    let mut sum = 0;
    for e in 0..network.len() {
        if network.has(e) {
            sum += edge_len(&of.edge_label(e));
        }
    }
    sum
}

// The length of a tree, of which no node has more than 12,760,297 bytes: a leaf's 19601 cuts have 651 each.
fn tree_len<L: Labelled>(of: &L, tree: &CertTree) -> u64
    requires sound { IsGraph (L.graph of.now) }
    requires nodes { All (IsNodeOn (L.graph of.now)) (nodes_of tree.now) }
    requires packings { All (IsPackingOn (L.graph of.now)) (packings_of tree.now) }
    ensures length { result ≡ length (lines_text (tree_lines version_of.Two (labelled (L.labels of.now) tree.now))) }
    ensures short { result ≤ 175 * length (nodes_of tree.now) + 12760297 * length (packings_of tree.now) }
    ensures names { All (FitsNode (L.form of.now) (L.labels of.now)) (nodes_of tree.now) }
    ensures weights { All (All FitsWeight) (packings_of tree.now) }
{
    let mut leaf = 0;
    let mut sum = 0;
    for node in tree.nodes() {
        match node {
            Some(on) => sum += split_len(&split_label(of, on)),
            None => {
                sum += leaf_len(tree.packing(leaf));
                leaf += 1;
            }
        }
    }
    sum
}

// How many digits a number has.
fn number_len(number: u128) -> u64
    ensures length { result ≡ length (decimal number) }
    ensures short { result ≤ 40 }
    ensures shorter { number < 2 ^ 64 → result ≤ 20 }
{
    Buffer::new().format(number).len() as u64
}

// How many bytes a signed number has.
fn signed_len(number: &i64) -> u64
    ensures length { result ≡ length (signed_decimal number.now) }
    ensures short { result ≤ 40 }
{
    Buffer::new().format(*number).len() as u64
}

// The length of the lines of a head, in a text of this version.
fn head_len(version: Version, head: &AnswerHead) -> u64
    ensures length { result ≡ length (lines_text (head_lines version head.now)) }
    ensures short { result ≤ 300 }
    ensures fits { FitsHead head.now }
{
    let numbers = number_len(u128::from(head.length))
        + number_len(u128::from(head.bound))
        + number_len(u128::from(head.openings));
    let words = title_of(version).len() as u64 + status_word(head.optimal).len() as u64;
    let note = note_len(&head.concat);
    34 + numbers + words + if version == Version::Graph { 0 } else { note }
}

// The length of the line of the note on the concatenation.
fn note_len(note: &ConcatNote) -> u64
    ensures length { result ≡ length (line_text (line_of.Concat note.now)) }
    ensures short { result ≤ 60 }
    ensures fits { note.now.total < 2 ^ 128 }
{
    let total = note.total;
    9 + kind_of(note.least).len() as u64 + number_len(total)
}

// The length of an edge's line.
fn edge_len(label: &EdgeLabel) -> u64
    ensures length { result ≡ length (line_text (line_of.Edge label.now)) }
    ensures short { result ≤ 164 }
{
    match label {
        EdgeLabel::Ends(name) => {
            4 + signed_len(&name.x1)
                + signed_len(&name.y1)
                + signed_len(&name.x2)
                + signed_len(&name.y2)
        }
        EdgeLabel::Number(number) => 1 + number_len(u128::from(*number)),
    }
}

// The length of a split's line.
fn split_len(name: &SplitName) -> u64
    ensures length { result ≡ length (line_text (split_line version_of.Two name.now)) }
    ensures short { result ≤ 175 }
{
    match name {
        SplitName::Edge(edge) => 11 + edge_len(edge),
        SplitName::Vertex(vertex) => vertex_len(vertex),
    }
}

// The length of the line of a split on a vertex.
fn vertex_len(label: &VertexLabel) -> u64
    ensures length { result ≡ length (line_text (line_of.SplitVertex label.now)) }
    ensures short { result ≤ 95 }
{
    match label {
        VertexLabel::At(point) => 15 + signed_len(&point.x) + signed_len(&point.y),
        VertexLabel::Number(number) => 14 + number_len(u128::from(*number)),
    }
}

// The length of a cut's line.
fn cut_len(cut: &Cut) -> u64
    ensures length { result ≡ length (line_text (line_of.Cut cut.now)) }
    ensures short { result ≤ 26 + (length cut.now.members + 3) / 4 }
    ensures fits { FitsWeight cut.now }
{
    let digits = u64::from(cut.members.len().div_ceil(4));
    6 + number_len(u128::from(cut.weight)) + digits
}

// The length of a leaf with its cuts, of which there are few of few vertices.
fn leaf_len(packing: &Packing) -> u64
    requires few { length packing.now ≤ 19601 }
    requires small { All (λ c. length c.members ≤ 2500) packing.now }
    ensures length { result ≡ length (lines_text (leaf_lines packing.now)) }
    ensures short { result ≤ 46 + 651 * length packing.now }
    ensures fits { All FitsWeight packing.now }
{
    6 + number_len(packing.len() as u128) + cuts_len(packing.cuts())
}

// The length of the lines of cuts.
fn cuts_len(cuts: &[Cut]) -> u64
    requires few { length cuts.now ≤ 19601 }
    requires small { All (λ c. length c.members ≤ 2500) cuts.now }
    ensures length { result ≡ length (lines_text (map line_of.Cut cuts.now)) }
    ensures short { result ≤ 651 * length cuts.now }
    ensures fits { All FitsWeight cuts.now }
{
    let mut sum = 0;
    for cut in cuts {
        sum += cut_len(cut);
    }
    sum
}
