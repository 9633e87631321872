//! Where a reader stands within a line, and the byte that comes next.

pub(crate) mod byte;
pub(crate) mod close;
pub(crate) mod number;
pub(crate) mod set;
pub(crate) mod start;
pub(crate) mod words;

use crate::form::Form;
use crate::line::Stage;
use crate::version::Version;
use hanan_grid::EdgeName;
use net_graph::VertexSet;

// What is kept of the line that is being read, and the line that was due when it began.
#[derive(Drop)]
pub(crate) struct Kept {
    pub stage: Stage,
    // The version that the title told; the first one before it was read.
    pub version: Version,
    // The coordinates that were read of a name; those of a vertex stand for its first end.
    pub name: EdgeName,
    // The weight and the members that were read of a cut.
    pub weight: u64,
    pub members: VertexSet,
}

// What is due of the line that is being read.
#[derive(Clone, Copy)]
pub(crate) enum Scan {
    // The byte of this place of a word.
    Word(Word, u8),
    // The first byte of one of two words: of a version, of a status, of what a total is, of a node in a text of this
    // version and form, or of what a split is on.
    Version,
    Status,
    Kind,
    Node(Version, Form),
    On(Form),
    // A number's first digit.
    Due(Field),
    // A coordinate's first digit, or the minus before it.
    Coordinate(Corner),
    // A number of which digits of this value were read.
    Number(Field, u128),
    // A set of which so many digits were read.
    Set(u32),
    // The end of the line.
    LineEnd(Closed),
    // No byte: the answer's text is at its end, or the text ceased to begin one.
    Ended,
    Refused,
}

// The words of the format.
#[derive(Clone, Copy)]
pub(crate) enum Word {
    // The title on a grid short of its version, and the whole title in a graph.
    Title,
    GraphTitle,
    Length,
    Bound,
    Status,
    Optimal,
    Stopped,
    // The word of the openings where the note on the concatenation follows, and where none does.
    Openings,
    LastOpenings,
    Concat,
    Least,
    Spent,
    // The word of the count of edges, of which there may be so many.
    Edges(u32),
    Tree,
    // The word of a split in a text of this version and form, and the words of what it is on.
    Split(Version, Form),
    Edge(Form),
    Vertex(Form),
    Leaf,
    Cut,
    End,
}

// What a number is.
#[derive(Clone, Copy)]
pub(crate) enum Field {
    Length,
    Bound,
    Openings,
    LastOpenings,
    // The total of a concatenation, and whether it is the least.
    Total(bool),
    // How many edges there are, at most so many.
    Count(u32),
    // The number of an edge or of a vertex, from 1 to so many.
    EdgeNumber(u32),
    VertexNumber(u32),
    Leaf,
    Weight,
    // A coordinate without its sign, and whether a minus stood before it.
    Coordinate(Corner, bool),
}

// The coordinates of a name, and those of a vertex.
#[derive(Clone, Copy)]
pub(crate) enum Corner {
    X1,
    Y1,
    X2,
    Y2,
    X,
    Y,
}

// Lines whose last word was read whole.
#[derive(Clone, Copy)]
pub(crate) enum Closed {
    Title(Version),
    Status(bool),
    Tree,
    End,
}
