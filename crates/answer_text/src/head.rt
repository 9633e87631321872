//! What the first lines of an answer tell.

/// What is told of the concatenation: the full Steiner trees that were chosen to join all terminals together.
#[derive(Clone, Copy, Debug)]
pub struct ConcatNote {
    /// Whether no concatenation has a smaller total. Else the search for one was stopped, its allowance spent.
    pub least: bool,
    /// The total length of the chosen trees, below 2^128.
    pub total: u128,
}

/// What an answer says of itself before its network and its tree.
#[derive(Clone, Copy, Debug)]
pub struct AnswerHead {
    /// The length of the network.
    pub length: u64,
    /// The bound: no network is said to be shorter.
    pub bound: u64,
    /// Whether bound and length agree.
    pub optimal: bool,
    /// How many openings, which are splits of the tree, the search was allowed: 0 to 255.
    pub openings: u8,
    /// The note on the concatenation. Nothing is told of it in a graph: then it is not least, and its total is 0.
    pub concat: ConcatNote,
}

impl Default for ConcatNote {
    ghost use Rattle.std.specs.Prelude.{◌≡◌};
    ghost use Rattle.answer_text.specs.Notes.{no_note};

    ghost is_default = { λ note. note ≡ no_note };

    /// A note of which nothing was told.
    fn default() -> ConcatNote {
        ConcatNote {
            least: false,
            total: 0,
        }
    }
}

impl Default for AnswerHead {
    ghost use Rattle.std.specs.Prelude.{◌≡◌};
    ghost use Rattle.answer_text.specs.Events.{no_head};

    ghost is_default = { λ head. head ≡ no_head };

    /// A head of which nothing was told.
    fn default() -> AnswerHead {
        AnswerHead {
            length: 0,
            bound: 0,
            optimal: false,
            openings: 0,
            concat: ConcatNote::default(),
        }
    }
}
