//! What a caller may choose of a search.

ghost use Rattle.std.specs.Prelude.{◌≡◌};
ghost use Rattle.search_rules.specs.Options.{in_graph};

use crate::rules::{AscentRule, SplitRule};

/// What a caller may choose of a search.
#[derive(Clone, Copy)]
pub struct SearchOptions {
    /// How many splits the tree of an answer has at most.
    pub openings: u8,
    /// How many splits the search for a least concatenation may make, up to 20,000.
    pub concat: u32,
    /// Which candidate an ascent takes.
    pub ascent: AscentRule,
    /// What a leaf is split on.
    pub split: SplitRule,
}

impl SearchOptions {
    /// What is chosen where no word asks for anything else.
    pub const USUAL: SearchOptions = SearchOptions {
        openings: 100,
        concat: 4000,
        ascent: AscentRule::Least,
        split: SplitRule::Longest,
    };

    /// The same choices without that of concatenations.
    pub fn in_graph(self) -> GraphOptions
        ensures { result ≡ in_graph self }
    {
        GraphOptions {
            openings: self.openings,
            ascent: self.ascent,
            split: self.split,
        }
    }
}

/// What a caller may choose of a search in a graph.
#[derive(Clone, Copy)]
pub struct GraphOptions {
    /// How many splits the tree of an answer has at most.
    pub openings: u8,
    /// Which candidate an ascent takes.
    pub ascent: AscentRule,
    /// What a leaf is split on.
    pub split: SplitRule,
}

impl GraphOptions {
    /// What is chosen where no word asks for anything else.
    pub const USUAL: GraphOptions = GraphOptions {
        openings: 100,
        ascent: AscentRule::Least,
        split: SplitRule::Longest,
    };
}
