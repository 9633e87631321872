//! Requests.

use search_rules::{AscentRule, GraphOptions, SearchOptions};

/// A tool of the program, with what its words tell it.
#[derive(Clone, Copy)]
pub enum Request<'a> {
    /// Prints drawn points.
    Points(Drawing),
    /// Reads an STP file and prints the points of its terminals.
    Stp2points,
    /// Reads points and prints the file of their full trees of up to `size` members, 2 to 8.
    Rfst {
        size: u8,
    },
    /// Reads a file of full trees and prints the file of those that pruning keeps.
    Prunefst,
    /// Reads a file of full trees and prints a network that is made of them.
    Bb(SearchOptions),
    /// Reads points and prints a network that joins them, made of full trees of up to `size` members, 2 to 8.
    Solve {
        size: u8,
        search: SearchOptions,
    },
    /// Judges an answer for the points of the file of this name.
    Check {
        points: &'a str,
    },
    /// Reads a file of full trees and prints a line for each of them, and behind it the tree's straight pieces where
    /// `pieces` says so.
    Dumpfst {
        pieces: bool,
    },
    /// Reads a file of full trees and prints the grid of its points as an STP file.
    Fst2graph,
    /// Plots the network of an answer for the points of the file of this name.
    Plot {
        points: &'a str,
    },
    /// Solves drawn points and checks the answer.
    Trial(Drawing),
    /// Brings an answer for the points of the file of this name to the newest version.
    Upgrade {
        points: &'a str,
    },
    /// Reads an STP file and prints a network of its graph.
    Graph(GraphOptions),
    /// Judges an answer in the graph of the STP file of this name.
    Checkgraph {
        graph: &'a str,
    },
    /// Reads an STP file and prints the reduction of its graph; where `solve` says so, a network of the graph that is
    /// found in the reduction.
    Reduce {
        solve: bool,
    },
    /// Reads points and boxes and prints a network that joins the points around the boxes; where `stp` says so, the
    /// graph that it is looked for in, as an STP file.
    Obstacles {
        stp: bool,
        search: GraphOptions,
    },
    /// Reads points and prints a bound for each edge of their grid; where `above` is a number, for those edges alone
    /// whose bound is above it.
    Slack {
        above: Option<u64>,
        ascent: AscentRule,
    },
}

/// Points to draw.
#[derive(Clone, Copy)]
pub struct Drawing {
    /// How many, 1 to 50.
    pub count: u8,
    /// What the generator starts from.
    pub seed: u64,
}
