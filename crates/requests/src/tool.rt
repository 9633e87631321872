//! The tools.

ghost use Rattle.std.specs.Prelude.{◌≡◌, IfOk, option_map};
ghost use Rattle.clap.specs.Words.{app_of, found_of, rows_of};
ghost use Rattle.requests.specs.Commands.{tool_named, command_of};
ghost use Rattle.requests.specs.Requests.{request_by, meaning};

use crate::request::Request;
use crate::{command, value};
use clap::{ArgMatches, Command};
use std::alloc::{AllocError, Global};

/// A tool of the program.
#[derive(Clone, Copy)]
pub(crate) enum Tool {
    Points,
    Stp2points,
    Rfst,
    Prunefst,
    Bb,
    Solve,
    Check,
    Dumpfst,
    Fst2graph,
    Plot,
    Trial,
    Upgrade,
    Graph,
    Checkgraph,
    Reduce,
    Obstacles,
    Slack,
}

impl Tool {
    /// The tool of this name.
    pub(crate) fn named(name: &str) -> Option<Tool>
        ensures { result ≡ tool_named name.now }
    {
        match name {
            "points" => Some(Tool::Points),
            "stp2points" => Some(Tool::Stp2points),
            "rfst" => Some(Tool::Rfst),
            "prunefst" => Some(Tool::Prunefst),
            "bb" => Some(Tool::Bb),
            "solve" => Some(Tool::Solve),
            "check" => Some(Tool::Check),
            "dumpfst" => Some(Tool::Dumpfst),
            "fst2graph" => Some(Tool::Fst2graph),
            "plot" => Some(Tool::Plot),
            "trial" => Some(Tool::Trial),
            "upgrade" => Some(Tool::Upgrade),
            "graph" => Some(Tool::Graph),
            "checkgraph" => Some(Tool::Checkgraph),
            "reduce" => Some(Tool::Reduce),
            "obstacles" => Some(Tool::Obstacles),
            "slack" => Some(Tool::Slack),
            _ => None,
        }
    }

    /// The simple command by which the words of the tool are read.
    pub(crate) fn command<'a>(self, alloc: Global) -> Result<Command<'a>, AllocError>
        ensures { IfOk result (λ command. app_of command ≡ command_of self) }
    {
        match self {
            Tool::Points => command::points(alloc),
            Tool::Stp2points => Ok(command::stp2points(alloc)),
            Tool::Rfst => command::rfst(alloc),
            Tool::Prunefst => Ok(command::prunefst(alloc)),
            Tool::Bb => command::bb(alloc),
            Tool::Solve => command::solve(alloc),
            Tool::Check => command::check(alloc),
            Tool::Dumpfst => command::dumpfst(alloc),
            Tool::Fst2graph => Ok(command::fst2graph(alloc)),
            Tool::Plot => command::plot(alloc),
            Tool::Trial => command::trial(alloc),
            Tool::Upgrade => command::upgrade(alloc),
            Tool::Graph => command::graph(alloc),
            Tool::Checkgraph => command::checkgraph(alloc),
            Tool::Reduce => command::reduce(alloc),
            Tool::Obstacles => command::obstacles(alloc),
            Tool::Slack => command::slack(alloc),
        }
    }

    /// What the tool is asked for by the matches of its command.
    pub(crate) fn request<'a>(self, matches: &ArgMatches<'a>) -> Option<Request<'a>>
        ensures { option_map meaning result ≡ request_by self (rows_of (found_of matches.now)) }
    {
        Some(match self {
            Tool::Points => Request::Points(value::drawing(matches)?),
            Tool::Stp2points => Request::Stp2points,
            Tool::Rfst => Request::Rfst {
                size: value::size(matches)?,
            },
            Tool::Prunefst => Request::Prunefst,
            Tool::Bb => Request::Bb(value::search(matches)?),
            Tool::Solve => Request::Solve {
                size: value::size(matches)?,
                search: value::search(matches)?,
            },
            Tool::Check => Request::Check {
                points: value::text(matches, "points")?,
            },
            Tool::Dumpfst => Request::Dumpfst {
                pieces: value::flag(matches, "pieces")?,
            },
            Tool::Fst2graph => Request::Fst2graph,
            Tool::Plot => Request::Plot {
                points: value::text(matches, "points")?,
            },
            Tool::Trial => Request::Trial(value::drawing(matches)?),
            Tool::Upgrade => Request::Upgrade {
                points: value::text(matches, "points")?,
            },
            Tool::Graph => Request::Graph(value::graph(matches)?),
            Tool::Checkgraph => Request::Checkgraph {
                graph: value::text(matches, "stp")?,
            },
            Tool::Reduce => Request::Reduce {
                solve: value::flag(matches, "solve")?,
            },
            Tool::Obstacles => Request::Obstacles {
                stp: value::flag(matches, "stp")?,
                search: value::graph(matches)?,
            },
            Tool::Slack => Request::Slack {
                above: value::above(matches),
                ascent: value::ascent(matches)?,
            },
        })
    }
}
