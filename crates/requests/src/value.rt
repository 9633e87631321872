//! The values of arguments, as `clap` matched them.

ghost use Rattle.std.specs.Prelude.{◌≡◌, codes, option_map};
ghost use Rattle.clap.specs.Words.{first_of, found_of, rows_of};
ghost use Rattle.requests.specs.Values.{number_in, truth_in, ascent_in, split_in};
ghost use Rattle.requests.specs.Requests.{drawing_in, search_in, graph_in};

use crate::request::Drawing;
use clap::ArgMatches;
use search_rules::{AscentRule, GraphOptions, SearchOptions, SplitRule};

/// The text of the argument `id`.
pub(crate) fn text<'a>(matches: &ArgMatches<'a>, id: &str) -> Option<&'a str>
    ensures { option_map (λ s. s.now) result ≡ first_of id.now (rows_of (found_of matches.now)) }
{
    matches.get_str(id)
}

/// The most members of a tree, by `--size`.
pub(crate) fn size(matches: &ArgMatches<'_>) -> Option<u8>
    ensures { result ≡ number_in 8 (codes "size") (rows_of (found_of matches.now)) }
{
    byte(matches, "size")
}

// The number of the argument `id`, below 2^8.
fn byte(matches: &ArgMatches<'_>, id: &str) -> Option<u8>
    ensures { result ≡ number_in 8 id.now (rows_of (found_of matches.now)) }
{
    matches.get_one(id)
}

/// Whether the flag `id` is given.
pub(crate) fn flag(matches: &ArgMatches<'_>, id: &str) -> Option<bool>
    ensures { result ≡ truth_in id.now (rows_of (found_of matches.now)) }
{
    matches.get_one(id)
}

// The number of the argument `id`, below 2^32.
fn number(matches: &ArgMatches<'_>, id: &str) -> Option<u32>
    ensures { result ≡ number_in 32 id.now (rows_of (found_of matches.now)) }
{
    matches.get_one(id)
}

// The number of the argument `id`, below 2^64.
fn large_number(matches: &ArgMatches<'_>, id: &str) -> Option<u64>
    ensures { result ≡ number_in 64 id.now (rows_of (found_of matches.now)) }
{
    matches.get_one(id)
}

/// The rule that `--ascent` names.
pub(crate) fn ascent(matches: &ArgMatches<'_>) -> Option<AscentRule>
    ensures { result ≡ ascent_in (rows_of (found_of matches.now)) }
{
    matches.get_one("ascent")
}

/// The number of `--above`, where it is given.
pub(crate) fn above(matches: &ArgMatches<'_>) -> Option<u64>
    ensures { result ≡ number_in 64 (codes "above") (rows_of (found_of matches.now)) }
{
    large_number(matches, "above")
}

// The number of `--openings`.
fn openings(matches: &ArgMatches<'_>) -> Option<u8>
    ensures { result ≡ number_in 8 (codes "openings") (rows_of (found_of matches.now)) }
{
    byte(matches, "openings")
}

// The rule that `--split` names.
fn split(matches: &ArgMatches<'_>) -> Option<SplitRule>
    ensures { result ≡ split_in (rows_of (found_of matches.now)) }
{
    matches.get_one("split")
}

/// The points to draw.
pub(crate) fn drawing(matches: &ArgMatches<'_>) -> Option<Drawing>
    ensures { result ≡ drawing_in (rows_of (found_of matches.now)) }
{
    Some(Drawing {
        count: byte(matches, "count")?,
        seed: large_number(matches, "seed")?,
    })
}

/// How a network is searched for.
pub(crate) fn search(matches: &ArgMatches<'_>) -> Option<SearchOptions>
    ensures { result ≡ search_in (rows_of (found_of matches.now)) }
{
    Some(SearchOptions {
        openings: openings(matches)?,
        concat: number(matches, "concat")?,
        ascent: ascent(matches)?,
        split: split(matches)?,
    })
}

/// How a network of a graph is searched for.
pub(crate) fn graph(matches: &ArgMatches<'_>) -> Option<GraphOptions>
    ensures { result ≡ graph_in (rows_of (found_of matches.now)) }
{
    Some(GraphOptions {
        openings: openings(matches)?,
        ascent: ascent(matches)?,
        split: split(matches)?,
    })
}
