//! The rules that an option chooses by its name.

ghost use Rattle.search_rules.specs.Names.{IsNamed, ascent_named, split_named};

use std::str::FromStr;

/// Which candidate an ascent takes: a required vertex, with the number of the vertices of its cut as its size.
#[derive(Clone, Copy)]
pub enum AscentRule {
    /// `least`: the one of the smallest size, and of these the lowest vertex.
    Least,
    /// `first`: the lowest vertex.
    First,
}

/// What a leaf is split on.
#[derive(Clone, Copy)]
pub enum SplitRule {
    /// `longest`: the longest edge, and of these the one of the lowest number.
    Longest,
    /// `first`: the edge of the lowest number.
    First,
    /// `vertex`: the vertex at which most edges of the leaf's network meet, and of these the one of the lowest number;
    /// where there is none, the longest edge.
    Vertex,
}

/// A word that names no rule.
#[derive(Clone, Copy)]
pub struct UnknownRule;

impl FromStr for AscentRule {
    type Err = UnknownRule;

    ghost from_str_gives = { λ text r. IsNamed (ascent_named text) r };

    fn from_str(text: &str) -> Result<AscentRule, UnknownRule> {
        match text {
            "least" => Ok(AscentRule::Least),
            "first" => Ok(AscentRule::First),
            _ => Err(UnknownRule),
        }
    }
}

impl FromStr for SplitRule {
    type Err = UnknownRule;

    ghost from_str_gives = { λ text r. IsNamed (split_named text) r };

    fn from_str(text: &str) -> Result<SplitRule, UnknownRule> {
        match text {
            "longest" => Ok(SplitRule::Longest),
            "first" => Ok(SplitRule::First),
            "vertex" => Ok(SplitRule::Vertex),
            _ => Err(UnknownRule),
        }
    }
}
