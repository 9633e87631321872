//! The rules that words of rows name.

use row_tables::Fault;
use search_rules::{AscentRule, SplitRule};
use std::str::FromStr;

/// The rule of ascents that a word names.
pub fn ascent_rule(word: &str) -> Result<AscentRule, Fault> {
    match AscentRule::from_str(word) {
        Ok(rule) => Ok(rule),
        Err(_) => Err(Fault::NotAllowed),
    }
}

/// The rule of splits that a word names.
pub fn split_rule(word: &str) -> Result<SplitRule, Fault> {
    match SplitRule::from_str(word) {
        Ok(rule) => Ok(rule),
        Err(_) => Err(Fault::NotAllowed),
    }
}
