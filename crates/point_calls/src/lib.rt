//! Rows of calls on points, grids, full Steiner trees, texts, STP files and answers. What a row gives and what comes of
//! it: docs/ROWS.md.
#![tactic(auto)]

pub mod answer;
pub mod grid;
pub mod task;
pub mod text;
pub mod tree;
