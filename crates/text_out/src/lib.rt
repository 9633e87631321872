//! One layer for stated texts over any sink, which takes no memory.
//!
//! A text is written piece by piece over a [`Block`] and a sink, and ended by [`finish`]. A piece tells no
//! failure: the block remembers it, nothing more is written from then on, and `finish` returns it. So a writer
//! of a text has one clause,
//!
//! ```text
//! ensures { Gathers (S.state sink.old) block.old TEXT (S.state sink.new) block.new }
//! ```
//!
//! where `TEXT` joins the texts of what it calls, by `++` in any grouping. Under
//! `#[tactic(auto, using(text_out::specs::GatherLaws::pieces))]` two to eight calls need no proof file. A loop
//! that writes `text_of` of each item has the text `flat_map text_of items.now`, and as its invariant the clause
//! with `flat_map text_of (take l.item-index l.items)`, from `l.initial.sink` and `l.initial.block`. A function
//! that makes the block, calls one to three writers and ends in `finish` has the clause
//! `Writes (S.state sink.old) TEXT (S.state sink.new) result` of `rst_outside`.
#![tactic(auto)]

mod block;
mod pieces;

pub use block::{Block, finish};
pub use pieces::{literal, number, signed};
