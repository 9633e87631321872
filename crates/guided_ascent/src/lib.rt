//! Packings by an ascent that a network guides: only cuts that the network enters once are packed, so that their
//! value may come up to its length (after Wong 1984; the guide is this project's own). It proposes: what it packs is
//! judged by `packing_judge`.
#![tactic(auto)]

mod ascent;
mod region;
mod waiting;

pub use ascent::{ascend_along, pack_along};
