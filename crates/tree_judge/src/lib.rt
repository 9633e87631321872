//! The judge of certificates over any graph: it takes an answer's steps one after another, their names resolved, knows
//! no text, and rests on nothing that proposes or bounds.
#![tactic(auto)]

mod any_border;
mod border;
mod cause;
mod claim;
mod decided;
mod edges;
mod end;
mod judge;
mod law;
mod leaf;
mod loads;
mod network;
mod path;
mod room;
mod search_room;
mod states;
mod step;
mod way;

pub use any_border::AnyBorder;
pub use border::{Border, Run};
pub use cause::Cause;
pub use claim::Claim;
pub use judge::Judge;
pub use law::{one_judging, sound_bound_holds, steps_tell_answers};
pub use room::Room;
pub use step::Step;
