//! Splits on edges chosen by strong branching, for leaves whose whole weights leave no packing to make anew. What is
//! chosen is proposed; nothing rests on it.
#![tactic(auto)]

mod by_values;
mod choice;
mod cut_plan;
mod drawn_order;
mod draws;
mod first_packing;
mod flow;
mod leaf;
mod relevant;
mod sizes;

pub use by_values::choose_by_values;
pub use choice::{Choice, choose};
pub use cut_plan::CutPlan;
pub use drawn_order::{drawn_place, place_of};
pub use draws::Draws;
pub use first_packing::drawn_again;
pub use sizes::is_of;
