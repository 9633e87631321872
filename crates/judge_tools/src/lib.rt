//! The tools that judge answers, and the one that brings them to the newest version.
#![tactic(auto)]

mod checking;
mod judge;
mod picture;
mod plotting;
mod upgrading;

pub use checking::check;
pub use judge::{ANSWER_LIMIT, CheckFault};
pub use plotting::{PlotFault, plot};
pub use upgrading::{UPGRADE_LIMIT, UpgradeFault, upgrade};
