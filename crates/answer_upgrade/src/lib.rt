//! Whether bytes are an answer's text, and the text of the same answer in version 2.
#![tactic(auto)]

mod change;
mod spelling;
mod told;
mod upgrade;

pub use spelling::spelled;
pub use told::Spelled;
pub use upgrade::write_upgraded;
