//! What the words after the program's name ask for. The first word names the tool; `clap` reads the words after it as
//! that tool's simple command.
#![tactic(auto)]

mod command;
mod laws;
mod request;
mod tool;
mod value;
mod words;

pub use laws::solve_alone_asks;
pub use request::{Drawing, Request};
pub use words::request_in;
