//! Answers: a network with the cuts that bound it from below, and the text that tells one.
#![tactic(auto)]

mod answer;
mod body;
mod event;
mod form;
mod head;
mod label;
mod labelled;
mod length;
mod line;
mod naming;
mod reader;
mod reading;
mod scan;
mod split;
mod version;
mod write;

pub use answer::{Answer, write_answer};
pub use event::{AnswerEvent, Event};
pub use form::Form;
pub use head::{AnswerHead, ConcatNote};
pub use label::{EdgeLabel, VertexLabel};
pub use labelled::Labelled;
pub use length::answer_len;
pub use naming::write_name;
pub use reader::{EventReader, Spelling};
pub use reading::{lines_fit, one_reading, reads_beginnings, upgraded_alike};
pub use split::SplitName;
pub use version::Version;
pub use write::status_word;
