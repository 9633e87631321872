//! Texts that end too soon.

use crate::text::given::said_of;
use fst_file::read_file;
use row_tables::{Call, Fault, Told};
use std::alloc::Global;
use stp_format::read_stp;
use text_in::FormatFault;

/// What is said of prefixes in a row, and of how many.
#[derive(Drop)]
struct Run {
    said: String,
    times: usize,
}

impl Run {
    // Takes what is said of the next prefix. Where that is something else, the run is told and another one begins.
    fn add(&mut self, said: String, told: &mut Told) {
        if self.said == said {
            self.times = self.times.saturating_add(1);
            return;
        }
        self.tell(told);
        self.said = said;
        self.times = 1;
    }

    // Tells the run, if it has begun.
    fn tell(&self, told: &mut Told) {
        if self.times > 0 {
            told.show(&self.times);
            told.word(" ");
            told.word(self.said.as_str());
            told.word("\n");
        }
    }
}

/// The faults of the proper prefixes of the text under `file`, from the shortest one on, each with how many prefixes
/// in a row have it: of an STP file or of a file of full trees, as the word under `format` says.
pub(crate) fn cuts(alloc: Global, call: &Call, told: &mut Told) -> Result<(), Fault> {
    let text = call.bytes("file")?;
    let is_stp = call.word("format")? == "stp";
    let mut run = Run {
        said: String::new(alloc),
        times: 0,
    };
    for cut in 0..text.len() {
        run.add(said_of_text(alloc, &text[..cut], is_stp)?, told);
    }
    run.tell(told);
    Ok(())
}

// What is said of a text as an STP file, or else as a file of full trees.
fn said_of_text(alloc: Global, text: &[u8], is_stp: bool) -> Result<String, Fault> {
    if is_stp {
        said_of_read(alloc, read_stp(alloc, text))
    } else {
        said_of_read(alloc, read_file(alloc, text))
    }
}

// What is said of a text that was read.
fn said_of_read<T: Drop, F: FormatFault + Drop>(
    alloc: Global,
    read: Result<T, F>,
) -> Result<String, Fault> {
    match read {
        Ok(_) => Ok(String::from_str(alloc, "a file")?),
        Err(fault) => said_of(alloc, fault),
    }
}
