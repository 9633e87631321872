//! Why a file of full trees gives no network.

ghost use Rattle.text_out.specs.Gathers.{Gathers};
ghost use Rattle.search_tools.specs.Build.{build_fault_text, build_fault_status};

use fst_file::FstFault;
use rst_outside::Sink;
use text_out::{Block, literal, number};
use tool_frame::{Fault, FaultStatus};

/// Why a text gives no network for the trees of a file.
#[derive(Clone, Copy)]
pub enum BuildFault {
    /// It is no file of full trees.
    InFile(FstFault),
    /// All trees of the file together don't join the point at this place, counted from 0, to the first one; it is the
    /// first such point.
    Apart(u8),
}

impl Fault for BuildFault {
    ghost text = { build_fault_text };

    ghost status = { build_fault_status };

    fn status(&self) -> FaultStatus {
        match self {
            BuildFault::InFile(fault) => fault.status(),
            BuildFault::Apart(_) => FaultStatus::Malformed,
        }
    }

    #[tactic(auto, using(text_out::specs::GatherLaws::pieces))]
    fn write<R: Sink>(&self, block: &mut Block, err: &mut R) {
        match self {
            BuildFault::InFile(fault) => fault.write(block, err),
            BuildFault::Apart(place) => {
                literal(block, err, b"the trees leave point ");
                number(block, err, u64::from(*place));
                literal(block, err, b" apart");
            }
        }
    }
}
