//! Files of full trees as an input.

ghost use Rattle.tool_frame.specs.Stops.{IfFound};
ghost use Rattle.tree_inputs.specs.Files.{ReadsFst};

use fst_file::{FstFault, FstFile, read_file};
use std::alloc::Global;
use tool_frame::{Stop, faults_apart};

/// The file of full trees that a text spells; or its first fault.
#[tactic(auto, using(crate::proofs::FaultLaws::reads_apart))]
pub fn fst_in(alloc: Global, bytes: &[u8]) -> Result<FstFile, Stop<FstFault>>
    ensures { IfFound result (ReadsFst bytes.now) }
{
    faults_apart(read_file(alloc, bytes))
}
