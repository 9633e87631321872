//! Reading a file.

ghost use Rattle.std.specs.Prelude.{Ok, Err, IfOk, IfErr};
ghost use Rattle.section_text.specs.Judged.{IsOutcome, IsFirstFault, Answers};
ghost use Rattle.fst_file.specs.declared.fault.FstFault.{FstFault};
ghost use Rattle.fst_file.specs.Value.{FstValue};
ghost use Rattle.fst_file.specs.Format.{fst_format};
ghost use Rattle.fst_file.specs.Text.{SpellsFstFile};

use crate::fault::FstFault;
use crate::file::FstFile;
use crate::format::FstFormat;
use section_text::read_sections;
use std::alloc::Global;

/// Reads the text of a file: its value, where the bytes spell one, or else its first fault. Want of memory
/// may come anywhere.
#[tactic(auto, using(crate::specs::TextLaws::spelled_file, crate::specs::TextLaws::file_spelled))]
pub fn read_file(alloc: Global, bytes: &[u8]) -> Result<FstFile, FstFault>
    // What is read is spelled so, each byte of it, and a fault is the first one.
    ensures spelled { IfOk result (SpellsFstFile bytes.now) }
    ensures fault { IfErr result (IsFirstFault fst_format bytes.now) }
    // What is spelled so is read, and a first fault is told, unless memory runs out.
    ensures only { (v : FstValue) → SpellsFstFile bytes.now v → Answers fst_format result (Ok v) }
    ensures only_fault { (f : FstFault) → IsOutcome fst_format bytes.now (Err f) → Answers fst_format result (Err f) }
{
    read_sections::<FstFormat>(alloc, bytes)
}
