//! Faults of texts, as the crates of their formats say them.

ghost use Rattle.std.specs.Prelude.{◌≡◌, IfErr};
ghost use Rattle.tool_frame.specs.FaultTexts.{format_fault_status};
ghost use Rattle.tool_frame.specs.Stops.{IfFound};

use crate::fault::Fault;
use crate::status::FaultStatus;
use crate::stop::Stop;
use rst_outside::Sink;
use text_in::FormatFault;
use text_out::Block;

/// What a reader took of a text, or the text's fault, set apart from want of memory, which the reader tells among its
/// faults.
pub fn faults_apart<T, F: FormatFault>(read: Result<T, F>) -> Result<T, Stop<F>>
    ensures same { IfFound result (λ found. found ≡ read) }
    ensures fault { IfFound result (λ found. IfErr found (λ fault. F.IsMemory fault → ⊥)) }
{
    match read {
        Ok(value) => Ok(value),
        Err(fault) => Err(Stop::Fault(fault.of_text()?)),
    }
}

impl<F: FormatFault> Fault for F {
    ghost text = { F.text };

    ghost status = { λ fault. format_fault_status (F.passes_limit fault) };

    fn status(&self) -> FaultStatus {
        if self.passes_limit() {
            FaultStatus::TooLarge
        } else {
            FaultStatus::Malformed
        }
    }

    fn write<R: Sink>(&self, block: &mut Block, err: &mut R) {
        FormatFault::write(self, block, err);
    }
}
