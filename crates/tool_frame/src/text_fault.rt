//! Why a tool refuses that reads one text.

ghost use Rattle.tool_frame.specs.FaultTexts.{text_fault_text, text_fault_status};

use crate::fault::Fault;
use crate::status::FaultStatus;
use crate::take::InputFault;
use rst_outside::Sink;
use text_out::Block;

/// Why a tool refuses that reads the input as a text whose faults are `F`.
#[derive(Clone, Copy)]
pub enum TextFault<F> {
    /// The input isn't taken whole.
    Input(InputFault),
    /// The text has a fault.
    Text(F),
}

impl<F: Fault> Fault for TextFault<F> {
    ghost text = { text_fault_text F.text };

    ghost status = { text_fault_status F.status };

    fn status(&self) -> FaultStatus {
        match self {
            TextFault::Input(fault) => fault.status(),
            TextFault::Text(fault) => fault.status(),
        }
    }

    fn write<R: Sink>(&self, block: &mut Block, err: &mut R) {
        match self {
            TextFault::Input(fault) => fault.write(block, err),
            TextFault::Text(fault) => fault.write(block, err),
        }
    }
}
