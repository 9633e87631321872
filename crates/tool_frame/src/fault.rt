//! Why a tool refuses what it read.

ghost use Rattle.std.specs.Prelude.{◌≡◌, List, ℕ};
ghost use Rattle.text_out.specs.Gathers.{Gathers};
ghost use Rattle.tool_frame.specs.declared.status.FaultStatus.{FaultStatus};

use crate::status::FaultStatus;
use rst_outside::Sink;
use text_out::Block;

/// Why a tool refuses what it read. Want of memory is no fault.
pub trait Fault {
    /// What is said of it on `err`, behind the name of the tool.
    ghost text: { Self → List ℕ };

    /// Its status.
    ghost status: { Self → FaultStatus };

    /// The status that the tool ends with.
    fn status(&self) -> FaultStatus
        ensures { result ≡ status self.now };

    /// Writes what is said of it, of which the last bytes wait in the block.
    fn write<R: Sink>(&self, block: &mut Block, err: &mut R)
        ensures { Gathers (R.state err.old) block.old (text self.now) (R.state err.new) block.new };
}
