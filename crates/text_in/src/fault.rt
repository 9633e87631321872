//! Why a reader took no value of a text.

ghost use Rattle.std.specs.Prelude.{◌≡◌, Bool, List, ℕ, IfOk};
ghost use Rattle.text_out.specs.Gathers.{Gathers};

use rst_outside::Sink;
use std::alloc::AllocError;
use text_out::Block;

/// Why a reader took no value of a text: the first fault of the text in its format; or want of memory.
pub trait FormatFault {
    /// What is said of it.
    ghost text: { Self → List ℕ };

    /// Whether the text passes a limit of the format, and may be right but for that.
    ghost passes_limit: { Self → Bool };

    /// It is want of memory, and no fault of the text.
    ghost IsMemory: { Self → Type 0 };

    /// Whether the text passes a limit of the format.
    fn passes_limit(&self) -> bool
        ensures { result ≡ passes_limit self.now };

    /// Writes what is said of it, of which the last bytes wait in the block.
    fn write<S: Sink>(&self, block: &mut Block, sink: &mut S)
        ensures { Gathers (S.state sink.old) block.old (text self.now) (S.state sink.new) block.new };

    /// The same, which is a fault of the text. An `Err` is want of memory.
    fn of_text(self) -> Result<Self, AllocError>
        ensures same { IfOk result (λ fault. fault ≡ self) }
        ensures fault { IfOk result (λ fault. IsMemory fault → ⊥) };
}
