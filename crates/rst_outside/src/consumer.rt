//! What takes the bytes of a text as they come.

ghost use Rattle.std.specs.Prelude.{ℕ, List};
ghost use Rattle.rst_outside.specs.Fed.{Fed};

/// What is fed a text piece by piece, as a reader that keeps no bytes.
pub trait Consumer {
    /// What a contract may know of it: whether it stands for these bytes.
    ghost stands: { Self → List ℕ → Type 0 };

    /// Takes the next bytes of the text.
    fn feed(&mut self, piece: &[u8])
        ensures { Fed stands self.old piece.now self.new };
}
