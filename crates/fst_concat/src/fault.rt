//! Why no concatenation is chosen.

use std::alloc::AllocError;

/// Why no concatenation is chosen.
#[derive(Drop)]
pub enum ConcatFault {
    /// All trees together don't join the terminals.
    Unspanned {
        /// The least terminal that no chain of trees joins to the terminal 0.
        place: u8,
    },
    /// There was no memory.
    Memory(AllocError),
}

impl From<AllocError> for ConcatFault {
    ghost use Rattle.fst_concat.specs.declared.fault.ConcatFault.TheVariants.{Memory};
    ghost use Rattle.std.specs.Prelude.{◌≡◌};

    ghost from_gives = { λ error fault. fault ≡ Memory error };

    fn from(error: AllocError) -> ConcatFault {
        ConcatFault::Memory(error)
    }
}
