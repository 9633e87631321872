//! Why a generation gives no list.

use std::alloc::{AllocError, AllocFailed};

/// Why a generation gives no list.
#[derive(Drop)]
pub enum GenFault {
    /// There are more than 20,000 trees.
    TooManyTrees,
    /// There was no memory.
    Memory(AllocError),
}

impl From<AllocError> for GenFault {
    ghost use Rattle.fst_gen.specs.declared.fault.GenFault.TheVariants.{Memory};
    ghost use Rattle.std.specs.Prelude.{◌≡◌};

    ghost from_gives = { λ error fault. fault ≡ Memory error };

    fn from(error: AllocError) -> GenFault {
        GenFault::Memory(error)
    }
}
