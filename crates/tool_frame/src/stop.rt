//! Why a step of a tool gives no value.

ghost use Rattle.std.specs.Prelude.{◌≡◌};
ghost use Rattle.tool_frame.specs.declared.stop.Stop.TheVariants.{Memory};
ghost use Rattle.tool_frame.specs.Stops.{IsWithin};

use std::alloc::AllocError;

/// Why a step gives no value. `?` makes one of want of memory.
#[derive(Drop)]
pub enum Stop<F> {
    /// What was read has a fault.
    Fault(F),
    /// Memory is wanting.
    Memory(AllocError),
}

impl<F> From<AllocError> for Stop<F> {
    ghost from_gives = { λ error stop. stop ≡ Memory error };

    fn from(error: AllocError) -> Stop<F> {
        Stop::Memory(error)
    }
}

/// What a step gave, with its fault as one of the whole.
pub fn within<T, F, G, W: FnOnce(F) -> G + Drop>(
    found: Result<T, Stop<F>>,
    whole: W,
) -> Result<T, Stop<G>>
    requires { (fault : F) → W.pre whole fault }
    ensures { IsWithin (W.post whole) found result }
{
    match found {
        Ok(value) => Ok(value),
        Err(Stop::Fault(fault)) => Err(Stop::Fault(whole(fault))),
        Err(Stop::Memory(error)) => Err(Stop::Memory(error)),
    }
}
