//! Why there is no grid of a list of points, and no stretch between two points.

ghost use Rattle.std.specs.Prelude.{◌≡◌};
ghost use Rattle.hanan_grid.specs.declared.fault.GridFault.TheVariants.{Memory};
ghost use Rattle.hanan_grid.specs.declared.fault.SegmentFault.TheVariants as segment_fault;
ghost use Rattle.hanan_grid.specs.Fault.{IsTotalOrMemory, ComesFrom};

use net_graph::GraphFault;
use std::alloc::AllocError;
use thiserror::Error;

/// Why there is no grid of a list of points.
#[derive(Debug, Drop, Error)]
pub enum GridFault {
    /// The lengths of the grid's edges sum to more than 2^63 - 1.
    #[error("the lengths of the grid's edges sum to {total}, which is above 2^63 - 1")]
    TooLong { total: u128 },
    /// Want of memory.
    #[error("there is not enough memory for the grid")]
    Memory(AllocError),
}

impl From<AllocError> for GridFault {
    ghost from_gives = { λ error fault. fault ≡ Memory error };

    fn from(error: AllocError) -> GridFault {
        GridFault::Memory(error)
    }
}

/// Why there is no straight stretch of a grid between two points.
#[derive(Debug, Drop, Error)]
pub enum SegmentFault {
    /// Neither the x nor the y of the two points is the same.
    #[error("the two points are on no common line")]
    Crooked,
    /// One of the points is no crossing of the grid.
    #[error("one of the points is no crossing of the grid")]
    OffGrid,
    /// Want of memory.
    #[error("there is not enough memory for the stretch")]
    Memory(AllocError),
}

impl From<AllocError> for SegmentFault {
    ghost from_gives = { λ error fault. fault ≡ segment_fault.Memory error };

    fn from(error: AllocError) -> SegmentFault {
        SegmentFault::Memory(error)
    }
}

/// The fault of a grid's graph, which is sound but for its total.
pub fn grid_fault(fault: GraphFault) -> GridFault
    requires { IsTotalOrMemory fault }
    ensures { ComesFrom fault result }
{
    match fault {
        GraphFault::TooLong { total } => GridFault::TooLong { total },
        GraphFault::Memory(error) => GridFault::Memory(error),
        _ => unreachable!(),
    }
}
