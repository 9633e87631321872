//! Points and their grid, read from a text or from a file.

ghost use Rattle.std.specs.Prelude.{◌≡◌, ◌++◌, ℕ, List, decimal};
ghost use Rattle.text_out.specs.Gathers.{Gathers};
ghost use Rattle.tool_frame.specs.Stops.{IfFound, IfFault};
ghost use Rattle.tool_frame.specs.Taking.{KeepsFiles};
ghost use Rattle.points_in.specs.Text.{HasPointCause};
ghost use Rattle.tool_frame.specs.Points.{IsListFault, ReadsGrid, ReadsPointsFile};
ghost use Rattle.tool_frame.specs.FaultTexts.{list_fault_text, list_fault_status, points_fault_text, points_fault_status};

use crate::fault::Fault;
use crate::status::FaultStatus;
use crate::stop::{Stop, within};
use crate::take::{FileFault, whole_file};
use hanan_grid::{Grid, GridFault};
use points_in::{PointFault, read_points};
use rst_outside::{Shelf, Sink};
use std::alloc::Global;
use text_in::write_total;
use text_out::{Block, literal, number};

/// Why a text gives no grid of points. Bytes count from 0.
#[derive(Clone, Copy)]
pub enum ListFault {
    /// The word that begins at this byte is no number.
    BadNumber(u64),
    /// The number that begins at this byte is below -2^63 or above 2^63-1.
    NumberTooLarge(u64),
    /// The point whose x begins at this byte is the 51st distinct one.
    TooManyPoints(u64),
    /// The last x has no y.
    OddCount,
    /// It lists no point.
    NoPoints,
    /// The edges of its points' grid sum to 2^63 or more: to this total.
    GridTooLong { total: u128 },
}

/// Why a file gives no grid of points.
#[derive(Clone, Copy)]
pub enum PointsFault {
    /// It isn't taken whole.
    File(FileFault),
    /// Its text gives none.
    List(ListFault),
}

// Why a text gives no grid, by why it lists no points.
fn list_stop(fault: PointFault) -> Stop<ListFault>
    ensures { (bytes : List ℕ) → HasPointCause fault bytes → IfFault result (IsListFault bytes) }
{
    Stop::Fault(match fault {
        PointFault::BadNumber(at) => ListFault::BadNumber(at),
        PointFault::NumberTooLarge(at) => ListFault::NumberTooLarge(at),
        PointFault::TooManyPoints(at) => ListFault::TooManyPoints(at),
        PointFault::OddCount => ListFault::OddCount,
        PointFault::NoPoints => ListFault::NoPoints,
        PointFault::Memory(error) => return Stop::Memory(error),
    })
}

/// The grid of the points that a text lists.
pub fn grid_in(alloc: Global, bytes: &[u8]) -> Result<Grid, Stop<ListFault>>
    ensures { IfFound result (ReadsGrid bytes.now) }
{
    let points = read_points(alloc, bytes).map_err(list_stop)?;
    match Grid::new(alloc, &points) {
        Ok(grid) => Ok(grid),
        Err(GridFault::TooLong { total }) => Err(Stop::Fault(ListFault::GridTooLong { total })),
        Err(GridFault::Memory(error)) => Err(Stop::Memory(error)),
    }
}

/// The grid of the points that the file of this name lists, which may have `limit` bytes.
pub fn grid_in_file<S: Shelf>(
    alloc: Global,
    shelf: &mut S,
    name: &str,
    limit: u64,
) -> Result<Grid, Stop<PointsFault>>
    ensures reads { IfFound result (ReadsPointsFile limit (S.state shelf.old) (S.state shelf.new) name.now) }
    ensures files { KeepsFiles (S.state shelf.old) (S.state shelf.new) }
{
    let bytes = within(whole_file(alloc, shelf, name, limit), PointsFault::File)?;
    within(grid_in(alloc, bytes.as_slice()), PointsFault::List)
}

impl Fault for ListFault {
    ghost text = { list_fault_text };

    ghost status = { list_fault_status };

    fn status(&self) -> FaultStatus {
        match self {
            ListFault::TooManyPoints(_) => FaultStatus::TooLarge,
            _ => FaultStatus::Malformed,
        }
    }

    fn write<R: Sink>(&self, block: &mut Block, err: &mut R) {
        match self {
            ListFault::BadNumber(at) => write_at(block, err, b"not a whole number at byte ", *at),
            ListFault::NumberTooLarge(at) => write_at(
                block,
                err,
                b"number out of range at byte ",
                *at,
            ),
            ListFault::TooManyPoints(at) => write_at(
                block,
                err,
                b"more than 50 points at byte ",
                *at,
            ),
            ListFault::OddCount => literal(block, err, b"a coordinate is missing"),
            ListFault::NoPoints => literal(block, err, b"no points"),
            ListFault::GridTooLong { total } => write_total(block, err, *total),
        }
    }
}

impl Fault for PointsFault {
    ghost text = { points_fault_text };

    ghost status = { points_fault_status };

    fn status(&self) -> FaultStatus {
        match self {
            PointsFault::File(fault) => fault.status(),
            PointsFault::List(fault) => fault.status(),
        }
    }

    fn write<R: Sink>(&self, block: &mut Block, err: &mut R) {
        match self {
            PointsFault::File(fault) => fault.write(block, err, b"the points"),
            PointsFault::List(fault) => fault.write(block, err),
        }
    }
}

// What is said of a fault, and the byte where it is.
#[tactic(auto, using(text_out::specs::GatherLaws::pieces))]
fn write_at<R: Sink>(block: &mut Block, err: &mut R, fault: &[u8], at: u64)
    ensures { Gathers (R.state err.old) block.old (fault.now ++ decimal at) (R.state err.new) block.new }
{
    literal(block, err, fault);
    number(block, err, at);
}
