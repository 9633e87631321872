//! Reading a text of points.

ghost use Rattle.std.specs.Prelude.{ℕ, List, ◌≡◌, ◌≤◌, ◌<◌, ◌⊎◌, length, slice_index, false};
ghost use Rattle.std.specs.Prelude.{IfOk, IfErr, IsErrAnd, MatchResult};
ghost use Rattle.points_in.specs.declared.fault.PointFault.{PointFault};
ghost use Rattle.points_in.specs.declared.point.Point.{Point};
ghost use Rattle.points_in.specs.Terminals.{terminals_of};
ghost use Rattle.points_in.specs.Text.{IsPointText, PointFaultOf, HasPointCause, IsMemory};
ghost use Rattle.points_in.specs.Words.{is_blank};
ghost use Rattle.points_in.specs.Reading.{words_at, ReadsNumber, ReadsPoint, AnswersPoints};

use crate::fault::PointFault;
use crate::number::{NumberFault, front_number, separates};
use crate::point::Point;
use crate::points::{AddFault, Points};
use std::alloc::{AllocError, Global};

// A number of the text, the first byte of its word, and the first byte after that word.
#[derive(Clone, Copy)]
struct NextNumber {
    at: usize,
    value: i64,
    end: usize,
}

// A point of the text, the first byte of its x, and the first byte after its y.
#[derive(Clone, Copy)]
struct NextPoint {
    at: usize,
    point: Point,
    end: usize,
}

// The first place from this one on where no blank stands; the length where there is none.
fn next_word(bytes: &[u8], at: usize) -> usize
    requires { at ≤ length bytes.now }
    ensures onward { at ≤ result }
    ensures within { result ≤ length bytes.now }
    ensures word { result < length bytes.now → is_blank (slice_index bytes.now result) ≡ false }
    ensures words { words_at bytes.now at ≡ words_at bytes.now result }
{
    let mut start = at;
    while start < bytes.len() {
        if !separates(bytes[start]) {
            break;
        }
        start += 1;
    }
    start
}

// The next number from a place on. None where no word is left.
fn next_number(bytes: &[u8], at: usize) -> Result<Option<NextNumber>, PointFault>
    requires { at ≤ length bytes.now }
    ensures { ReadsNumber bytes.now at result }
{
    let start = next_word(bytes, at);
    if start == bytes.len() {
        return Ok(None);
    }
    match front_number(&bytes[start..]) {
        Ok(front) => Ok(Some(NextNumber {
            at: start,
            value: front.value,
            end: start + front.len,
        })),
        Err(NumberFault::NotNumber) => Err(PointFault::BadNumber(start as u64)),
        Err(NumberFault::TooLarge) => Err(PointFault::NumberTooLarge(start as u64)),
    }
}

// The next point from a place on. None where no word is left.
fn next_point(bytes: &[u8], at: usize) -> Result<Option<NextPoint>, PointFault>
    requires { at ≤ length bytes.now }
    ensures { ReadsPoint bytes.now at result }
{
    let Some(x) = next_number(bytes, at)? else {
        return Ok(None);
    };
    let Some(y) = next_number(bytes, x.end)? else {
        return Err(PointFault::OddCount);
    };
    let point = Point {
        x: x.value,
        y: y.value,
    };
    Ok(Some(NextPoint {
        at: x.at,
        point,
        end: y.end,
    }))
}

// The same fault of a reader that adds the point whose x begins at a byte.
fn fault_at(fault: AddFault, at: usize) -> PointFault
    ensures full { fault ≡ AddFault.Full → result ≡ PointFault.TooManyPoints at }
    ensures memory { (e : AllocError) → fault ≡ AddFault.Memory e → result ≡ PointFault.Memory e }
{
    match fault {
        AddFault::Full => PointFault::TooManyPoints(at as u64),
        AddFault::Memory(e) => PointFault::Memory(e),
    }
}

// The distinct points of the text, or its first fault.
fn points_in_text(alloc: Global, bytes: &[u8]) -> Result<Points, PointFault>
    ensures { AnswersPoints bytes.now result }
{
    let Some(first) = next_point(bytes, 0)? else {
        return Err(PointFault::NoPoints);
    };
    let mut points = Points::begin(alloc, first.point).map_err(PointFault::Memory)?;
    let mut at = first.end;
    while let Some(next) = next_point(bytes, at)? {
        if let Err(fault) = points.add(next.point) {
            return Err(fault_at(fault, next.at));
        }
        at = next.end;
    }
    Ok(points)
}

/// Reads a text of points: words that are x and y in turn, with any blanks, tabs and line ends before, between
/// and after them. The points are the distinct ones in the order in which they first appear. An error is the
/// text's first fault from the left, or want of memory.
pub fn read_points(alloc: Global, bytes: &[u8]) -> Result<Points, PointFault>
    ensures found { IfOk result (λ points.
        (ps : List Point) × IsPointText bytes.now ps × (points ≡ terminals_of ps)) }
    ensures fault { IfErr result (λ fault. HasPointCause fault bytes.now) }

    // There is no other answer, but that memory may be short.
    ensures only { (ps : List Point) → IsPointText bytes.now ps
        → MatchResult result (λ points. points ≡ terminals_of ps) IsMemory }
    ensures only_fault { (fault : PointFault) → PointFaultOf bytes.now fault
        → IsErrAnd result (λ told. IsMemory told ⊎ (told ≡ fault)) }
{
    points_in_text(alloc, bytes)
}
