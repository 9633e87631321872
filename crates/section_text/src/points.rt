//! The points of a text.

ghost use Rattle.std.specs.Prelude.{◌≡◌, ◌+◌, ◌<◌, ◌≤◌, ℕ, suc, List, [], length, IfOk, IfErr, OnOk, IfSome, IfNone};
ghost use Rattle.std.specs.Prelude.{Result, Err};
ghost use Rattle.points_in.specs.declared.point.Point.{Point};
ghost use Rattle.section_text.specs.Faults.{SpellsPoint, SpellsNoPoint, points as points_told};
ghost use Rattle.section_text.specs.Left.{TakesLine, JudgesLeft, JudgesPoints, IsFaultLeft, LeadsTo};

use crate::fault::LineFault;
use crate::format::SectionFormat;
use crate::line::whole_line;
use points_in::{AddFault, Added, Point, Points};
use std::alloc::Global;
use text_in::{LineWords, TextLines};

// The point that the words spell.
fn point_in(words: &mut LineWords<'_>) -> Option<Point>
    ensures found { IfSome result (SpellsPoint words.old) }
    ensures none { IfNone result (SpellsNoPoint words.old) }
{
    let x = words.next_signed()?;
    let y = words.next_signed()?;
    if words.is_empty() {
        Some(Point { x, y })
    } else {
        None
    }
}

// Reads the line of a point.
fn next_point<S: SectionFormat>(text: &mut TextLines<'_>) -> Result<Point, S::Fault>
    ensures found { IfOk result (λ p. (words : List (List ℕ)) × SpellsPoint words p
        × TakesLine text.old words text.new) }
    ensures err { IfErr result (λ f. (due : ℕ) (ps : List Point)
        → JudgesLeft S.format (points_told (suc due) ps) text.old (Err f)) }
{
    let line = text.number();
    let mut words = whole_line::<S>(text)?;
    match point_in(&mut words) {
        Some(point) => Ok(point),
        None => Err(S::fault(LineFault::BadLine(line))),
    }
}

// Reads one more point.
fn add_next<S: SectionFormat>(text: &mut TextLines<'_>, points: &mut Points) -> Result<(), S::Fault>
    requires { length points.old < 50 }
    ensures ok { OnOk result ((due : ℕ) (o : Result S.Whole S.Fault)
        → JudgesPoints S.format due points.new text.new o
        → JudgesLeft S.format (points_told (suc due) points.old) text.old o) }
    ensures one_more { OnOk result (length points.new ≡ length points.old + 1) }
    ensures err { IfErr result (λ f. (due : ℕ) → IsFaultLeft S.format (points_told (suc due) points.old) text.old f) }
{
    let line = text.number();
    let point = next_point::<S>(text)?;
    match points.add(point) {
        Ok(Added::New) => Ok(()),
        Ok(Added::Repeat) => Err(S::fault(LineFault::RepeatedPoint(line))),
        Err(AddFault::Memory(error)) => Err(S::of_memory(error)),
        Err(AddFault::Full) => unreachable!(),
    }
}

// Reads so many points.
fn read_points<S: SectionFormat>(
    alloc: Global,
    text: &mut TextLines<'_>,
    count: u32,
) -> Result<Points, S::Fault>
    requires some { 0 < count }
    requires few { count ≤ 50 }
    ensures ok { IfOk result (λ points. (o : Result S.Whole S.Fault) → JudgesPoints S.format 0 points text.new o
        → JudgesLeft S.format (points_told count []) text.old o) }
    ensures err { IfErr result (IsFaultLeft S.format (points_told count []) text.old) }
{
    let first = next_point::<S>(text)?;
    let mut points = match Points::begin(alloc, first) {
        Ok(points) => points,
        Err(error) => return Err(S::of_memory(error)),
    };
    for _told in 1..count {
        add_next::<S>(text, &mut points)?;
    }
    Ok(points)
}

// Reads so many points, and makes of them what the items are judged by.
pub(crate) fn read_basis<S: SectionFormat>(
    alloc: Global,
    text: &mut TextLines<'_>,
    count: u32,
) -> Result<S::Basis, S::Fault>
    requires some { 0 < count }
    requires few { count ≤ 50 }
    ensures ok { IfOk result (λ basis.
        LeadsTo S.format (points_told count []) text.old (points_told 0 (S.points_of basis)) text.new) }
    ensures fit { IfOk result (λ basis. S.format.PointsFit (S.points_of basis)) }
    ensures err { IfErr result (IsFaultLeft S.format (points_told count []) text.old) }
{
    let points = read_points::<S>(alloc, text, count)?;
    S::basis(alloc, points)
}
