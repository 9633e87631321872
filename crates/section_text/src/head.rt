//! The lines around the points and the items.

ghost use Rattle.std.specs.Prelude.{◌<◌, ◌≤◌, List, [], IfOk, IfErr, OnOk, Result, Err};
ghost use Rattle.points_in.specs.declared.point.Point.{Point};
ghost use Rattle.section_text.specs.Faults.{nothing, title, points as points_told, items as items_told};
ghost use Rattle.section_text.specs.Judged.{JudgesWhole};
ghost use Rattle.section_text.specs.Left.{JudgesLeft, LeadsTo};

use crate::fault::LineFault;
use crate::format::SectionFormat;
use crate::line::{count_behind, whole_line};
use points_in::MAX_POINTS;
use text_in::TextLines;

// Reads the title.
pub(crate) fn read_title<S: SectionFormat>(text: &mut TextLines<'_>) -> Result<(), S::Fault>
    ensures ok { OnOk result (LeadsTo S.format nothing text.old title text.new) }
    ensures err { IfErr result (λ f. JudgesLeft S.format nothing text.old (Err f)) }
{
    let line = text.number();
    let words = whole_line::<S>(text)?;
    if words.are(S::title()) {
        Ok(())
    } else {
        Err(S::fault(LineFault::BadLine(line)))
    }
}

// Reads how many points follow.
pub(crate) fn read_point_count<S: SectionFormat>(text: &mut TextLines<'_>) -> Result<u32, S::Fault>
    ensures ok { IfOk result (λ count. LeadsTo S.format title text.old (points_told count []) text.new) }
    ensures some { IfOk result (λ count. 0 < count) }
    ensures few { IfOk result (λ count. count ≤ 50) }
    ensures err { IfErr result (λ f. JudgesLeft S.format title text.old (Err f)) }
{
    let line = text.number();
    let mut words = whole_line::<S>(text)?;
    match count_behind(&mut words, b"points") {
        None | Some(0) => Err(S::fault(LineFault::BadLine(line))),
        Some(count) if count > MAX_POINTS as u32 => Err(S::fault(LineFault::TooManyPoints(line))),
        Some(count) => Ok(count),
    }
}

// Reads how many items follow.
pub(crate) fn read_item_count<S: SectionFormat>(text: &mut TextLines<'_>) -> Result<u32, S::Fault>
    ensures ok { IfOk result (λ count. (ps : List Point)
        → LeadsTo S.format (points_told 0 ps) text.old (items_told ps count []) text.new) }
    ensures few { IfOk result (λ count. count ≤ S.format.most) }
    ensures err { IfErr result (λ f. (ps : List Point) → JudgesLeft S.format (points_told 0 ps) text.old (Err f)) }
{
    let line = text.number();
    let mut words = whole_line::<S>(text)?;
    match count_behind(&mut words, S::kind()) {
        None => Err(S::fault(LineFault::BadLine(line))),
        Some(count) if count > S::most() => Err(S::fault(LineFault::TooManyItems(line))),
        Some(count) => Ok(count),
    }
}

// Reads the last line, behind which nothing stands.
pub(crate) fn read_end<S: SectionFormat>(text: &mut TextLines<'_>) -> Result<(), S::Fault>
    ensures ok { OnOk result ((ps : List Point) (xs : List S.Item) (o : Result S.Whole S.Fault)
        → JudgesWhole S.format ps xs o → JudgesLeft S.format (items_told ps 0 xs) text.old o) }
    ensures err { IfErr result (λ f. (ps : List Point) (xs : List S.Item)
        → JudgesLeft S.format (items_told ps 0 xs) text.old (Err f)) }
{
    let line = text.number();
    let words = whole_line::<S>(text)?;
    if !words.are(b"end") {
        return Err(S::fault(LineFault::BadLine(line)));
    }
    if text.is_ended() {
        Ok(())
    } else {
        Err(S::fault(LineFault::BadLine(text.number())))
    }
}
