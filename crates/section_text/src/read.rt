//! Reading a text of sections.

ghost use Rattle.std.specs.Prelude.{Ok, Err, IfOk, IfErr};
ghost use Rattle.section_text.specs.Format.{IsLawful};
ghost use Rattle.section_text.specs.Text.{Spells};
ghost use Rattle.section_text.specs.Judged.{IsOutcome, IsFirstFault, Answers};

use crate::format::SectionFormat;
use crate::head::{read_end, read_item_count, read_point_count, read_title};
use crate::items::read_items;
use crate::points::read_basis;
use std::alloc::Global;
use text_in::TextLines;

/// Reads a text of the format: its value, where the bytes spell one, or else its first fault. Want of memory may come
/// anywhere.
pub fn read_sections<S: SectionFormat>(alloc: Global, bytes: &[u8]) -> Result<S::Whole, S::Fault>
    // What is read is spelled so, each byte of it, and a fault is the first one.
    ensures spelled { IfOk result (Spells S.format bytes.now) }
    ensures fault { IfErr result (IsFirstFault S.format bytes.now) }
    // What is spelled so is read, and a first fault is told, unless memory runs out.
    ensures only { (v : S.Whole) → Spells S.format bytes.now v → Answers S.format result (Ok v) }
    ensures only_fault { (f : S.Fault) → IsOutcome S.format bytes.now (Err f) → Answers S.format result (Err f) }
{
    S::lawful();
    read_lines::<S>(alloc, bytes)
}

// Reads the bytes line by line, up to their end or to their first fault.
fn read_lines<S: SectionFormat>(alloc: Global, bytes: &[u8]) -> Result<S::Whole, S::Fault>
    requires { IsLawful S.format }
    ensures ok { IfOk result (λ whole. IsOutcome S.format bytes.now (Ok whole)) }
    ensures err { IfErr result (IsFirstFault S.format bytes.now) }
{
    let mut text = TextLines::of(bytes);
    read_title::<S>(&mut text)?;
    let count = read_point_count::<S>(&mut text)?;
    let basis = read_basis::<S>(alloc, &mut text, count)?;
    let count = read_item_count::<S>(&mut text)?;
    let items = read_items::<S>(alloc, &mut text, &basis, count)?;
    read_end::<S>(&mut text)?;
    S::whole(alloc, basis, items)
}
