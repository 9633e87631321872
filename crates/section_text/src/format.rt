//! What a format has of its own.

ghost use Rattle.std.specs.Prelude.{◌≡◌, ◌≤◌, List, length, IfOk, IfErr, OnOk};
ghost use Rattle.points_in.specs.declared.point.Point.{Point};
ghost use Rattle.text_in.specs.Lines.{words_of};
ghost use Rattle.section_text.specs.Format.{Format, IsLawful};
ghost use Rattle.section_text.specs.Faults.{SpellsItem, FailsItem};

use crate::fault::LineFault;
use lists::ItemList;
use points_in::Points;
use std::alloc::{AllocError, Global};
use text_in::LineWords;

/// A format of a text of two sections: a title, points, items that say something about the points, and an end.
pub trait SectionFormat {
    /// An item of the second section.
    type Item: Drop;

    /// What the items are judged by: the points, or what is made of them once they are all told.
    type Basis: Drop;

    /// What is read.
    type Whole;

    /// Why nothing is read.
    type Fault: Drop;

    /// The format.
    ghost format: { Format Self.Item Self.Fault Self.Whole };

    /// The points of what the items are judged by.
    ghost points_of: { Self.Basis → List Point };

    /// The law of the format: it does nothing, and is there for its clause.
    fn lawful()
        ensures { IsLawful format };

    /// The first line.
    fn title() -> &'static [u8]
        ensures { words_of result.now ≡ format.title };

    /// The word before the count of the items.
    fn kind() -> &'static [u8]
        ensures { result.now ≡ format.kind };

    /// How many items a text lists at most.
    fn most() -> u32
        ensures { result ≡ format.most };

    /// The fault that every format has, as this one tells it.
    fn fault(fault: LineFault) -> Self::Fault
        ensures { result ≡ format.fault_of fault };

    /// Want of memory.
    fn of_memory(error: AllocError) -> Self::Fault
        ensures { format.IsMemory result };

    /// What the items are judged by, once all points are told. An `Err` is what is wrong with the points together, or
    /// want of memory.
    fn basis(alloc: Global, points: Points) -> Result<Self::Basis, Self::Fault>
        ensures points { IfOk result (λ basis. points_of basis ≡ points) }
        ensures fit { OnOk result (format.PointsFit points) }
        ensures err { IfErr result (λ f. (format.IsMemory f → ⊥) → format.IsPointsFault points f) };

    /// The item that the words of a line spell behind these items. An `Err` is the first fault of the line, which has
    /// this number.
    fn item(
        alloc: Global,
        basis: &Self::Basis,
        items: &ItemList<Self::Item>,
        line: u64,
        words: &mut LineWords<'_>,
    ) -> Result<Self::Item, Self::Fault>
        requires { format.AreItems (points_of basis.now) items.now }
        ensures spelled { IfOk result (SpellsItem format words.old) }
        ensures follows { IfOk result (format.Follows (points_of basis.now) items.now) }
        ensures err { IfErr result (FailsItem format (points_of basis.now) items.now line words.old) };

    /// What is read where the text ends behind these items. An `Err` is what is wrong with the whole, or want of
    /// memory.
    fn whole(
        alloc: Global,
        basis: Self::Basis,
        items: ItemList<Self::Item>,
    ) -> Result<Self::Whole, Self::Fault>
        requires fit { format.PointsFit (points_of basis) }
        requires few { length items ≤ format.most }
        requires items { format.AreItems (points_of basis) items }
        ensures value { IfOk result (λ whole. whole ≡ format.value_of (points_of basis) items) }
        ensures whole { OnOk result (format.IsWhole (points_of basis) items) }
        ensures err { IfErr result (λ f. (format.IsMemory f → ⊥)
            → format.IsWholeFault (points_of basis) items f) };
}
