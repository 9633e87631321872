//! The items of a text.

ghost use Rattle.std.specs.Prelude.{◌≤◌, ℕ, suc, length, [], ◌∷◌, ◌++◌, IfOk, IfErr, Err};
ghost use Rattle.section_text.specs.Format.{IsLawful};
ghost use Rattle.section_text.specs.Faults.{items as items_told};
ghost use Rattle.section_text.specs.Left.{JudgesLeft, IsFaultLeft, LeadsTo};

use crate::format::SectionFormat;
use crate::line::whole_line;
use lists::ItemList;
use std::alloc::Global;
use text_in::TextLines;

// Reads one more item.
fn next_item<S: SectionFormat>(
    alloc: Global,
    text: &mut TextLines<'_>,
    basis: &S::Basis,
    items: &ItemList<S::Item>,
) -> Result<S::Item, S::Fault>
    requires { S.format.AreItems (S.points_of basis.now) items.now }
    ensures ok { IfOk result (λ x. (due : ℕ)
        → LeadsTo S.format (items_told (S.points_of basis.now) (suc due) items.now) text.old
        (items_told (S.points_of basis.now) due (items.now ++ x ∷ [])) text.new) }
    ensures follows { IfOk result (S.format.Follows (S.points_of basis.now) items.now) }
    ensures err { IfErr result (λ f. (due : ℕ)
        → JudgesLeft S.format (items_told (S.points_of basis.now) (suc due) items.now) text.old (Err f)) }
{
    let line = text.number();
    let mut words = whole_line::<S>(text)?;
    S::item(alloc, basis, items, line, &mut words)
}

// Reads so many items.
pub(crate) fn read_items<S: SectionFormat>(
    alloc: Global,
    text: &mut TextLines<'_>,
    basis: &S::Basis,
    count: u32,
) -> Result<ItemList<S::Item>, S::Fault>
    requires lawful { IsLawful S.format }
    requires few { count ≤ S.format.most }
    ensures ok { IfOk result (λ xs. LeadsTo S.format (items_told (S.points_of basis.now) count []) text.old
        (items_told (S.points_of basis.now) 0 xs) text.new) }
    ensures few { IfOk result (λ xs. length xs ≤ S.format.most) }
    ensures items { IfOk result (S.format.AreItems (S.points_of basis.now)) }
    ensures err { IfErr result (IsFaultLeft S.format (items_told (S.points_of basis.now) count []) text.old) }
{
    let mut items = ItemList::empty(alloc);
    for _told in 0..count {
        let item = next_item::<S>(alloc, text, basis, &items)?;
        if let Err(error) = items.push(item) {
            return Err(S::of_memory(error));
        }
    }
    Ok(items)
}
