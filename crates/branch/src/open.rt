//! Which leaf is split next, and what the leaves bound.

ghost use Rattle.std.specs.Prelude.{◌≡◌, ◌≤◌, All, IfNone, IfSome};
ghost use Rattle.branch.specs.Notes.{IsNextNote, IsLesserOfNotes};

use crate::note::LeafNote;

/// The leaf of the least value below a length, the earliest in preorder on a tie. None where no value is below it.
pub(crate) fn next_open(notes: &[LeafNote], length: u64) -> Option<usize>
    ensures none { IfNone result (All (λ note. length ≤ note.value) notes.now) }
    ensures open { IfSome result (IsNextNote length notes.now) }
{
    let mut least = u128::from(length);
    let mut found = None;
    for (place, note) in notes.iter().enumerate() {
        if note.value < least {
            least = note.value;
            found = Some(place);
        }
    }
    found
}

/// The lesser of a length and the least value of the leaves.
pub(crate) fn bound_of(notes: &[LeafNote], length: u64) -> u64
    ensures { IsLesserOfNotes length notes.now result }
{
    match next_open(notes, length) {
        Some(place) => notes[place].value as u64,
        None => length,
    }
}
