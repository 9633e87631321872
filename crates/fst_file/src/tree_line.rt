//! The line of a tree.

ghost use Rattle.std.specs.Prelude.{◌≡◌, ◌<◌, ◌^◌, ℕ, List, ◌∷◌, map, codes, Option, Some, None, IfSome, IfNone};
ghost use Rattle.std.specs.List.{AllByRecursion};
ghost use Rattle.std.specs.Fmt.{decimal};
ghost use Rattle.full_tree.specs.declared.way.Way.{Way};
ghost use Rattle.full_tree.specs.declared.code.TreeCode.{TreeCode};
ghost use Rattle.full_tree.specs.declared.code.Tree.{Tree};
ghost use Rattle.section_text.specs.Faults.{SpellsItem, SpellsNoItem};
ghost use Rattle.fst_file.specs.Words.{way_word, side_word, code_words, FitsCode};
ghost use Rattle.fst_file.specs.Format.{fst_format};
ghost use Rattle.fst_file.specs.Kept.{StandsFor, StandsForSide, StandForDrops, StandsForCode};

use full_tree::{Places, Tree, TreeCode, Way};
use std::alloc::Global;
use text_in::{LineWords, unsigned_spelled};

// How many drops are kept. More than 6 drops are in no form, since a code has a root and a tip too.
const KEPT_DROPS: usize = 8;

// The place that a word spells, or, of one above 255, that place: neither is a place of 50 points.
fn place_in(word: &[u8]) -> Option<u8>
    ensures found { IfSome result (λ kept. (k : ℕ) × (k < 2 ^ 32) × (word.now ≡ decimal k)
        × StandsFor kept k) }
    ensures none { IfNone result ((k : ℕ) → k < 2 ^ 32 → word.now ≡ decimal k → ⊥) }
{
    let place = unsigned_spelled(word)?;
    if place > u64::from(u32::MAX) {
        return None;
    }
    Some(place.min(u64::from(u8::MAX)) as u8)
}

// Takes the next word, and gives the place that it spells.
fn next_place(words: &mut LineWords<'_>) -> Option<u8>
    ensures found { IfSome result (λ kept. (k : ℕ) × (k < 2 ^ 32) × (words.old ≡ decimal k ∷ words.new)
        × StandsFor kept k) }
    ensures none { IfNone result ((k : ℕ) (rest : List (List ℕ)) → k < 2 ^ 32
        → words.old ≡ decimal k ∷ rest → ⊥) }
{
    place_in(words.next_word()?)
}

// Takes the next word, and gives the direction that it spells.
fn next_way(words: &mut LineWords<'_>) -> Option<Way>
    ensures found { IfSome result (λ way. words.old ≡ way_word way ∷ words.new) }
    ensures none { IfNone result ((way : Way) (rest : List (List ℕ)) → words.old ≡ way_word way ∷ rest → ⊥) }
{
    match words.next_word()? {
        b"E" => Some(Way::East),
        b"N" => Some(Way::North),
        b"W" => Some(Way::West),
        b"S" => Some(Way::South),
        _ => None,
    }
}

// Takes all words, and gives the places that they spell, as far as they are kept.
fn drops_in(alloc: Global, words: &mut LineWords<'_>) -> Option<Places>
    ensures found { IfSome result (λ kept. (ds : List ℕ) × (words.old ≡ map decimal ds)
        × AllByRecursion (λ d. d < 2 ^ 32) ds × StandForDrops kept ds) }
    ensures none { IfNone result ((ds : List ℕ) → AllByRecursion (λ d. d < 2 ^ 32) ds
        → words.old ≡ map decimal ds → ⊥) }
{
    let mut drops = Places::empty(alloc);
    while !words.is_empty() {
        let place = next_place(words)?;
        if drops.len() < KEPT_DROPS {
            drops.push(place);
        }
    }
    Some(drops)
}

// Takes the next word, and gives the side that it spells, if there is one.
fn next_side(words: &mut LineWords<'_>) -> Option<Option<u8>>
    ensures found { IfSome result (λ kept. (side : Option ℕ) × IfSome side (λ q. q < 2 ^ 32)
        × (words.old ≡ side_word side ∷ words.new) × StandsForSide kept side) }
    ensures none { IfNone result ((side : Option ℕ) (rest : List (List ℕ)) → IfSome side (λ q. q < 2 ^ 32)
        → words.old ≡ side_word side ∷ rest → ⊥) }
{
    let word = words.next_word()?;
    if word == b"-".as_slice() {
        return Some(None);
    }
    let place = place_in(word)?;
    Some(Some(place))
}

// The long code whose places the words spell.
fn long_in(alloc: Global, words: &mut LineWords<'_>) -> Option<TreeCode>
    ensures found { IfSome result (λ kept. (code : TreeCode) × FitsCode code
        × (codes "long" ∷ words.old ≡ code_words code) × StandsForCode kept code) }
    ensures none { IfNone result ((code : TreeCode) → FitsCode code
        → codes "long" ∷ words.old ≡ code_words code → ⊥) }
{
    let root = next_place(words)?;
    let toward = next_way(words)?;
    let tip = next_place(words)?;
    let side = next_side(words)?;
    let drops = drops_in(alloc, words)?;
    Some(TreeCode::Long {
        root,
        toward,
        drops,
        side,
        tip,
    })
}

// The cross whose places the words spell.
fn cross_in(words: &mut LineWords<'_>) -> Option<TreeCode>
    ensures found { IfSome result (λ kept. (code : TreeCode) × FitsCode code
        × (codes "cross" ∷ words.old ≡ code_words code) × StandsForCode kept code) }
    ensures none { IfNone result ((code : TreeCode) → FitsCode code
        → codes "cross" ∷ words.old ≡ code_words code → ⊥) }
{
    let west = next_place(words)?;
    let south = next_place(words)?;
    let east = next_place(words)?;
    let north = next_place(words)?;
    if !words.is_empty() {
        return None;
    }
    Some(TreeCode::Cross {
        west,
        south,
        east,
        north,
    })
}

// The code that the words spell.
fn code_in(alloc: Global, words: &mut LineWords<'_>) -> Option<TreeCode>
    ensures found { IfSome result (λ kept. (code : TreeCode) × FitsCode code
        × (words.old ≡ code_words code) × StandsForCode kept code) }
    ensures none { IfNone result ((code : TreeCode) → FitsCode code → words.old ≡ code_words code → ⊥) }
{
    match words.next_word()? {
        b"long" => long_in(alloc, words),
        b"cross" => cross_in(words),
        _ => None,
    }
}

// The tree that the words spell. Where its code is in form, it is kept as it is; where it isn't, the kept
// code isn't either.
pub(crate) fn tree_in(alloc: Global, words: &mut LineWords<'_>) -> Option<Tree>
    ensures found { IfSome result (λ kept. (t : Tree) × SpellsItem fst_format words.old t × (kept.length ≡ t.length)
        × StandsForCode kept.code t.code) }
    ensures none { IfNone result (SpellsNoItem fst_format words.old) }
{
    let length = words.next_unsigned()?;
    let code = code_in(alloc, words)?;
    Some(Tree { length, code })
}
