//! Sets of places as words.

ghost use Rattle.std.specs.Prelude.{◌<◌, All};
ghost use Rattle.full_tree.specs.Word.{IsWordOf};

/// Places below 64 as a word: bit k is 1 exactly where the place k is among them. So lists of the same places have one
/// word, and a word is of one ascending list.
pub fn word_of(places: &[u8]) -> u64
    requires { All (λ k. k < 64) places.now }
    ensures { IsWordOf result places.now }
{
    let mut word = 0;
    for place in places {
        word |= 1 << *place;
    }
    word
}
