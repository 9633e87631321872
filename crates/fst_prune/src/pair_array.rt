//! Pairs in an array.

ghost use Rattle.std.specs.Prelude.{◌≡◌, ◌<◌, ◌≤◌, [], ◌∷◌, ◌++◌, length};

use spanning::Pair;
use std::marker::Model;

/// At most 64 pairs, which lie in the value itself. Contracts see the list of them.
#[derive(Drop)]
pub struct PairArray {
    pairs: [Pair; 64],
    count: usize,
}

impl Model for PairArray {
    ghost use Rattle.std.specs.Prelude.{◌≤◌, List, take};
    ghost use Rattle.spanning.specs.declared.pair.Pair.{Pair};

    ghost Value = { List Pair };

    ghost view = { λ a. take a.count a.pairs };

    ghost invariant = { λ a. a.count ≤ 64 };
}

impl PairArray {
    /// No pairs.
    pub fn empty() -> PairArray
        ensures { result ≡ [] }
    {
        let none = Pair {
            a: 0,
            b: 0,
            length: 0,
        };
        PairArray {
            pairs: [none; 64],
            count: 0,
        }
    }

    /// Appends a pair.
    pub fn push(&mut self, pair: Pair)
        requires { length self.old < 64 }
        ensures { self.new ≡ self.old ++ pair ∷ [] }
    {
        self.pairs[self.count] = pair;
        self.count += 1;
    }

    /// The pairs, in order.
    pub fn as_slice(&self) -> &[Pair]
        ensures { result.now ≡ self.now }
    {
        &self.pairs[..self.count]
    }
}
