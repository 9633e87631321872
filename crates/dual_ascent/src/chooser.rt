//! A rule that chooses one of several candidates, kept with what is known of it.

ghost use Rattle.std.specs.Prelude.{ℕ, ◌≡◌, ◌<◌, List, length};
ghost use Rattle.std.specs.Borrow.{Bor};
ghost use Rattle.dual_ascent.specs.declared.candidate.Candidate.{Candidate};
ghost use Rattle.dual_ascent.specs.Choosing.{IsCallableOnSome, AnswersAPlace};

use crate::candidate::Candidate;
use std::marker::Model;

/// What is asked for a place in a list of candidates: every `Fn(&[Candidate]) -> usize` is a rule, and is asked by its
/// call. It is a trait of its own since an `impl Model` cannot cite a bound on `Fn`.
pub trait Rule: Drop {
    // The rule may be asked at the list.
    ghost may_choose: { Self → Bor (List Candidate) → Type 0 };

    // Asked at the list, it may answer the place.
    ghost chooses: { Self → Bor (List Candidate) → ℕ → Type 0 };

    /// The place that the rule answers.
    fn pick(&self, list: &[Candidate]) -> usize
        requires { may_choose self.now list }
        ensures { chooses self.now list.entry result };
}

impl<F: Fn(&[Candidate]) -> usize> Rule for F {
    ghost may_choose = { λ f list. F.pre f list };

    ghost chooses = { λ f list place. F.post f list place };

    fn pick(&self, list: &[Candidate]) -> usize {
        self(list)
    }
}

/// A rule beside the fact that it may be called on every list with a candidate and answers a place in the list.
/// Contracts see the rule.
#[derive(Drop)]
pub struct Chooser<F: Rule> {
    rule: F,
}

impl<F: Rule> Model for Chooser<F> {
    ghost Value = { F };

    ghost view = { λ chooser. chooser.rule };

    ghost invariant = { λ chooser. IsCallableOnSome (F.may_choose chooser.rule) ×
        AnswersAPlace (F.chooses chooser.rule) };
}

impl<F: Rule> Chooser<F> {
    /// Keeps a rule that may be called on every list with a candidate and answers a place in the list. It takes no
    /// memory.
    pub fn new(rule: F) -> Chooser<F>
        requires callable { IsCallableOnSome (F.may_choose rule) }
        requires place { AnswersAPlace (F.chooses rule) }
        ensures { result ≡ rule }
    {
        Chooser { rule }
    }

    /// The place in the list of the candidate that the rule chooses. It takes no memory.
    pub fn choose(&self, list: &[Candidate]) -> usize
        requires { 0 < length list.now }
        ensures chosen { F.chooses self.now list.entry result }
        ensures place { result < length list.now }
    {
        self.rule.pick(list)
    }
}
