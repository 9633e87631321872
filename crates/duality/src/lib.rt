//! The law that every packing of weighted directed cuts is a lower bound.
#![tactic(auto)]

ghost use Rattle.duality.specs.Duality.{WeakDuality};

/// No network that agrees with a decision is shorter than the value of a packing that is feasible under it (weak
/// duality; after Wong 1984). A law: the call does nothing, and its caller knows the fact from there on.
pub fn weak_duality()
    ensures { WeakDuality }
{}
