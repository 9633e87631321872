//! Laws of the steps that tell an answer.

ghost use Rattle.tree_judge.specs.AnswerLaw.{OneJudging, SoundBoundHolds, StepsTellAnswers};

use cert_tree::tree_bounds_every_network;

/// A step passes or fails, in one way: what is told with it, or the cause and the edges before it. A law: the call does
/// nothing, and its caller knows the fact from there on.
pub fn one_judging()
    ensures { OneJudging }
{}

/// The steps of an answer all pass exactly where what it says of its network and its tree is sound, and the bound that
/// is found behind them is the lesser one of the tree's value and the length. A law: the call does nothing, and its
/// caller knows the fact from there on.
pub fn steps_tell_answers()
    ensures { StepsTellAnswers }
{}

/// No network of a graph is shorter than the lesser one of a sound tree's value and a length. A law: the call does
/// nothing, and its caller knows the fact from there on.
pub fn sound_bound_holds()
    ensures { SoundBoundHolds }
{
    tree_bounds_every_network();
}
