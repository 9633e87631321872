//! The judge of an answer.

ghost use Rattle.std.specs.Prelude.{ℕ, ◌≡◌, ◌≤◌, List, [], Some, IfSome, IfNone, false, length, replicate};
ghost use Rattle.tree_judge.specs.declared.claim.Claim.{Claim};
ghost use Rattle.tree_judge.specs.Ends as judged;
ghost use Rattle.tree_judge.specs.Judged.{SoFar, nothing_told};
ghost use Rattle.tree_judge.specs.Judged as steps;
ghost use Rattle.tree_judge.specs.Room.{nothing_kept};
ghost use Rattle.tree_judge.specs.Standing.{IsJudgeOn, StandsFor, network_of};
ghost use Rattle.tree_judge.specs.Steps.{IsStepIn};
ghost use Rattle.cert_check.specs.Named.{Named, named_of};
ghost use Rattle.cert_check.specs.Ends.{EndsWith};
ghost use Rattle.cert_check.specs.Lines.Behind.{Ended};
ghost use Rattle.cert_check.specs.Judged.{Passes, Fails, Judges};

use crate::border::layout_of;
use crate::step::step_told;
use crate::subject::Subject;
use crate::verdict::{Finished, Verdict};
use answer_text::Event;
use net_graph::{EdgeSet, VertexSet};
use tree_judge::{AnyBorder, Cause, Claim, Judge, Room, Step};

/// A judge before the first line.
pub(crate) fn judge_on(subject: Subject, network: EdgeSet, work: Room) -> Judge
    requires network { network ≡ replicate (length (named_of subject).graph.edges) false }
    requires terminals { length (named_of subject).graph.terminals ≤ 255 }
    requires work { work ≡ nothing_kept (length (named_of subject).graph.edges) (named_of subject).graph.vertices }
    ensures sizes { IsJudgeOn (named_of subject.entry).graph result }
    ensures nothing { StandsFor (named_of subject.entry).graph (nothing_told (named_of subject.entry).graph) result }
{
    Judge::begin(subject.graph(), network, work)
}

/// Judges the next line, of which the members are those of a cut. Gives why it is wrong, if it is.
pub(crate) fn judge_line(
    subject: Subject,
    judge: &mut Judge,
    line: u64,
    event: &Event,
    members: &VertexSet,
) -> Option<Cause>
    requires sizes { IsJudgeOn (named_of subject).graph judge.old }
    requires members { length members.now ≡ (named_of subject).graph.vertices }
    ensures sizes { IsJudgeOn (named_of subject.entry).graph judge.new }
    ensures passes { IfNone result ((s : SoFar) → StandsFor (named_of subject.entry).graph s judge.old → (s' : SoFar)
        × Passes (named_of subject.entry) s event.now (Some members.now) s'
        × StandsFor (named_of subject.entry).graph s' judge.new) }
    ensures fault { IfSome result (λ cause. (s : SoFar) → StandsFor (named_of subject.entry).graph s judge.old
        → Fails (named_of subject.entry) s line event.now (Some members.now) cause (network_of judge.new)) }
{
    match step_told(subject, line, event) {
        Ok(step) => judge_step(subject, judge, line, step, members),
        Err(cause) => Some(cause),
    }
}

// Judges the next step, which a line told.
fn judge_step(
    subject: Subject,
    judge: &mut Judge,
    line: u64,
    step: Step,
    members: &VertexSet,
) -> Option<Cause>
    requires sizes { IsJudgeOn (named_of subject).graph judge.old }
    requires inside { IsStepIn (named_of subject).graph step }
    requires members { length members.now ≡ (named_of subject).graph.vertices }
    ensures sizes { IsJudgeOn (named_of subject.entry).graph judge.new }
    ensures passes { IfNone result ((s : SoFar) → StandsFor (named_of subject.entry).graph s judge.old → (s' : SoFar)
        × steps.Passes (named_of subject.entry).graph s step (Some members.now) s'
        × StandsFor (named_of subject.entry).graph s' judge.new) }
    ensures fault { IfSome result (λ cause. (s : SoFar) → StandsFor (named_of subject.entry).graph s judge.old
        → steps.Fails (named_of subject.entry).graph s line step (Some members.now) cause (network_of judge.new)) }
{
    match subject {
        Subject::OnGrid(grid) => judge.judge(grid.graph(), &layout_of(grid), line, step, members),
        Subject::InGraph(g) => judge.judge(g, &AnyBorder, line, step, members),
    }
}

/// The answer is refused for a cause.
pub(crate) fn refused(judge: Judge, cause: Cause) -> Finished
    ensures verdict { result.verdict ≡ Verdict.Refused cause }
    ensures network { result.network ≡ network_of judge }
{
    Finished {
        verdict: Verdict::Refused(cause),
        network: judge.into_network(),
    }
}

/// The verdict behind the last line, where the text ends with it.
pub(crate) fn finished(judge: Judge) -> Finished
    ensures { (N : Named) (s : SoFar) → StandsFor N.graph s judge → Judges N s [] Ended result }
{
    let verdict = verdict_of(judge.end());
    Finished {
        verdict,
        network: judge.into_network(),
    }
}

// The verdict on an answer whose every line is right, by what a judge says of the whole of it.
fn verdict_of(whole: Result<Claim, Cause>) -> Verdict
    ensures { (claim : Claim) (found : ℕ) → judged.EndsWith claim found whole → EndsWith claim found result }
{
    match whole {
        Ok(claim) => Verdict::Accepted {
            length: claim.length,
            bound: claim.bound,
            optimal: claim.optimal,
        },
        Err(cause) => Verdict::Refused(cause),
    }
}
