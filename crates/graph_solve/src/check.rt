//! The checker of an answer in a graph whose bytes are all there.

ghost use Rattle.std.specs.Prelude.{ℕ, ◌≡◌, ◌<◌, ◌≤◌, ◌^◌, Bool, List, length, IfOk};
ghost use Rattle.net_graph.specs.Network.{IsLowerBound};
ghost use Rattle.cert_check.specs.Accepted.{IsAccepting};
ghost use Rattle.cert_check.specs.Rulings.{verdict_of};
ghost use Rattle.graph_solve.specs.Accepted.{AcceptsGraphAs, IsGraphAccepted, IsOnlyVerdictOn, IsVerdictOn};

use cert_check::{Checker, Ruling, Subject, Workroom};
use net_graph::NetGraph;
use std::alloc::{AllocError, Global};

/// The verdict on bytes as an answer in the graph: accepted exactly where they are the text of one and all that it says
/// is right, else the cause of the first line that is wrong. It is the only verdict on the bytes. No network of the
/// graph is shorter than the bound of an accepted answer. An `Err` is want of memory.
pub fn check_graph(alloc: Global, g: &NetGraph, bytes: &[u8]) -> Result<Ruling, AllocError>
    requires terminals { length g.now.terminals ≤ 255 }
    requires few { length bytes.now < 2 ^ 32 }
    ensures verdict { IfOk result (IsVerdictOn g.now bytes.now) }
    ensures only { IfOk result (IsOnlyVerdictOn g.now bytes.now) }
    ensures accepted { IfOk result (λ v. (length bound : ℕ) (optimal : Bool)
        → v ≡ Ruling.Accepted length bound optimal
        → (network : List Bool) × AcceptsGraphAs g.now bytes.now network length bound optimal) }
    ensures complete { IfOk result (λ v. IsGraphAccepted g.now bytes.now → IsAccepting (verdict_of v)) }
    ensures bound { IfOk result (λ v. (length bound : ℕ) (optimal : Bool)
        → v ≡ Ruling.Accepted length bound optimal → IsLowerBound g.now bound) }
{
    let subject = Subject::InGraph(g);
    let mut checker = Checker::on(subject, Workroom::of(alloc, subject)?);
    checker.feed(bytes);
    let finished = checker.finish();
    match finished.verdict.ruled() {
        Some(ruling) => Ok(ruling),
        None => unreachable!(),
    }
}
