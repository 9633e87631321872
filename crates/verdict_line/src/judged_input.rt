//! The judge of an answer as it comes in.

ghost use Rattle.std.specs.Prelude.{◌≡◌, ◌≤◌, ℕ, List, [], IfOk, length};
ghost use Rattle.cert_check.specs.Checking.{StandsForBytesIn};
ghost use Rattle.cert_check.specs.Named.{named_of};
ghost use Rattle.cert_check.specs.Verdicts.{byte_limit};
ghost use Rattle.tool_frame.specs.Stops.{IfFound, OnStarved};
ghost use Rattle.tool_frame.specs.Taking.{TakesSome};
ghost use Rattle.verdict_line.specs.Judging.{JudgesInput, TellsVerdict};

use cert_check::{Checker, Ruling, Subject, Workroom};
use net_graph::EdgeSet;
use rst_outside::{Consumer, Source};
use std::alloc::{AllocError, Global};
use std::marker::{Brand, PhantomData};
use tool_frame::{InputFault, Stop, feed_input};

/// How many bytes of an answer are asked for at once.
const BLOCK: usize = 1 << 16;

/// What is found of an answer that isn't too long: the verdict on it, and the edges whose lines came before its first
/// wrong one. Of an answer that is accepted they are its network.
#[derive(Drop)]
pub struct Judged {
    pub ruling: Ruling,
    pub network: EdgeSet,
}

/// What an answer is about.
pub trait About {
    ghost use Rattle.cert_check.specs.Named.{Named};

    ghost named: { Named };
}

impl About for Brand {
    ghost use Rattle.std.specs.Prelude.{[]};
    ghost use Rattle.cert_check.specs.Named.{on_grid};

    ghost named = { on_grid [] };
}

/// A checker of answers about something, as what is fed an answer.
#[derive(Drop)]
struct Judging<'a, K: About> {
    checker: Checker<'a>,
    of: PhantomData<K>,
}

impl<'a, K: About> Judging<'a, K> {
    /// Before the first byte. An `Err` is want of memory, of which nothing is taken from here on.
    fn begin(alloc: Global, subject: Subject<'a>) -> Result<Judging<'a, K>, AllocError>
        requires { length (named_of subject).graph.terminals ≤ 255 }
        ensures { IfOk result (λ judging. StandsForBytesIn (named_of subject.entry) [] judging.checker) }
    {
        let room = Workroom::of(alloc, subject)?;
        Ok(Judging {
            checker: Checker::on(subject, room),
            of: PhantomData,
        })
    }

    /// What is found of what was fed. A fault says that this is more than the limit. It takes no memory.
    fn finish(self, limit: u64) -> Result<Judged, Stop<InputFault>>
        requires { limit ≤ byte_limit }
        ensures tells { (bytes : List ℕ) → StandsForBytesIn K.named bytes self.entry.checker
            → IfFound result (TellsVerdict K.named limit bytes) }
        ensures sure { OnStarved result ⊥ }
    {
        let finished = self.checker.finish();
        match finished.verdict.ruled() {
            Some(ruling) => Ok(Judged {
                ruling,
                network: finished.network,
            }),
            None => Err(Stop::Fault(InputFault::TooLong { limit })),
        }
    }
}

impl<K: About> Consumer for Judging<'_, K> {
    ghost use Rattle.cert_check.specs.Checking.{StandsForBytesIn};

    ghost stands = { λ judging bytes. StandsForBytesIn K.named bytes judging.checker };

    fn feed(&mut self, piece: &[u8]) {
        self.checker.feed(piece);
    }
}

/// What is found of the input, of at most so many bytes, as an answer about the subject, which has at most 255
/// terminals. Memory is wanting before the input is touched alone.
pub fn judge_input<K: About, I: Source>(
    alloc: Global,
    subject: Subject,
    input: &mut I,
    limit: u64,
) -> Result<Judged, Stop<InputFault>>
    requires about { named_of subject ≡ K.named }
    requires terminals { length (named_of subject).graph.terminals ≤ 255 }
    requires limit { limit ≤ byte_limit }
    ensures judges { IfFound result
        (JudgesInput (named_of subject.entry) limit (I.state input.old) (I.state input.new)) }
    ensures unread { OnStarved result (I.state input.new ≡ I.state input.old) }
    ensures some { TakesSome (I.state input.old) (I.state input.new) }
{
    let mut block = vec![in alloc; 0u8; BLOCK]?;
    let mut judging = Judging::<K>::begin(alloc, subject)?;
    match feed_input(input, &mut block, &mut judging, limit) {
        Ok(()) => judging.finish(limit),
        Err(fault) => Err(Stop::Fault(fault)),
    }
}
