//! What is said of an answer.

ghost use Rattle.std.specs.Prelude.{◌≡◌, IfSome, IfNone};
ghost use Rattle.cert_check.specs.Rulings.{verdict_of};

use net_graph::EdgeSet;
use tree_judge::Cause;

/// The verdict on an answer that isn't too long.
#[derive(Clone, Copy, Debug)]
pub enum Ruling {
    /// It is accepted, and says this length, this bound and whether it is optimal.
    Accepted {
        length: u64,
        bound: u64,
        optimal: bool,
    },
    /// It is refused. A line that the cause names is counted from 1.
    Refused(Cause),
}

/// The verdict on an answer.
#[derive(Clone, Copy, Debug)]
pub enum Verdict {
    /// It is accepted, and says this length, this bound and whether it is optimal.
    Accepted {
        length: u64,
        bound: u64,
        optimal: bool,
    },
    /// It is refused.
    Refused(Cause),
    /// It has more than 2^32-1 bytes, whatever they are.
    TooLong,
}

impl Verdict {
    /// The same verdict, where the answer isn't too long.
    pub fn ruled(self) -> Option<Ruling>
        ensures ruling { IfSome result (λ ruling. self ≡ verdict_of ruling) }
        ensures none { IfNone result (self ≡ Verdict.TooLong) }
    {
        match self {
            Verdict::Accepted {
                length,
                bound,
                optimal,
            } => Some(Ruling::Accepted {
                length,
                bound,
                optimal,
            }),
            Verdict::Refused(cause) => Some(Ruling::Refused(cause)),
            Verdict::TooLong => None,
        }
    }
}

/// The verdict on an answer, and the edges whose lines came before its first failing line.
#[derive(Drop)]
pub struct Finished {
    pub verdict: Verdict,
    pub network: EdgeSet,
}
