//! The checker of an answer that is fed in pieces.

ghost use Rattle.std.specs.Prelude.{ℕ, ◌≡◌, ◌+◌, ◌-◌, ◌^◌, ◌<◌, ◌≤◌, ◌↔◌, ◌⊎◌, Bool, false, IsTrue, List, [], ◌∷◌};
ghost use Rattle.std.specs.Prelude.{◌++◌, length, replicate, take, IsSome, None};
ghost use Rattle.net_graph.specs.Network.{IsLowerBound};
ghost use Rattle.hanan_grid.specs.Grid.{hanan_grid_of};
ghost use Rattle.tree_judge.specs.Room.{nothing_kept};
ghost use Rattle.cert_check.specs.declared.verdict.Finished.{Finished};
ghost use Rattle.cert_check.specs.Named.{Named, named_of};
ghost use Rattle.cert_check.specs.Accepted.{AcceptsAsIn, IsAcceptedIn, IsAccepting};
ghost use Rattle.cert_check.specs.Verdicts.{IsJudged, IsVerdictIn, byte_limit};
ghost use Rattle.cert_check.specs.Underway.{IsUnderway};
ghost use Rattle.cert_check.specs.UnderwayLaws.{IsUnderway-prop};

use crate::answer_judge::{finished, judge_on, refused};
use crate::read::read_byte;
use crate::subject::Subject;
use crate::verdict::{Finished, Verdict};
use crate::workroom::Workroom;
use answer_text::{EventReader, one_reading};
use cert_tree::tree_bounds_every_network;
use hanan_grid::Grid;
use net_graph::{EdgeSet, VertexSet};
use tree_judge::{Cause, Judge, Room};

/// An answer has no more bytes than this.
const BYTE_LIMIT: u64 = 4_294_967_295;

/// A checker of an answer, for the points of a grid or in a graph. It is fed the answer in pieces, keeps no bytes and
/// takes no memory: it works in the room that it is handed. The first wrong line decides, whatever follows it.
#[derive(Drop)]
pub struct Checker<'a> {
    subject: Subject<'a>,
    reader: EventReader,
    judge: Judge,
    /// Why the answer is refused, once a line was wrong.
    fault: Option<Cause>,
    /// How many bytes were fed, or 2^64-1 where it is more.
    fed: u64,
    ghost underway: { IsUnderway subject reader judge fault fed } by { IsUnderway-prop subject reader judge fault fed },
}

impl<'a> Checker<'a> {
    ghost use Rattle.cert_check.specs.Checking.{StandsForBytes, StandsForBytesIn};

    /// A checker of an answer for the points of a grid that was fed no byte. The room that it is handed: an empty set
    /// of the grid's edges for the network, an empty set of its vertices for the cut that is read, and the room of a
    /// judge in which nothing was judged. A `Workroom` has these.
    pub fn begin(grid: &'a Grid, network: EdgeSet, members: VertexSet, work: Room) -> Checker<'a>
        requires network { network ≡ replicate (length (hanan_grid_of grid.now).edges) false }
        requires members { members ≡ replicate (hanan_grid_of grid.now).vertices false }
        requires work { work ≡ nothing_kept (length (hanan_grid_of grid.now).edges) (hanan_grid_of grid.now).vertices }
        ensures { StandsForBytes grid.now [] result }
    {
        let terminals = grid.points().len();
        prove!(terminals <= 50);
        let room = Workroom {
            network,
            members,
            work,
        };
        Checker::on(Subject::OnGrid(grid), room)
    }

    /// A checker of an answer about a subject of at most 255 terminals that was fed no byte, in such room as
    /// `Workroom::of` gives.
    pub fn on(subject: Subject<'a>, room: Workroom) -> Checker<'a>
        requires terminals { length (named_of subject).graph.terminals ≤ 255 }
        requires network { room.network ≡ replicate (length (named_of subject).graph.edges) false }
        requires members { room.members ≡ replicate (named_of subject).graph.vertices false }
        requires work { room.work ≡ nothing_kept (length (named_of subject).graph.edges)
            (named_of subject).graph.vertices }
        ensures { StandsForBytesIn (named_of subject.entry) [] result }
    {
        let Workroom {
            network,
            members,
            work,
        } = room;
        Checker {
            subject,
            reader: subject.reader(members),
            judge: judge_on(subject, network, work),
            fault: None,
            fed: 0,
        }
    }

    /// Takes the next bytes of the answer.
    pub fn feed(&mut self, piece: &[u8])
        ensures { (N : Named) (bytes : List ℕ) → StandsForBytesIn N bytes self.old
            → StandsForBytesIn N (bytes ++ piece.now) self.new }
    {
        let mut rest = piece;
        while !rest.is_empty() {
            let taken = self.feed_some(rest);
            rest = &rest[taken..];
        }
    }

    // Takes the first of these bytes, or more of them, and gives how many. Behind a wrong line, and behind as many
    // bytes as an answer may have, they are counted alone.
    fn feed_some(&mut self, piece: &[u8]) -> usize
        requires { 0 < length piece.now }
        ensures some { 0 < result }
        ensures few { result ≤ length piece.now }
        ensures feeds { (N : Named) (bytes : List ℕ) → StandsForBytesIn N bytes self.old
            → StandsForBytesIn N (bytes ++ take result piece.now) self.new }
    {
        if self.is_settled() {
            self.fed = self.fed.saturating_add(piece.len() as u64);
            return piece.len();
        }
        let digits = self.feed_digits(piece);
        if digits > 0 {
            return digits;
        }
        self.feed_byte(piece[0]);
        1
    }

    // Takes as many of the first bytes as are digits of a cut's set, as far as an answer may reach, and gives how many.
    fn feed_digits(&mut self, piece: &[u8]) -> usize
        requires right { self.old.fault ≡ None }
        requires room { self.old.fed < byte_limit }
        ensures few { result ≤ length piece.now }
        ensures feeds { (N : Named) (bytes : List ℕ) → StandsForBytesIn N bytes self.old
            → StandsForBytesIn N (bytes ++ take result piece.now) self.new }
        ensures still { (result ≡ 0) → (self.new.fault ≡ None) × (self.new.fed < byte_limit) }
    {
        let room = piece.len().min((BYTE_LIMIT - self.fed) as usize);
        let taken = self.reader.feed_digits(&piece[..room]);
        self.fed += taken as u64;
        taken
    }

    // Takes the next byte, and judges the line that it ends.
    fn feed_byte(&mut self, byte: u8)
        requires right { self.old.fault ≡ None }
        requires room { self.old.fed < byte_limit }
        ensures { (N : Named) (bytes : List ℕ) → StandsForBytesIn N bytes self.old
            → StandsForBytesIn N (bytes ++ byte ∷ []) self.new }
    {
        self.fault = read_byte(self.subject, &mut self.reader, &mut self.judge, byte);
        self.fed += 1;
    }

    // Whether no further byte changes anything but the count.
    fn is_settled(&self) -> bool
        ensures { IsTrue result ↔ (IsSome self.now.fault ⊎ (byte_limit ≤ self.now.fed)) }
    {
        self.fault.is_some() || self.fed >= BYTE_LIMIT
    }

    /// The verdict on the bytes that were fed, and the edges whose lines came before the first wrong one. More than
    /// 2^32-1 bytes are too many, whatever they are.
    pub fn finish(self) -> Finished
        ensures verdict { (N : Named) (bytes : List ℕ) → StandsForBytesIn N bytes self.entry
            → IsVerdictIn N bytes result }
        ensures only { (N : Named) (bytes : List ℕ) → StandsForBytesIn N bytes self.entry
            → (f : Finished) → IsVerdictIn N bytes f → f ≡ result }
        ensures accepted { (N : Named) (bytes : List ℕ) → StandsForBytesIn N bytes self.entry
            → (length bound : ℕ) (optimal : Bool) → result.verdict ≡ Verdict.Accepted length bound optimal
            → AcceptsAsIn N bytes result.network length bound optimal }
        ensures complete { (N : Named) (bytes : List ℕ) → StandsForBytesIn N bytes self.entry
            → length bytes ≤ byte_limit → IsAcceptedIn N bytes → IsAccepting result.verdict }
        ensures bound { (N : Named) (bytes : List ℕ) → StandsForBytesIn N bytes self.entry
            → (length bound : ℕ) (optimal : Bool) → result.verdict ≡ Verdict.Accepted length bound optimal
            → IsLowerBound N.graph bound }
        ensures too_long { (N : Named) (bytes : List ℕ) → StandsForBytesIn N bytes self.entry
            → (result.verdict ≡ Verdict.TooLong) ↔ (byte_limit < length bytes) }
    {
        one_reading();
        tree_bounds_every_network();
        self.verdict()
    }

    // The same, of which no more is said.
    fn verdict(self) -> Finished
        ensures verdict { (N : Named) (bytes : List ℕ) → StandsForBytesIn N bytes self.entry
            → IsVerdictIn N bytes result }
        ensures too_long { (N : Named) (bytes : List ℕ) → StandsForBytesIn N bytes self.entry
            → (result.verdict ≡ Verdict.TooLong) ↔ (byte_limit < length bytes) }
    {
        let fed = self.fed;
        let judged = self.judged();
        if fed > BYTE_LIMIT {
            return Finished {
                verdict: Verdict::TooLong,
                network: judged.network,
            };
        }
        judged
    }

    // The verdict on as many bytes as an answer may have.
    fn judged(self) -> Finished
        ensures { (N : Named) (bytes : List ℕ) → StandsForBytesIn N bytes self.entry
            → IsJudged N (take byte_limit bytes) result }
    {
        if let Some(cause) = self.fault {
            return refused(self.judge, cause);
        }
        if self.reader.ended() {
            return finished(self.judge);
        }
        let line = self.reader.line();
        refused(self.judge, Cause::NotAnswer(line))
    }
}
