//! Reads the text of an answer that is fed byte by byte, and keeps no bytes.

ghost use Rattle.std.specs.Prelude.{◌≤◌, ◌+◌};
ghost use Rattle.answer_text.specs.Lines.{nodes_due};

use crate::event::Event;
use crate::form::Form;
use crate::head::AnswerHead;
use crate::line::Stage;
use crate::scan::byte::scan_byte;
use crate::scan::close::close_line;
use crate::scan::start::first_scan;
use crate::scan::{Kept, Scan};
use crate::version::Version;
use hanan_grid::EdgeName;
use net_graph::VertexSet;

/// The text ceased to begin an answer's.
#[derive(Clone, Copy, Debug)]
pub struct Spelling {
    /// The line in which it ceased, counted from 1.
    pub line: u64,
}

/// A reader of an answer's text that is fed byte by byte. It keeps no bytes and takes no memory.
#[derive(Drop)]
pub struct EventReader {
    form: Form,
    kept: Kept,
    scan: Scan,
    head: AnswerHead,
    line: u64,
    fed: u64,
    ghost counted: { line ≤ fed + 1 },
    ghost few: { nodes_due kept.stage ≤ fed },
}

impl EventReader {
    ghost use Rattle.std.specs.Prelude.{ℕ, ◌≡◌, ◌≢◌, ◌+◌, ◌-◌, ◌<◌, ◌≤◌, ◌^◌, false, List, [], ◌∷◌, ◌++◌, length};
    ghost use Rattle.std.specs.Prelude.{take, replicate, IsTrue, MatchBool, Err, IfOk, IfErr, None, IfSome, IfNone};
    ghost use Rattle.answer_text.specs.declared.event.AnswerEvent.{AnswerEvent};
    ghost use Rattle.answer_text.specs.declared.form.Form.{Form};
    ghost use Rattle.answer_text.specs.declared.form.Form.TheVariants as form_of;
    ghost use Rattle.answer_text.specs.Forms.{HasVertices, first_version, set_size};
    ghost use Rattle.answer_text.specs.Reading.{IsReadWhole, StopsAt, line_feeds};
    ghost use Rattle.answer_text.specs.Given.{given};
    ghost use Rattle.answer_text.specs.Reader.{Reads, Refuses, CeasesAt, TellsVersion, bytes_fed, line_due, set_read};

    /// A reader of an answer on a grid that was fed no byte, for cuts that are sets of so many vertices. It keeps the
    /// set of a cut in the one that it is handed.
    pub fn begin(vertices: u32, members: VertexSet) -> EventReader
        requires { members ≡ replicate vertices false }
        ensures { Reads (form_of.OnGrid vertices) [] [] result }
    {
        EventReader::of_form(Form::OnGrid(vertices), Version::One, members)
    }

    /// A reader of an answer in a graph with so many edges and vertices that was fed no byte. It keeps the set of a cut
    /// in the one that it is handed.
    pub fn of_graph(edges: u32, vertices: u32, members: VertexSet) -> EventReader
        requires some { 0 < vertices }
        requires members { members ≡ replicate vertices false }
        ensures { Reads (form_of.OfGraph edges vertices) [] [] result }
    {
        EventReader::of_form(Form::OfGraph(edges, vertices), Version::Graph, members)
    }

    // A reader of an answer of a form that was fed no byte.
    fn of_form(form: Form, version: Version, members: VertexSet) -> EventReader
        requires version { version ≡ first_version form }
        requires some { HasVertices form }
        requires members { members ≡ replicate (set_size form) false }
        ensures { Reads form [] [] result }
    {
        EventReader {
            form,
            kept: Kept {
                stage: Stage::Title,
                version,
                name: EdgeName {
                    x1: 0,
                    y1: 0,
                    x2: 0,
                    y2: 0,
                },
                weight: 0,
                members,
            },
            scan: first_scan(form, version, Stage::Title),
            head: AnswerHead::default(),
            line: 1,
            fed: 0,
        }
    }

    /// Reads one more byte, and tells the event that it ends: an event ends with the line feed of its line, and that
    /// of the head with the sixth, or with the fifth in a graph. An `Err` comes at the first byte with which no
    /// answer's text begins, and for good from then on, with the same line.
    pub fn feed(&mut self, byte: u8) -> Result<Option<Event>, Spelling>
        requires { bytes_fed self.old < 2 ^ 32 - 1 }
        ensures fed { bytes_fed self.new ≡ bytes_fed self.old + 1 }
        ensures reads { (F : Form) (bytes : List ℕ) (events : List AnswerEvent) → Reads F bytes events self.old →
            IfOk result (λ told. Reads F (bytes ++ byte ∷ [])
            (events ++ given (line_due self.old) told (set_read self.new)) self.new) }
        ensures ceases { (F : Form) (bytes : List ℕ) (events : List AnswerEvent) → Reads F bytes events self.old →
            IfErr result (λ fault. CeasesAt F bytes byte fault.line events) }
        ensures refuses { IfErr result (λ fault. Refuses self.new fault.line) }
        ensures refused { (n : ℕ) → Refuses self.old n → result ≡ Err (record { line = n }) }
    {
        let told = if byte == b'\n' {
            self.end_line()
        } else {
            self.go_on(byte)
        };
        let Some(event) = told else {
            self.scan = Scan::Refused;
            return Err(Spelling { line: self.line });
        };
        Ok(event)
    }

    /// Reads bytes of which no event can come: as many of the piece's first ones as are digits of the set that is due,
    /// short of its last digit where that stands for fewer than four vertices. Tells how many; 0 where no set is due.
    pub fn feed_digits(&mut self, piece: &[u8]) -> usize
        requires { bytes_fed self.old + length piece.now < 2 ^ 32 }
        ensures few { result ≤ length piece.now }
        ensures fed { bytes_fed self.new ≡ bytes_fed self.old + result }
        ensures reads { (F : Form) (bytes : List ℕ) (events : List AnswerEvent) → Reads F bytes events self.old →
            Reads F (bytes ++ take result piece.now) events self.new }
        ensures refused { (n : ℕ) → Refuses self.old n → Refuses self.new n }
    {
        let Scan::Set(place) = self.scan else {
            return 0;
        };
        let taken = self.kept.set_digits(place, piece);
        self.scan = Scan::Set(place + taken as u32);
        self.fed += taken as u64;
        taken
    }

    // Reads a line feed, and tells the event of the line, if it is one. None where the line can't end here.
    fn end_line(&mut self) -> Option<Option<Event>>
        requires { bytes_fed self.old < 2 ^ 32 - 1 }
        ensures fed { bytes_fed self.new ≡ bytes_fed self.old + 1 }
        ensures reads { IfSome result (λ told. (F : Form) (bytes : List ℕ) (events : List AnswerEvent) →
            Reads F bytes events self.old →
            Reads F (bytes ++ 10 ∷ []) (events ++ given (line_due self.old) told (set_read self.new)) self.new) }
        ensures ceases { IfNone result ((F : Form) (bytes : List ℕ) (events : List AnswerEvent) →
            Reads F bytes events self.old → CeasesAt F bytes 10 (line_due self.old) events) }
        ensures kept { IfNone result (line_due self.new ≡ line_due self.old) }
        ensures refused { (n : ℕ) → Refuses self.old n → result ≡ None }
    {
        self.fed += 1;
        let event = close_line(&mut self.kept, &mut self.head, self.scan)?;
        self.scan = first_scan(self.form, self.kept.version, self.kept.stage);
        self.line += 1;
        Some(event)
    }

    // Reads a byte within a line, where no event is told. None where no line that is due goes on with it.
    fn go_on(&mut self, byte: u8) -> Option<Option<Event>>
        requires room { bytes_fed self.old < 2 ^ 32 - 1 }
        requires inside { byte ≢ 10 }
        ensures fed { bytes_fed self.new ≡ bytes_fed self.old + 1 }
        ensures reads { IfSome result (λ told. (F : Form) (bytes : List ℕ) (events : List AnswerEvent) →
            Reads F bytes events self.old →
            Reads F (bytes ++ byte ∷ []) (events ++ given (line_due self.old) told (set_read self.new)) self.new) }
        ensures ceases { IfNone result ((F : Form) (bytes : List ℕ) (events : List AnswerEvent) →
            Reads F bytes events self.old → CeasesAt F bytes byte (line_due self.old) events) }
        ensures kept { line_due self.new ≡ line_due self.old }
        ensures refused { (n : ℕ) → Refuses self.old n → result ≡ None }
    {
        self.fed += 1;
        self.scan = scan_byte(&mut self.kept, self.scan, byte)?;
        Some(None)
    }

    /// The set of the cut that was just read.
    pub fn members(&self) -> &VertexSet
        ensures { result.now ≡ set_read self.now }
    {
        &self.kept.members
    }

    /// The line of the next byte, counted from 1.
    pub fn line(&self) -> u64
        ensures line { result ≡ line_due self.now }
        ensures feeds { (F : Form) (bytes : List ℕ) (events : List AnswerEvent) → Reads F bytes events self.now →
            result ≡ line_feeds bytes + 1 }
    {
        self.line
    }

    /// The version of the text behind its head, 1 or 2, and 1 in a graph: that of each answer that begins with the
    /// bytes.
    pub fn version(&self) -> u8
        requires { 6 < line_due self.now }
        ensures { (F : Form) (bytes : List ℕ) (events : List AnswerEvent) → Reads F bytes events self.now →
            TellsVersion F bytes result }
    {
        match self.kept.version {
            Version::One | Version::Graph => 1,
            Version::Two => 2,
        }
    }

    /// How many bytes were fed. No tool asks for it.
    pub fn fed(&self) -> u64
        ensures fed { result ≡ bytes_fed self.now }
        ensures length { (F : Form) (bytes : List ℕ) (events : List AnswerEvent) → Reads F bytes events self.now →
            result ≡ length bytes }
    {
        self.fed
    }

    /// Whether the end was told and nothing came after it.
    pub fn ended(&self) -> bool
        ensures reads { (F : Form) (bytes : List ℕ) (events : List AnswerEvent) → Reads F bytes events self.now →
            MatchBool result (IsReadWhole F bytes events) (StopsAt F bytes (line_due self.now) events) }
        ensures headed { IsTrue result → (F : Form) (bytes : List ℕ) (events : List AnswerEvent) →
            Reads F bytes events self.now → 6 < line_due self.now }
        ensures refused { (n : ℕ) → Refuses self.now n → result ≡ false }
    {
        matches!(self.scan, Scan::Ended)
    }
}
