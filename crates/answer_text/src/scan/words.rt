//! The words of the format, byte by byte.

ghost use Rattle.std.specs.Prelude.{◌≡◌, ◌<◌, ◌≤◌, length, IfSome, IfNone};
ghost use Rattle.answer_text.specs.declared.scan.Kept.{Kept};
ghost use Rattle.answer_text.specs.declared.scan.Scan.TheVariants as scan;
ghost use Rattle.answer_text.specs.Scanning.{word_bytes, behind_word};
ghost use Rattle.answer_text.specs.Scanning.{LeadsTo, IsUnderway, IsDead, IsFork};

use crate::form::Form;
use crate::scan::start::{edge_scan, vertex_scan};
use crate::scan::{Closed, Field, Scan, Word};
use crate::version::Version;

// What is due behind a byte of a word; None where another byte stands there.
pub(crate) fn word_byte(word: Word, place: u8, byte: u8) -> Option<Scan>
    ensures leads { IfSome result (λ next. (k : Kept) → LeadsTo k (scan.Word word place) byte k next) }
    ensures sound { IfSome result (λ next. (k : Kept) → IsUnderway k (scan.Word word place) → IsUnderway k next) }
    ensures dead { IfNone result (place < length (word_bytes word)
        → (k : Kept) → IsDead k (scan.Word word place) byte) }
{
    let bytes = bytes_of(word);
    let at = place as usize;
    if at >= bytes.len() {
        return None;
    }
    if bytes[at] != byte {
        return None;
    }
    if at + 1 < bytes.len() {
        Some(Scan::Word(word, place + 1))
    } else {
        Some(behind(word))
    }
}

// What is due behind the first byte of one of two words; None where neither begins with the byte.
#[tactic(auto, using(crate::proofs::lemmas::ScanWords::split_open, crate::proofs::lemmas::ScanWords::vertex_open))]
pub(crate) fn fork_byte(fork: Scan, byte: u8) -> Option<Scan>
    ensures leads { IfSome result (λ next. (k : Kept) → LeadsTo k fork byte k next) }
    ensures sound { IfSome result (λ next. (k : Kept) → IsUnderway k fork → IsUnderway k next) }
    ensures dead { IfNone result (IsFork fork → (k : Kept) → IsDead k fork byte) }
{
    match (fork, byte) {
        (Scan::Version, b'1') => Some(Scan::LineEnd(Closed::Title(Version::One))),
        (Scan::Version, b'2') => Some(Scan::LineEnd(Closed::Title(Version::Two))),
        (Scan::Status, b'o') => Some(Scan::Word(Word::Optimal, 1)),
        (Scan::Status, b's') => Some(Scan::Word(Word::Stopped, 1)),
        (Scan::Kind, b'l') => Some(Scan::Word(Word::Least, 1)),
        (Scan::Kind, b's') => Some(Scan::Word(Word::Spent, 1)),
        (Scan::Node(version, form), b's') => Some(Scan::Word(Word::Split(version, form), 1)),
        (Scan::Node(_, _), b'l') => Some(Scan::Word(Word::Leaf, 1)),
        (Scan::On(form), b'e') => edge_byte(form),
        (Scan::On(form), b'v') => Some(Scan::Word(Word::Vertex(form), 1)),
        _ => None,
    }
}

// What is due behind the first byte of the word of an edge; None where there is no edge.
fn edge_byte(form: Form) -> Option<Scan>
    ensures leads { IfSome result (λ next. (k : Kept) → LeadsTo k (scan.On form) 101 k next) }
    ensures sound { IfSome result (λ next. (k : Kept) → IsUnderway k next) }
    ensures dead { IfNone result ((k : Kept) → IsDead k (scan.On form) 101) }
{
    match form {
        Form::OfGraph(0, _) => None,
        _ => Some(Scan::Word(Word::Edge(form), 1)),
    }
}

// The bytes of a word.
fn bytes_of(word: Word) -> &'static [u8]
    ensures bytes { result.now ≡ word_bytes word }
    ensures few { length result.now ≤ 11 }
{
    match word {
        Word::Title => b"rst answer ",
        Word::GraphTitle => b"rst graph 1",
        Word::Length => b"length ",
        Word::Bound => b"bound ",
        Word::Status => b"status ",
        Word::Optimal => b"optimal",
        Word::Stopped => b"stopped",
        Word::Openings | Word::LastOpenings => b"openings ",
        Word::Concat => b"concat ",
        Word::Least => b"least ",
        Word::Spent => b"spent ",
        Word::Edges(_) => b"edges ",
        Word::Tree => b"tree",
        Word::Split(_, _) => b"split ",
        Word::Edge(_) => b"edge ",
        Word::Vertex(_) => b"vertex ",
        Word::Leaf => b"leaf ",
        Word::Cut => b"cut ",
        Word::End => b"end",
    }
}

// What is due behind a word.
fn behind(word: Word) -> Scan
    ensures { result ≡ behind_word word }
{
    match word {
        Word::Title => Scan::Version,
        Word::GraphTitle => Scan::LineEnd(Closed::Title(Version::Graph)),
        Word::Length => Scan::Due(Field::Length),
        Word::Bound => Scan::Due(Field::Bound),
        Word::Status => Scan::Status,
        Word::Optimal => Scan::LineEnd(Closed::Status(true)),
        Word::Stopped => Scan::LineEnd(Closed::Status(false)),
        Word::Openings => Scan::Due(Field::Openings),
        Word::LastOpenings => Scan::Due(Field::LastOpenings),
        Word::Concat => Scan::Kind,
        Word::Least => Scan::Due(Field::Total(true)),
        Word::Spent => Scan::Due(Field::Total(false)),
        Word::Edges(most) => Scan::Due(Field::Count(most)),
        Word::Tree => Scan::LineEnd(Closed::Tree),
        Word::Split(Version::One, form) | Word::Edge(form) => edge_scan(form),
        Word::Split(_, form) => Scan::On(form),
        Word::Vertex(form) => vertex_scan(form),
        Word::Leaf => Scan::Due(Field::Leaf),
        Word::Cut => Scan::Due(Field::Weight),
        Word::End => Scan::LineEnd(Closed::End),
    }
}
