//! The laws that bytes spell one answer at most, and that a reader stands for bytes that begin one.

ghost use Rattle.std.specs.Prelude.{◌≡◌, ℕ, List};
ghost use Rattle.text_in.specs.Words.{IsLine};
ghost use Rattle.answer_text.specs.declared.event.AnswerEvent.{AnswerEvent};
ghost use Rattle.answer_text.specs.declared.form.Form.{Form};
ghost use Rattle.answer_text.specs.declared.form.Form.TheVariants as form_of;
ghost use Rattle.answer_text.specs.declared.reader.EventReader.{EventReader};
ghost use Rattle.answer_text.specs.declared.version.Version.{Version};
ghost use Rattle.answer_text.specs.AnswerLine.{Line};
ghost use Rattle.answer_text.specs.Events.{events_of};
ghost use Rattle.answer_text.specs.LineFits.{FitsLine, FitsLines};
ghost use Rattle.answer_text.specs.Lines.{answer_lines, line_bytes};
ghost use Rattle.answer_text.specs.Reader.{BeginsWith, Reads};
ghost use Rattle.answer_text.specs.Spelling.{OneReading, SpellsAnswer};
ghost use Rattle.answer_text.specs.Text.{answer_text};
ghost use Rattle.answer_text.specs.Value.{WrittenAnswer, upgraded};

/// No spelling of an answer is a proper front of another, and bytes spell one answer at most. A law: the call
/// does nothing, and its caller knows the fact from there on.
pub fn one_reading()
    ensures { OneReading }
{}

/// The bytes for which a reader stands begin an answer, and its events are the first of each answer that begins with
/// them. A law: the call does nothing, and its caller knows the fact from there on.
pub fn reads_beginnings()
    ensures { (F : Form) (bytes : List ℕ) (events : List AnswerEvent) (reader : EventReader) →
        Reads F bytes events reader → BeginsWith F bytes events }
{}

/// The lines of an answer that bytes spell fit its form and the version that its title tells, and a line that fits
/// holds no line feed. A law: the call does nothing, and its caller knows the facts from there on.
pub fn lines_fit()
    ensures fit { (v : Version) (F : Form) (bytes : List ℕ) (answer : WrittenAnswer) → SpellsAnswer F bytes answer →
        FitsLines v F (answer_lines answer) }
    ensures lines { (v : Version) (F : Form) (l : Line) → FitsLine v F l → IsLine (line_bytes l) }
{}

/// Every answer on a grid that has a text has one in version 2 too, which tells the same events, each in the same line.
/// A law: the call does nothing, and its caller knows the facts from there on.
pub fn upgraded_alike()
    ensures spells { (V : ℕ) (bytes : List ℕ) (answer : WrittenAnswer) →
        SpellsAnswer (form_of.OnGrid V) bytes answer →
        SpellsAnswer (form_of.OnGrid V) (answer_text (upgraded answer)) (upgraded answer) }
    ensures told { (V : ℕ) (bytes : List ℕ) (answer : WrittenAnswer) →
        SpellsAnswer (form_of.OnGrid V) bytes answer → events_of (upgraded answer) ≡ events_of answer }
{}
