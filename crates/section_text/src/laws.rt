//! Laws of the texts of a format. The functions do nothing: each is there for its clauses.

ghost use Rattle.section_text.specs.Laws.{OneOutcome, ValuesAreSpelled, OneReading};

use crate::format::SectionFormat;

/// Bytes come to one outcome at most: to one value, or to one first fault.
pub fn one_outcome<S: SectionFormat>()
    ensures { OneOutcome S.format }
{
    S::lawful()
}

/// Bytes come to a value exactly where they spell it.
pub fn values_are_spelled<S: SectionFormat>()
    ensures { ValuesAreSpelled S.format }
{
    S::lawful()
}

/// Bytes spell one value at most, and no spelling is a proper prefix of another.
pub fn one_reading<S: SectionFormat>()
    ensures { OneReading S.format }
{
    S::lawful()
}
