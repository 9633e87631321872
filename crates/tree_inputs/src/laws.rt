//! Laws of the inputs of these tools. A law does nothing: it is there for its clause.

ghost use Rattle.tree_inputs.specs.Files.{SpelledHasNoFault, OneReading};

use fst_file::FstFormat;
use section_text::{one_outcome, one_reading, values_are_spelled};

/// A text that spells a file has no fault, and spells no other file.
pub fn spelled_has_no_fault()
    ensures no_fault { SpelledHasNoFault }
    ensures one { OneReading }
{
    one_outcome::<FstFormat>();
    values_are_spelled::<FstFormat>();
    one_reading::<FstFormat>();
}
