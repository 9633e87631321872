//! Lines that name one number, and nodes.

ghost use Rattle.std.specs.Prelude.{◌≡◌};
ghost use Rattle.stp_format.specs.Lines.{words_of};
ghost use Rattle.stp_format.specs.Value.{is_node as is_node_of};
ghost use Rattle.stp_format.specs.Sections.{counted as counted_of};
ghost use Rattle.stp_format.specs.Reading.{Gives};

use crate::fault::StpFault;
use crate::number::count_in;
use crate::words::one_word;

/// The one number of 32 bits behind the keyword of a line.
pub(crate) fn counted(line: u64, operands: &[u8]) -> Result<u32, StpFault>
    ensures { Gives (λ n. n) result (counted_of line (words_of operands.now)) }
{
    let word = one_word(line, operands)?;
    count_in(line, word)
}

/// Whether the number is a node.
pub(crate) fn is_node(nodes: u32, i: u32) -> bool
    ensures { result ≡ is_node_of nodes i }
{
    1 <= i && i <= nodes
}
