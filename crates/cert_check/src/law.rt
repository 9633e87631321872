//! Laws of verdicts, and of answers that are accepted.

ghost use Rattle.cert_check.specs.Accepted.{AcceptedBoundHolds};
ghost use Rattle.cert_check.specs.UpgradeLaw.{UpgradingKeepsVerdict};
ghost use Rattle.cert_check.specs.VerdictLaw.{OneVerdict, OneVerdictInGraphs, OneVerdictOnGrids};

use answer_text::{one_reading, upgraded_alike};
use cert_tree::tree_bounds_every_network;

/// No network of the terminals' grid is shorter than the bound of an accepted answer, and where it says optimal none
/// is shorter than its length. A law: the call does nothing, and its caller knows the fact from there on.
pub fn accepted_bound_holds()
    ensures { AcceptedBoundHolds }
{
    tree_bounds_every_network();
}

/// Bytes have one verdict at most as an answer in a graph whose labels are each of one edge or vertex, as they are on
/// the grid of terminals and in a graph by numbers, and one set of edges that came before it: so the cause that a
/// verdict gives is the only one. A law: the call does nothing, and its caller knows the fact from there on.
pub fn one_verdict()
    ensures named { OneVerdict }
    ensures grids { OneVerdictOnGrids }
    ensures graphs { OneVerdictInGraphs }
{
    one_reading();
}

/// An answer's text of at most 2^28 bytes has the verdict of the same answer's text in version 2, with the same line
/// where it names one. A law: the call does nothing, and its caller knows the fact from there on.
pub fn upgrading_keeps_verdict()
    ensures { UpgradingKeepsVerdict }
{
    one_reading();
    upgraded_alike();
}
