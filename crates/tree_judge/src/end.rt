//! What is said of a whole answer of which every line is right.

ghost use Rattle.tree_judge.specs.Ends.{EndsWith};

use crate::cause::Cause;
use crate::claim::Claim;

/// The claim of an answer where its bound is the lesser one of its tree's value and its length, which was found, and
/// its status is right. An `Err` is why they are not.
pub(crate) fn judged_end(claim: Claim, found: u64) -> Result<Claim, Cause>
    ensures { EndsWith claim found result }
{
    if claim.bound != found {
        return Err(Cause::WrongBound {
            printed: claim.bound,
            found,
        });
    }
    if claim.optimal != (claim.bound == claim.length) {
        return Err(Cause::WrongStatus);
    }
    Ok(claim)
}
