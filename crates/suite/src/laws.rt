//! Laws of the whole program. The function does nothing: it is there for its clause.

ghost use Rattle.suite.specs.Trials.{TrialIsSolve};

use requests::solve_alone_asks;

/// `trial` does with its points what `solve` does where no option is given.
pub fn trial_is_solve()
    ensures { TrialIsSolve }
{
    solve_alone_asks();
}
