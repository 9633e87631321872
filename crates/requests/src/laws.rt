//! Laws of requests. The function does nothing: it is there for its clause.

ghost use Rattle.requests.specs.Defaults.{SolveAloneAsks};

/// The word `solve` alone asks for the usual options.
pub fn solve_alone_asks()
    ensures { SolveAloneAsks }
{}
