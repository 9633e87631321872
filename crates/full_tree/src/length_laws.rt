//! A law of lengths. The function does nothing: it is there for its clause.

ghost use Rattle.full_tree.specs.LengthBound.{LengthsAreWithinTheGrid};

/// A tree in form is no longer than all edges of its points' grid together.
pub fn lengths_are_within_the_grid()
    ensures { LengthsAreWithinTheGrid }
{}
