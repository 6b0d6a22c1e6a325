//! Upper bounds of small trees, as the contract of a function that does nothing.

ghost use Rattle.sg_upper.specs.Examples.{UppersAreWorked};

/// The trees of `specs/Examples.antt` have the upper bounds, and the operations under them, that were worked out by hand.
pub fn worked_uppers()
    ensures { UppersAreWorked }
{}
