//! Laws about the incumbent and the choices, each as the contract of a function that does nothing.

ghost use Rattle.sg_search.specs.GroupLaws.{ChoicesAreOne, IncumbentIsBest, OpenWherePrefixWaits};

/// A number names one choice.
pub fn choices_are_one()
    ensures { ChoicesAreOne }
{}

/// The incumbent is no worse than the first commitment and each point.
pub fn incumbent_is_best()
    ensures { IncumbentIsBest }
{}

/// Where a part may be taken or a prefix split, the upper bound is above the incumbent.
pub fn open_where_prefix_waits()
    ensures { OpenWherePrefixWaits }
{}
