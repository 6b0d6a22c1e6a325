//! Laws of the end of a search, each as the contract of a function that does nothing.

ghost use Rattle.sg_gap_laws.specs.GapLaws.{
  EndIsAccepted,
  GapIsCaused,
  PointsAreNotAbove,
  StuckAreNodes,
  ValueIsBelow,
  WorkedAreResults,
};

/// The worked nodes are results of the search.
pub fn worked_are_results()
    ensures { WorkedAreResults }
{}

/// The stuck nodes are nodes of the game.
pub fn stuck_are_nodes()
    ensures { StuckAreNodes }
{}

/// The report of the end is accepted.
pub fn end_is_accepted()
    ensures { EndIsAccepted }
{}

/// Its value is at least that of each worked point.
pub fn points_are_not_above()
    ensures { PointsAreNotAbove }
{}

/// Its upper bound is the value, or above it, as its verdict says.
pub fn value_is_below()
    ensures { ValueIsBelow }
{}

/// The cause of a gap is so.
pub fn gap_is_caused()
    ensures { GapIsCaused }
{}
