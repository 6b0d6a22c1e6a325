//! Laws of budgets that are enough, each as the contract of a function that does nothing.

ghost use Rattle.sg_gap_laws.specs.EnoughLaws.{
  EnoughLeavesWide,
  NoGapOfLooks,
  NoGapOfNodes,
  NoGapOfPivots,
};

/// Nodes aren't spent where as many as are enough may be worked.
pub fn no_gap_of_nodes()
    ensures { NoGapOfNodes }
{}

/// Looks aren't spent where as many as are enough may be made.
pub fn no_gap_of_looks()
    ensures { NoGapOfLooks }
{}

/// Moves aren't spent at a node where its run may make as many as are enough.
pub fn no_gap_of_pivots()
    ensures { NoGapOfPivots }
{}

/// Where all budgets are enough, only a number that doesn't fit leaves a gap.
pub fn enough_leaves_wide()
    ensures { EnoughLeavesWide }
{}
