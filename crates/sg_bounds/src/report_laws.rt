//! Laws about trees and accepted reports, each as the contract of a function that does nothing.

ghost use Rattle.sg_bounds.specs.ReportLaws.{
  AcceptedMeans,
  LeafIsMet,
  LevelReportIsAccepted,
  SmallTotalsFit,
  TreeBounds,
};

/// Each commitment has a leaf of the tree whose bound its value is at most.
pub fn leaf_is_met()
    ensures { LeafIsMet }
{}

/// What no leaf's bound is above is an upper bound of the value of every commitment.
pub fn tree_bounds()
    ensures { TreeBounds }
{}

/// Acceptance alone, whoever wrote the report, means that its tickets are legal and have exactly the printed value,
/// that no commitment has more than the upper bound, and that the tickets are optimal where the report says so.
pub fn accepted_means()
    ensures { AcceptedMeans }
{}

/// A report of one water level is accepted where the level holds, the tickets cover each target in its share, and the
/// sums under their value fit.
pub fn level_report_is_accepted()
    ensures { LevelReportIsAccepted }
{}

/// The sums under a value fit where the total, times the priors and the range of payoffs, does.
pub fn small_totals_fit()
    ensures { SmallTotalsFit }
{}
