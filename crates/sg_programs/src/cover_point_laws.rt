//! Laws of the point of a state of a program over the coverage table, each as the contract of a function that does nothing.

ghost use Rattle.sg_programs.specs.CoverPointLaws.{
  CountsAreChoiceCounts,
  MatchedReachesFact,
  NoCoverMeansEmpty,
  PointHasCounts,
  PointKeepsTable,
};

/// The amounts of a state's point keep within the table's rows and reach what the multipliers say.
pub fn point_keeps_table()
    ensures { PointKeepsTable }
{}

/// Where each schedule has one target, there are counts by resource and choice within the point.
pub fn point_has_counts()
    ensures { PointHasCounts }
{}

/// Such counts can be had out of as many tickets as the point's whole has.
pub fn counts_are_choice_counts()
    ensures { CountsAreChoiceCounts }
{}

/// A commitment that covers each target in just what they ask for lies in the node's region and reaches the bound of the multipliers' fact.
pub fn matched_reaches_fact()
    ensures { MatchedReachesFact }
{}

/// Where the first multiplier is 0, the region is empty.
pub fn no_cover_means_empty()
    ensures { NoCoverMeansEmpty }
{}
