//! Laws of the point of a final state, each as the contract of a function that does nothing.

ghost use Rattle.sg_programs.specs.PointLaws.{
  CommonDivisorIsGreatest,
  CommonMultipleIsLeast,
  FormedPointHasNoFault,
  KeptReaches,
  NoPointMeansEmpty,
  PointReachesFact,
  PointReachesValue,
  WeightsAreShares,
};

/// The common divisor is the greatest, and the common multiple the least.
pub fn multiples_are_least()
    ensures divisor { CommonDivisorIsGreatest }
    ensures multiple { CommonMultipleIsLeast }
{}

/// The weights of a state's point are the shares of its columns.
pub fn weights_are_shares()
    ensures { WeightsAreShares }
{}

/// The weighted columns of a state's point keep within the rows and reach what the multipliers say.
pub fn point_reaches_value()
    ensures { PointReachesValue }
{}

/// The point of a final state is a commitment of the node's region that reaches the bound of the multipliers' fact.
pub fn point_reaches_fact()
    ensures { PointReachesFact }
{}

/// Where the first multiplier is 0, the region is empty.
pub fn no_point_means_empty()
    ensures { NoPointMeansEmpty }
{}

/// Where all values of the point fit, its tickets are parts without a fault.
pub fn formed_point_has_no_fault()
    ensures { FormedPointHasNoFault }
{}

/// The commitment that is made of tickets reaches what they reach.
pub fn kept_reaches()
    ensures { KeptReaches }
{}
