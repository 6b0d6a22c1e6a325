//! Laws of the tests of nodes, each as the contract of a function that does nothing.

ghost use Rattle.sg_programs.specs.NodeLaws.{
  ClosedIsNotStopped,
  ClosedIsResult,
  ListingIsMethod,
  NodeEndIsOne,
  NodeStopIsOne,
  PivotsAreFew,
  StopIsCause,
};

/// Listing the plays of a game keeps what every method does.
pub fn listing_is_method()
    ensures { ListingIsMethod }
{}

/// A node's run has one end.
pub fn node_end_is_one()
    ensures { NodeEndIsOne }
{}

/// What closes a node is a result of the search.
pub fn closed_is_result()
    ensures { ClosedIsResult }
{}

/// What stops a node is so.
pub fn stop_is_cause()
    ensures { StopIsCause }
{}

/// The moves are spent only where fewer may be made than there are bases.
pub fn pivots_are_few()
    ensures { PivotsAreFew }
{}

/// A node has one cause, and none where it is closed.
pub fn node_stop_is_one()
    ensures one { NodeStopIsOne }
    ensures none { ClosedIsNotStopped }
{}
