//! Small reports with their answers, as the contract of a function that does nothing.

ghost use Rattle.sg_bounds.specs.Examples.{WorkedReports};
ghost use Rattle.sg_bounds.specs.OrderExamples.{WorkedOrders};
ghost use Rattle.sg_bounds.specs.SizeExamples.{WorkedSizes};

/// The reports of `specs/Examples.antt` are accepted, or refused at the line and with the reason that were worked out
/// by hand.
pub fn worked_reports()
    ensures { WorkedReports }
{}

/// So are those of `specs/OrderExamples.antt`, with three types split in turn, and with several wrongs of which the first is told.
pub fn worked_orders()
    ensures { WorkedOrders }
{}

/// So are those of `specs/SizeExamples.antt`, whose sums come to the edge of 128 bits.
pub fn worked_sizes()
    ensures { WorkedSizes }
{}
