//! Laws about the parts that a commitment is made of, each as the contract of a function that does nothing.

ghost use Rattle.sg_report_laws.specs.PartFaults.{PartFaultsSay};

/// The fault that parts are refused for: that there is none, or else the first part whose weight is below 1, or else the
/// first sum of weights that does not fit; and parts without a fault have none of these.
pub fn part_faults_say()
    ensures { PartFaultsSay }
{}
