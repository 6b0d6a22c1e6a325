//! Laws about the tree of a search, each as the contract of a function that does nothing.

ghost use Rattle.sg_search.specs.CapLaws.{CapIsLeast, CapsHold};
ghost use Rattle.sg_search.specs.ReportLaws.{ReportIsAccepted};
ghost use Rattle.sg_search.specs.TreeLaws.{ProvedAreWorked, TreeHolds};

/// The proved prefixes of the tree are the worked ones, with their facts.
pub fn proved_are_worked()
    ensures { ProvedAreWorked }
{}

/// Where the facts of the worked nodes hold, the tree is a split tree whose facts hold.
pub fn tree_holds()
    ensures { TreeHolds }
{}

/// Where the facts of the worked nodes hold, the caps of the moment are allowed.
pub fn caps_hold()
    ensures { CapsHold }
{}

/// A proved cap is the least whole number that none of its facts exceeds.
pub fn cap_is_least()
    ensures { CapIsLeast }
{}

/// The report that is read off a search is accepted.
pub fn report_is_accepted()
    ensures { ReportIsAccepted }
{}
