//! Laws about the sums that a report states, each as the contract of a function that does nothing.

ghost use Rattle.sg_bounds.specs.SizeLaws.{ColumnSumsAreSmall, PlaySumsAreSmall};
ghost use Rattle.sg_bounds.specs.SizeSteps.{AreResults};

/// Over each legal play the sums of a fact are at most its size sum, and its two products.
pub fn play_sums_are_small()
    ensures { PlaySumsAreSmall }
{}

/// The same over each column of the coverage table.
pub fn column_sums_are_small()
    ensures { ColumnSumsAreSmall }
{}

/// The sums that a report states are the results of operations with stated operands: of the weights, the value, size sums and bounds.
pub fn sums_are_results()
    ensures { AreResults }
{}
