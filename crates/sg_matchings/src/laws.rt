//! Laws about tables with a line sum, each as the contract of a function that does nothing.

ghost use Rattle.sg_matchings.specs.Laws.{PathsAreFound, DecompositionsAreWorked};
ghost use Rattle.sg_matchings.specs.Padding.{FullAreMatched, PaddedHasLineSum};

/// A search from a further column always finds an augmenting path.
pub fn paths_are_found()
    ensures { PathsAreFound }
{}

/// Tables, perfect matchings and a decomposition, worked out by hand.
pub fn tables_are_worked()
    ensures { DecompositionsAreWorked }
{}

/// Counts whose sums are at most a number stand in a square table with this line sum.
pub fn padded_counts_have_a_line_sum()
    ensures { PaddedHasLineSum }
{}

/// A perfect matching of padded counts is, on the counts alone, in every row and column that lacks nothing.
pub fn full_rows_and_columns_are_matched()
    ensures { FullAreMatched }
{}
