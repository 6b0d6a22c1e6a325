//! Laws about facts and caps, each as the contract of a function that does nothing.

ghost use Rattle.sg_bounds.specs.FactLaws.{CapBounds, CoverIsPlays, EmptyRegion, FactBounds};
ghost use Rattle.sg_bounds.specs.RowExamples.{AreWorkedRows};
ghost use Rattle.sg_bounds.specs.RowLaws.{ColumnsAreAll, PlayRowsAreCounted, RowsInOrder};

/// A fact of the coverage table is a fact over all legal plays.
pub fn cover_is_plays()
    ensures { CoverIsPlays }
{}

/// A fact that holds for a fix bounds every commitment of its region.
pub fn fact_bounds()
    ensures { FactBounds }
{}

/// No commitment takes more of a type than an allowed cap.
pub fn cap_bounds()
    ensures { CapBounds }
{}

/// Where `mu` is 0 no commitment lies in the region of a fact that holds.
pub fn empty_region()
    ensures { EmptyRegion }
{}

/// The rows of the coverage table: those of the resources, twice those of the targets, then for each fixed type those of
/// its other actions.
pub fn rows_in_order()
    ensures { RowsInOrder }
{}

/// The rows of a program of plays are row 0 and, for each fixed type, one for each of its own other actions.
pub fn play_rows_are_counted()
    ensures { PlayRowsAreCounted }
{}

/// The list of the coverage table's columns holds each column once, and nothing else.
pub fn columns_are_all()
    ensures { ColumnsAreAll }
{}

/// The rows and columns of small programs, worked out by hand.
pub fn worked_rows()
    ensures { AreWorkedRows }
{}
