//! Laws of programs over the coverage table, each as the contract of a function that does nothing.

ghost use Rattle.sg_programs.specs.CoverLaws.{
  ColumnsAreTable,
  CoverIsBounded,
  CoverIsSized,
  CoverLooksAreEnough,
  FinalIsCoverFact,
  LinesRise,
};
ghost use Rattle.sg_programs.specs.CoverRegions.{RegionIsAllowed};

/// The columns of a node's program stand for those of the coverage table, in order, each once.
pub fn columns_are_table()
    ensures { ColumnsAreTable }
{}

/// In security form the program is within its limits.
pub fn cover_is_sized()
    ensures { CoverIsSized }
{}

/// Some multipliers over 1 bound every column.
pub fn cover_is_bounded()
    ensures { CoverIsBounded }
{}

/// Where the columns are tested in turn, pricing takes no more looks than are enough for the game.
pub fn cover_looks_are_enough()
    ensures { CoverLooksAreEnough }
{}

/// The multipliers of a final state are a fact over the coverage table.
pub fn final_is_cover_fact()
    ensures { FinalIsCoverFact }
{}

/// Their lines stand in rising order.
pub fn lines_rise()
    ensures { LinesRise }
{}

/// Every commitment of a node's region is a combination of the table's columns that the program allows, of equal cost.
pub fn region_is_allowed()
    ensures { RegionIsAllowed }
{}
