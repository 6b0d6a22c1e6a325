//! Laws of programs, each as the contract of a function that does nothing.

ghost use Rattle.sg_programs.specs.Laws.{
  ColumnsArePlays,
  LooksAreEnough,
  ProgramIsBounded,
  ProgramIsSized,
  RowsAreComparisons,
  ZerosChangeNothing,
};

/// The columns of a node's program are all legal plays.
pub fn columns_are_plays()
    ensures { ColumnsArePlays }
{}

/// Its rows from 1 are the comparisons of the fixed actions with the others of their types.
pub fn rows_are_comparisons()
    ensures { RowsAreComparisons }
{}

/// It is within its limits.
pub fn program_is_sized()
    ensures { ProgramIsSized }
{}

/// Some multipliers over 1 bound every play.
pub fn program_is_bounded()
    ensures { ProgramIsBounded }
{}

/// Where plays are listed, pricing takes no more looks than are enough for the game.
pub fn looks_are_enough()
    ensures { LooksAreEnough }
{}

/// Products of 0 change neither the value of a sum nor the first operation that doesn't fit.
pub fn zeros_change_nothing()
    ensures { ZerosChangeNothing }
{}
