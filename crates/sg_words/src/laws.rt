//! Laws about the definitions, each as the contract of a function that does nothing.

ghost use Rattle.sg_words.specs.Commands.{WordsAreInRange, WordsGive};
ghost use Rattle.sg_words.specs.WorkedCommands.{WorkedMakes, WorkedRosters, WorkedSolves};
ghost use Rattle.sg_words.specs.WorkedWords.{RefusedWords, WorkedWords};

/// The command of a list of words is the one that the rules of writing give, and there is at most one.
pub fn words_give()
    ensures { WordsGive }
{}

/// What words give by a small made-up table, as worked out by hand.
pub fn worked_words()
    ensures { WorkedWords }
{}

/// A word before `--` that begins with a hyphen and is no option of the command gives nothing, and an option that is written twice
/// gives nothing.
pub fn refused_words()
    ensures { RefusedWords }
{}

/// What words behind `roster` give by the program's own table, as worked out by hand.
pub fn worked_rosters()
    ensures { WorkedRosters }
{}

/// What words behind `make` give by the program's own table, as worked out by hand.
pub fn worked_makes()
    ensures { WorkedMakes }
{}

/// The budget and the order of a search that words ask for are in their ranges.
pub fn words_are_in_range()
    ensures { WordsAreInRange }
{}

/// What words behind `solve` give by the program's own table, as worked out by hand.
pub fn worked_solves()
    ensures { WorkedSolves }
{}
