//! Laws about the definition of a game file, each as the contract of a function that does nothing.

ghost use Rattle.sg_format.specs.FaultLaws.{FaultyListIsRefused, NotTomlIsRefused, OtherVersionIsRefused};
ghost use Rattle.sg_format.specs.GameFileLaws.{AcceptedIsGame};
ghost use Rattle.sg_format.specs.GameTextLaws.{WorkedTexts};

/// The game of an accepted file keeps every promise of a game file: shapes, ranges, names and limits.
pub fn accepted_is_game()
    ensures { AcceptedIsGame }
{}

/// The canonical texts of four small games are those that were written out by hand.
pub fn worked_texts()
    ensures { WorkedTexts }
{}

/// Bytes that are no UTF-8 or no TOML document are refused as such.
pub fn not_toml_is_refused()
    ensures { NotTomlIsRefused }
{}

/// A document whose version is another integer than 1 is refused for it.
pub fn other_version_is_refused()
    ensures { OtherVersionIsRefused }
{}

/// The document of a game with another list of targets, rows, schedules, resources or types, which has a fault of its
/// own, is refused for that fault at its place.
pub fn faulty_list_is_refused()
    ensures { FaultyListIsRefused }
{}
