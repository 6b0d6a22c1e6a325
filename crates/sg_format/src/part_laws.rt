//! What each reason means over all parts of a document, each law as the contract of a function that does nothing.
//!
//! The parts, their rules and their places stand in `specs/Parts`: the table of the format. Each law starts from the document
//! of a game, and speaks of one that agrees with it in all that is read before one part and has another value there, whatever
//! comes behind it: so the first value that breaks its rule decides.

ghost use Rattle.sg_format.specs.FaultExamples.{WorkedFaults};
ghost use Rattle.sg_format.specs.HeadLaws.{HeadIsRefused};
ghost use Rattle.sg_format.specs.PartLaws.{BadScaleIsRefused, EmptyPartIsRefused, LongPartIsRefused, LongProgramIsRefused, MissingFieldIsRefused, OutOfRangeIsRefused, RepeatedNameIsRefused, SingleChangeAgrees, UnknownFieldIsRefused, UnknownNameIsRefused, WrongKindIsRefused};

/// A document that differs from that of a game in one part alone is one that agrees with it up to that part.
pub fn single_change_agrees()
    ensures { SingleChangeAgrees }
{}

/// A schedule, a resource or a type without one of its keys is refused for that, at its own place.
pub fn missing_field_is_refused()
    ensures { MissingFieldIsRefused }
{}

/// A value of another kind than its part asks for is refused for that, at the place of the part.
pub fn wrong_kind_is_refused()
    ensures { WrongKindIsRefused }
{}

/// A schedule, a resource or a type with a key that isn't one of its own is refused for that, at its own place.
pub fn unknown_field_is_refused()
    ensures { UnknownFieldIsRefused }
{}

/// A list that needs an entry and has none is refused for that, at the place of the list.
pub fn empty_part_is_refused()
    ensures { EmptyPartIsRefused }
{}

/// A schedule's target, or a resource's schedule, that nothing is named is refused for that.
pub fn unknown_name_is_refused()
    ensures { UnknownNameIsRefused }
{}

/// A name that stands before it in its list is refused for that: of targets, rows, schedules, resources, types and
/// actions, and of the members of a schedule or a resource.
pub fn repeated_name_is_refused()
    ensures { RepeatedNameIsRefused }
{}

/// A number outside its range, a name in a wrong spelling and an array of a wrong length are refused for that.
pub fn out_of_range_is_refused()
    ensures { OutOfRangeIsRefused }
{}

/// A list with more entries than it may have is refused for that, at the place of the list.
pub fn long_part_is_refused()
    ensures { LongPartIsRefused }
{}

/// A game in security form without a scale whose linear program has too many rows is refused for that.
pub fn long_program_is_refused()
    ensures { LongProgramIsRefused }
{}

/// A scale that the payoffs at some target don't fit is refused for that, and so are payoffs at a target that don't fit the
/// scale.
pub fn bad_scale_is_refused()
    ensures { BadScaleIsRefused }
{}

/// A document that fails a test of the version, the form or the top keys is refused for the first one that it fails, whatever
/// else stands in it.
pub fn head_is_refused()
    ensures { HeadIsRefused }
{}

/// Small documents are refused as was worked out by hand, each for its one fault or the first of its two, and the one without
/// a fault gives its game.
pub fn worked_faults()
    ensures { WorkedFaults }
{}
