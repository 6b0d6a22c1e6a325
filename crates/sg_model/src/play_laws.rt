//! Laws about plays, each as the contract of a function that does nothing.

ghost use Rattle.sg_model.specs.PlayLaws.{
  CoversAreFew,
  CoversWhereHeld,
  HeldPaysCovered,
  PatrolsCoverChoices,
  SameCoverPaysSame,
};

/// A play covers a target just where a schedule that is taken holds it.
pub fn covers_where_held()
    ensures { CoversWhereHeld }
{}

/// With patrols, a play covers a target just where one of the choices is that target.
pub fn patrols_cover_choices()
    ensures { PatrolsCoverChoices }
{}

/// A target that one or more schedules hold pays as covered, and any other as uncovered.
pub fn held_pays_covered()
    ensures { HeldPaysCovered }
{}

/// Plays that both cover a target, or both don't, pay the same there.
pub fn same_cover_pays_same()
    ensures { SameCoverPaysSame }
{}

/// Over all targets, the plays of a commitment cover no more than the patrols can.
pub fn covers_are_few()
    ensures { CoversAreFew }
{}
