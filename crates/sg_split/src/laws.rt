//! Laws about counts that lie end to end on identical patrols, each as the contract of a function that does nothing.

ghost use Rattle.sg_split.specs.Laws.{CutPlacesAreWorked, LaidTicketsAreFew, MomentsCoverCounts, PlaysStayBetweenCuts};

/// Over all moments, the patrols cover each target just as often as its count says, with legal plays.
pub fn moments_cover_counts()
    ensures { MomentsCoverCounts }
{}

/// From a moment to before the next cut place nobody moves, so each interval between neighbouring cut places has one play.
pub fn plays_stay_between_cuts()
    ensures { PlaysStayBetweenCuts }
{}

/// So the plays of all moments, joined into tickets of different plays, are at most one more than the counts.
pub fn laid_tickets_are_few()
    ensures { LaidTicketsAreFew }
{}

/// Cut places, worked out by hand.
pub fn cut_places_are_worked()
    ensures { CutPlacesAreWorked }
{}
