//! Laws about water levels, each as the contract of a function that does nothing.

ghost use Rattle.sg_model.specs.OrigamiLaws.{
  LevelIsBest,
  LevelIsLeast,
  LevelIsMinimax,
  LevelIsReached,
  LevelTicketsAreOptimal,
  NoLevelIsAbove,
  WaterBounds,
};

/// Whatever the defender does, some target pays the attacker the level.
pub fn level_is_reached()
    ensures { LevelIsReached }
{}

/// The bound of a level is an upper bound of the value of every commitment.
pub fn water_bounds()
    ensures { WaterBounds }
{}

/// Tickets that cover each target of the level in its share are optimal, and their value is the bound.
pub fn level_tickets_are_optimal()
    ensures { LevelTicketsAreOptimal }
{}

/// Such tickets leave the attacker no more than the level, so the level is the least that any commitment leaves.
pub fn level_is_least()
    ensures { LevelIsLeast }
{}

/// No water-level fact says more than the level of such tickets.
pub fn no_level_is_above()
    ensures { NoLevelIsAbove }
{}

/// The best answers to such tickets are just the targets of the level.
pub fn level_is_best()
    ensures { LevelIsBest }
{}

/// What such tickets pay the attacker at any target is at most what each other commitment pays at some target.
pub fn level_is_minimax()
    ensures { LevelIsMinimax }
{}
