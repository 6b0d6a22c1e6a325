//! Laws about what a game file promises, each as the contract of a function that does nothing.

ghost use Rattle.sg_model.specs.GameLaws.{
  GameIsPeopled,
  GameIsSmall,
  PayoffsAreInRange,
  ScaleMeansOrigami,
};
ghost use Rattle.sg_model.specs.LimitLaws.{LimitsAreExact};

/// There is a type of attacker, each type has an action, and each prior is at least 1.
pub fn game_is_peopled()
    ensures { GameIsPeopled }
{}

/// A declared scale means identical patrols and one attacker, whose gaps divide the scale.
pub fn scale_means_origami()
    ensures { ScaleMeansOrigami }
{}

/// All lists of a game are shorter than 2^16, and so are the counts and the choices of a legal play.
pub fn game_is_small()
    ensures { GameIsSmall }
{}

/// All payoffs are from -2^30 to 2^30.
pub fn payoffs_are_in_range()
    ensures { PayoffsAreInRange }
{}

/// Where the limits of targets, patrols, scales, priors, payoffs, types, program rows, schedules, resources, rows and actions lie.
pub fn limits_are_exact()
    ensures { LimitsAreExact }
{}
