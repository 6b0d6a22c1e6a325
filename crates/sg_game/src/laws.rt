//! Laws about the definitions, each as the contract of a function that does nothing.

ghost use Rattle.sg_game.specs.Building.{NoFaultIsAGame};

/// Parts have no fault exactly where their game says all that they say and keeps every promise of a game file.
pub fn no_fault_is_a_game()
    ensures { NoFaultIsAGame }
{}
