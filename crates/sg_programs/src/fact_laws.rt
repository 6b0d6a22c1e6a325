//! Laws of facts, each as the contract of a function that does nothing.

ghost use Rattle.sg_programs.specs.FactLaws.{FinalIsFact, MarksRise};

/// The multipliers of a final state are a fact over all legal plays.
pub fn final_is_fact()
    ensures { FinalIsFact }
{}

/// Their marks stand in rising order.
pub fn marks_rise()
    ensures { MarksRise }
{}
