//! A small search with its reports, as the contract of a function that does nothing.

ghost use Rattle.sg_answer_laws.specs.Examples.{WorkedAnswers};

/// The search of `specs/Examples.antt` and its reports are as they were worked out by hand.
pub fn worked_answers()
    ensures { WorkedAnswers }
{}
