//! Small games with their answers, as the contract of a function that does nothing.

ghost use Rattle.sg_model.specs.EdgeExamples.{WorkedEdges};
ghost use Rattle.sg_model.specs.Examples.{WorkedExamples};

/// The games of `specs/Examples.antt` are games, their tickets are commitments, and the values and levels are those
/// worked out by hand. The commitments of the four games of identical patrols are optimal.
pub fn worked_examples()
    ensures { WorkedExamples }
{}

/// Cases at the edges (`specs/EdgeExamples.antt`): sums of several types, a bound over 0, which bytes spell names, texts, and
/// games that break one rule each and are none.
pub fn worked_edges()
    ensures { WorkedEdges }
{}
