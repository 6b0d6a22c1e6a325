//! Laws of turns, each as the contract of a function that does nothing.

ghost use Rattle.sg_simplex.specs.Laws.{CauseIsOne};

/// An answer of a turn has one cause, which excludes those of all others.
pub fn cause_is_one()
    ensures { CauseIsOne }
{}
