//! A law about the counts, as the contract of a function that does nothing.

ghost use Rattle.sg_shelf.specs.RiseLaws.{RisesAreStrict};

/// A count rose exactly where it is more than before, or stands at its last value; and it either rose or it didn't.
pub fn rises_are_strict()
    ensures { RisesAreStrict }
{}
