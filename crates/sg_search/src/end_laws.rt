//! Laws about the end of a search, each as the contract of a function that does nothing.

ghost use Rattle.sg_search.specs.EndLaws.{EndMeans};
ghost use Rattle.sg_search.specs.Sound.{RunsAreSound};

/// A search ends because its bounds meet, its nodes are spent, or what is open is stuck.
pub fn end_means()
    ensures { EndMeans }
{}

/// Every state that events lead to is sound.
pub fn runs_are_sound()
    ensures { RunsAreSound }
{}
