//! Laws about what a lane is told, each as the contract of a function that does nothing.

ghost use Rattle.sg_search.specs.ReadyLaws.{ChoicesAreThere, EnabledMeans, EndIsStill, LanesAreTold, ToldOnce};

/// What stands behind each event that may happen.
pub fn enabled_means()
    ensures { EnabledMeans }
{}

/// There is a list of the choices.
pub fn choices_are_there()
    ensures { ChoicesAreThere }
{}

/// There is an answer for each lane, and no other.
pub fn lanes_are_told()
    ensures there { LanesAreTold }
    ensures once { ToldOnce }
{}

/// Where no event is enabled, no change may happen.
pub fn end_is_still()
    ensures { EndIsStill }
{}
