//! Laws about the list of places, each as the contract of a function that does nothing.

ghost use Rattle.sg_tickets.specs.ExpansionLaws.{DaysCoverAsTickets, PlacesAreListed};

/// The list has each ticket's place as often as its weight, in rising order.
pub fn places_are_listed()
    ensures { PlacesAreListed }
{}

/// Where each day has one of the places, in whatever order, each target is covered on exactly as many days as tickets
/// cover it, and each day is a legal play.
pub fn days_cover_as_tickets()
    ensures { DaysCoverAsTickets }
{}
