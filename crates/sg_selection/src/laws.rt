//! Laws about named events, each as the contract of a function that does nothing.

ghost use Rattle.sg_selection.specs.SelectionLaws.{EventIsNamed, NamedIsEnabled, NamedOnce, NoneAtTheEnd, SameAnswersSameRun, SelectedAreRuns, SelectedGoOn, SelectionIsOfEvents, WordsAreInTurn};

/// At each state at which an event is enabled an order names one, which is enabled.
pub fn order_names_one()
    ensures there { EventIsNamed }
    ensures once { NamedOnce }
    ensures enabled { NamedIsEnabled }
    ensures none { NoneAtTheEnd }
{}

/// The changes of named events are a run of the search, which goes on by named events. What a selection keeps is fixed by
/// the events before, and all events by what turns and finishes come to.
pub fn selected_are_runs()
    ensures runs { SelectedAreRuns }
    ensures longer { SelectedGoOn }
    ensures fixed { SelectionIsOfEvents }
    ensures same { SameAnswersSameRun }
{}

/// A seeded walk draws the words of its seed one after the other.
pub fn words_are_in_turn()
    ensures { WordsAreInTurn }
{}
