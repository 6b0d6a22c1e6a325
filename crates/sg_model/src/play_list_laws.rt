//! Laws about the order of lists and the list of legal plays, each as the contract of a function that does nothing.

ghost use Rattle.sg_model.specs.Orders.{TestIsOrder};
ghost use Rattle.sg_model.specs.PlayListExamples.{AreWorkedPlays};
ghost use Rattle.sg_model.specs.PlayListLaws.{
  LegalPlaysAreAll,
  LegalPlaysAreCounted,
  LegalPlaysRise,
  PlaysAreCounted,
};

/// The test of two lists is the order of lists.
pub fn test_is_order()
    ensures { TestIsOrder }
{}

/// The list of legal plays holds each legal play once, and nothing else.
pub fn legal_plays_are_all()
    ensures { LegalPlaysAreAll }
{}

/// It stands in strictly rising order of its lists.
pub fn legal_plays_rise()
    ensures { LegalPlaysRise }
{}

/// It is as long as the number of plays says.
pub fn legal_plays_are_counted()
    ensures { LegalPlaysAreCounted }
{}

/// Whatever list holds each legal play once is as long as the number of plays says.
pub fn plays_are_counted()
    ensures { PlaysAreCounted }
{}

/// Lists of legal plays, worked out by hand.
pub fn worked_plays()
    ensures { AreWorkedPlays }
{}
