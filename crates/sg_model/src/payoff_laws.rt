//! Laws about the greatest payoff, the shift and what an attacker leaves the defender, each as the contract of a function that does nothing.

ghost use Rattle.sg_model.specs.PayoffLaws.{
  GreatestIsBound,
  PayoffsAreBounded,
  PayoffsAreListed,
  TakeIsBounded,
  TakeIsOfBestResponses,
};

/// What the defender gets of a legal play is one of the payoffs that it may get.
pub fn payoffs_are_listed()
    ensures { PayoffsAreListed }
{}

/// It is at most the greatest against that type, and with the shift at least 1.
pub fn payoffs_are_bounded()
    ensures { PayoffsAreBounded }
{}

/// A type leaves the defender what one of its best responses gives, and no best response gives more: ties go to the
/// defender (the strong Stackelberg equilibrium: Breton, Alj and Haurie, 1988).
pub fn take_is_of_best_responses()
    ensures { TakeIsOfBestResponses }
{}

/// What a type leaves the defender is at most its greatest payoff for each ticket.
pub fn take_is_bounded()
    ensures { TakeIsBounded }
{}

/// The greatest payoffs, weighted by the priors, are an upper bound.
pub fn greatest_is_bound()
    ensures { GreatestIsBound }
{}
