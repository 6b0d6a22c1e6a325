//! Laws about values, upper bounds and optimal commitments, each as the contract of a function that does nothing.

ghost use Rattle.sg_model.specs.OptimalityLaws.{
  BoundIsAbove,
  OptimalIsBound,
  OptimalIsLeastBound,
  OptimalValueIsOne,
  OrderAndJoiningKeepMix,
  SameMixKeeps,
  ScalingKeeps,
  ValueIsMean,
};

/// An upper bound is at least the value of every commitment.
pub fn bound_is_above()
    ensures { BoundIsAbove }
{}

/// Optimal commitments have the same value.
pub fn optimal_value_is_one()
    ensures { OptimalValueIsOne }
{}

/// A commitment is optimal just where its value is an upper bound.
pub fn optimal_is_bound()
    ensures { OptimalIsBound }
{}

/// The value of an optimal commitment is the least upper bound.
pub fn optimal_is_least_bound()
    ensures { OptimalIsLeastBound }
{}

/// Multiplying all weights by one number of at least 1 keeps the value, and what is optimal.
pub fn scaling_keeps()
    ensures { ScalingKeeps }
{}

/// Tickets in another order, or with two of the same play joined into one, give each play the same weight in all.
pub fn order_and_joining_keep_mix()
    ensures { OrderAndJoiningKeepMix }
{}

/// Tickets that give each play the same weight in all have the same sums, value and optimality.
pub fn same_mix_keeps()
    ensures { SameMixKeeps }
{}

/// The value of a commitment is the mean, over the types by their priors and the tickets by their weights, of what the
/// defender gets where each type takes a best response that gives the defender the most.
pub fn value_is_mean()
    ensures { ValueIsMean }
{}
