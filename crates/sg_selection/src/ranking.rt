//! The first of the greatest ranks.

ghost use Rattle.std.specs.Prelude.{◌≡◌, ◌↔◌, ◌<◌, ◌≤◌, ◌≤ℤ◌, pos, ℕ, IsTrue};
ghost use Rattle.sg_frac.specs.Fractions.{Fraction};
ghost use Rattle.sg_frac.specs.Order.{IsBelow};
ghost use Rattle.sg_selection.specs.Ranking.{IsLeader};

use crate::ranked::Ranked;
use sg_frac::Frac;
use std::cmp::Ordering;

/// Whether one fraction is above another. Equal ones, as parts that wait have them, are told at once.
fn is_above(one: Frac, other: Frac) -> bool
    ensures above { IsTrue result ↔ IsBelow other one }
    ensures positive { pos 1 ≤ℤ one.den }
    ensures other_positive { pos 1 ≤ℤ other.den }
{
    let same = one.den() == other.den() && one.num() == other.num();
    !same && one.compare(other) == Ordering::Greater
}

/// The rank of a choice.
fn rank_of<R: Ranked>(ranks: &R, n: u32) -> Frac
    requires { R.is_choice ranks.now n }
    ensures ranked { R.is_rank ranks.now n result }
    ensures positive { pos 1 ≤ℤ result.den }
{
    let rank = ranks.bound(n);
    let _ = rank.den();
    rank
}

/// The first of so many choices that has the greatest rank.
pub(crate) fn best_choice<R: Ranked>(count: u32, ranks: &R) -> u32
    requires some { 1 ≤ count }
    requires ranked { (n : ℕ) → n < count → R.is_choice ranks.now n }
    ensures { (rank : Fraction) × IsLeader (R.is_rank ranks.now) count result rank }
{
    let mut best = 0;
    let mut greatest = rank_of(ranks, 0);
    'choices: for n in 1..count {
        let rank = rank_of(ranks, n);
        if is_above(rank, greatest) {
            best = n;
            greatest = rank;
        }
    }
    best
}
