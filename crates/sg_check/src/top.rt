//! The greatest of bounds, and the line behind what was tested.

ghost use Rattle.std.specs.Prelude.{◌≡◌, ◌++◌, List};
ghost use Rattle.sg_frac.specs.Fractions.{Fraction, IsReduced};
ghost use Rattle.sg_check.specs.Answering.{IsGreatestBound, ShowsOnly};

use sg_frac::Frac;
use sg_tree::Report;
use std::cmp::Ordering;

/// What a run over tests has come to: the line behind it, and the greatest of the value and its bounds.
#[derive(Clone, Copy)]
pub(crate) struct Top {
    pub(crate) next: u64,
    pub(crate) best: Frac,
}

/// The greater of a bound and of one more, where there is one.
pub(crate) fn raised(best: &Frac, bound: &Option<Frac>) -> Frac
    ensures { (bounds more : List Fraction) → IsGreatestBound best.now bounds → ShowsOnly more bound.now → IsGreatestBound result (bounds ++ more) }
{
    match bound {
        None => *best,
        Some(next) => match best.compare(*next) {
            Ordering::Less => *next,
            Ordering::Equal => *best,
            Ordering::Greater => *best,
        },
    }
}

/// The value that a report states. The contract says too that it is in lowest terms.
pub(crate) fn stated_value(report: &Report) -> Frac
    ensures value { result ≡ report.now.value }
    ensures reduced { IsReduced result }
{
    let _den = report.value.den();
    report.value
}
