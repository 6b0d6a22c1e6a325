//! Reading fractions.

ghost use Rattle.std.specs.Prelude.{◌≡◌, ◌-◌, ◌^◌, ◌≤◌, ◌≤ℤ◌, pos, unsigned_abs, Ok, Err};
ghost use Rattle.sg_frac.specs.Fractions.{IsReduced};
ghost use Rattle.sg_cert.specs.Fields.{fields};
ghost use Rattle.sg_cert_reader.specs.Steps.{Steps, ReadsLines};
ghost use Rattle.sg_cert.specs.LineReading.{reduced_of, shares, fraction_next, fraction_of};
ghost use Rattle.sg_cert.specs.Reading.{fraction_at};

use crate::field::{Fields, shaped};
use crate::lines::Lines;
use sg_cert::ReportFault;
use sg_frac::Frac;
use sg_num::gcd;

/// Whether a number above 1 divides both.
fn has_common(a: u128, b: u128) -> bool
    requires { 1 ≤ b }
    ensures { result ≡ shares a b b }
{
    gcd(a, b) != 1
}

/// The fraction of these parts, where it is reduced.
fn reduced(num: i128, den: i128) -> Result<Frac, u8>
    requires { pos 1 ≤ℤ den }
    ensures { result ≡ reduced_of num den }
{
    if has_common(num.unsigned_abs(), den.unsigned_abs()) {
        Err(6)
    } else {
        match Frac::of(num, den) {
            Some(fraction) => Ok(fraction),
            None => Err(6),
        }
    }
}

/// The next two fields as a reduced fraction.
#[tactic(auto, unfolding(sg_cert::specs::LineReading::fraction_next))]
pub fn next_fraction(left: &mut Fields) -> Result<Frac, u8>
    ensures { Steps result left.new (fraction_next left.old) }
{
    let num = left.whole(i128::MIN, i128::MAX)?;
    let den = left.whole(1, i128::MAX)?;
    reduced(num, den)
}

#[tactic(auto, unfolding(sg_cert::specs::LineReading::fraction_of))]
fn fraction_in(word: &[u8], line: &[u8]) -> Result<Frac, u8>
    ensures { result ≡ fraction_of word.now (fields line.now) }
{
    shaped(word, 3, 3, line)?;
    let mut left = Fields::after(1, line);
    next_fraction(&mut left)
}

/// The fraction on the next line, behind the word.
#[tactic(auto, unfolding(sg_cert::specs::Reading::fraction_at))]
pub fn fraction(lines: &mut Lines, word: &[u8]) -> Result<Frac, ReportFault>
    ensures { ReadsLines (λ f. f) result lines.new (fraction_at word.now lines.old) }
{
    let line = lines.next()?;
    lines.within(fraction_in(word, line))
}
