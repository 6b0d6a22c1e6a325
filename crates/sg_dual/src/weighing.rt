//! Weights brought over one whole.

ghost use Rattle.std.specs.Prelude.{◌≡◌, ◌<◌, ◌/◌, ◌^◌, ◌++◌, ◌≤ℤ◌, length, map, pos, slice_index_or, unsigned_abs, All, IfOk, ◌∷◌, []};
ghost use Rattle.sg_num.specs.Exact.{exact_times};
ghost use Rattle.sg_num.specs.Operations.{formed};
ghost use Rattle.sg_bounds.specs.SizeSteps.{running_steps};
ghost use Rattle.sg_programs.specs.Points.{common_multiple, gcd_of, multiple_steps, weight_step};
ghost use Rattle.sg_dual.specs.declared.part.Part.{Part};
ghost use Rattle.sg_dual.specs.declared.share.Share.{Share};
ghost use Rattle.sg_dual.specs.Parts.{FormOr, fraction_of, part_of_share, share_steps, common_whole};

use crate::part::{Part, PointFault};
use crate::share::Share;
use sg_num::{Wide, gcd, sum, times};
use std::alloc::{AllocError, Global};

/// A number that fits, signed.
fn signed(n: u128) -> i128
    requires { n < 2 ^ 127 }
    ensures { result ≡ pos n }
{
    n as i128
}

/// The quotient of a number by its greatest common divisor with another one.
fn reduced(multiple: i128, den: i128) -> i128
    requires multiple { pos 1 ≤ℤ multiple }
    requires den { pos 1 ≤ℤ den }
    ensures { result ≡ pos (unsigned_abs multiple / gcd_of (unsigned_abs multiple) (unsigned_abs den)) }
{
    let whole = multiple.unsigned_abs();
    let divisor = gcd(whole, den.unsigned_abs());
    signed(whole / divisor)
}

/// The least common multiple of a multiple so far and one denominator more: its quotient by their common divisor, times the denominator.
fn next_multiple(multiple: i128, den: i128) -> Result<i128, Wide>
    requires multiple { pos 1 ≤ℤ multiple }
    requires den { pos 1 ≤ℤ den }
    ensures { result ≡ exact_times (pos (unsigned_abs multiple / gcd_of (unsigned_abs multiple) (unsigned_abs den))) den }
{
    times(reduced(multiple, den), den)
}

/// The denominator of the share at a place.
fn den_at(shares: &[Share], i: usize) -> i128
    requires inside { i < length shares.now }
    requires dens { All (λ (s : Share). pos 1 ≤ℤ s.den) shares.now }
    ensures den { (s : Share) → result ≡ (slice_index_or shares.now i s).den }
    ensures above { pos 1 ≤ℤ result }
{
    shares[i].den
}

/// The least common multiple of the denominators, one more at a time.
fn multiple_of(shares: &[Share]) -> Result<i128, Wide>
    requires { All (λ (s : Share). pos 1 ≤ℤ s.den) shares.now }
    ensures { result ≡ formed (multiple_steps 1 (map fraction_of shares.now)) (pos (common_multiple 1 (map fraction_of shares.now))) }
{
    let mut multiple: i128 = 1;
    for i in 0..shares.len() {
        match next_multiple(multiple, den_at(shares, i)) {
            Ok(next) => multiple = next,
            Err(wide) => return Err(wide),
        }
    }
    Ok(multiple)
}

/// The numerator of a share times the quotient of the whole by its denominator.
fn weight_of(num: i128, den: i128, whole: i128) -> Result<i128, Wide>
    requires den { pos 1 ≤ℤ den }
    requires whole { pos 1 ≤ℤ whole }
    ensures { result ≡ exact_times num (pos (unsigned_abs whole / unsigned_abs den)) }
{
    times(num, whole / den)
}

/// A share over the whole.
fn part_of(share: &Share, whole: i128) -> Result<Part, Wide>
    requires den { pos 1 ≤ℤ share.now.den }
    requires whole { pos 1 ≤ℤ whole }
    ensures { result ≡ formed (weight_step (unsigned_abs whole) (fraction_of share.now) ∷ []) (part_of_share (unsigned_abs whole) share.now) }
{
    match weight_of(share.num, share.den, whole) {
        Ok(weight) => Ok(Part {
            col: share.col,
            weight,
        }),
        Err(wide) => Err(wide),
    }
}

/// The share at a place over the whole.
fn part_at(shares: &[Share], i: usize, whole: i128) -> Result<Part, Wide>
    requires inside { i < length shares.now }
    requires dens { All (λ (s : Share). pos 1 ≤ℤ s.den) shares.now }
    requires whole { pos 1 ≤ℤ whole }
    ensures { (s : Share) → result ≡ formed (weight_step (unsigned_abs whole) (fraction_of (slice_index_or shares.now i s)) ∷ []) (part_of_share (unsigned_abs whole) (slice_index_or shares.now i s)) }
{
    part_of(&shares[i], whole)
}

/// One part more.
fn put(parts: &mut Vec<Part>, part: Part) -> Result<(), AllocError>
    ensures { IfOk result (λ _. parts.new.items ≡ parts.old.items ++ part ∷ []) }
{
    parts.push(part)?;
    Ok(())
}

/// The shares over the whole, in order.
fn weighed(alloc: Global, shares: &[Share], whole: i128) -> Result<Vec<Part>, PointFault>
    requires dens { All (λ (s : Share). pos 1 ≤ℤ s.den) shares.now }
    requires whole { pos 1 ≤ℤ whole }
    ensures { FormOr (map (weight_step (unsigned_abs whole)) (map fraction_of shares.now)) (λ parts. parts.items ≡ map (part_of_share (unsigned_abs whole)) shares.now) result }
{
    let mut parts = Vec::new(alloc);
    for i in 0..shares.len() {
        let part = match part_at(shares, i, whole) {
            Ok(part) => part,
            Err(wide) => return Err(PointFault::Wide(wide)),
        };
        match put(&mut parts, part) {
            Ok(()) => {}
            Err(_) => return Err(PointFault::Memory),
        }
    }
    Ok(parts)
}

/// The weight of the part at a place.
fn weight_at(parts: &[Part], i: usize) -> i128
    requires { i < length parts.now }
    ensures { (x : Part) → result ≡ (slice_index_or parts.now i x).weight }
{
    parts[i].weight
}

/// The weights added one after the other.
fn add_up(parts: &[Part]) -> Result<(), Wide>
    ensures { result ≡ formed (running_steps (pos 0) (map (λ (x : Part). x.weight) parts.now)) tt }
{
    let mut total: i128 = 0;
    for i in 0..parts.len() {
        match sum(total, weight_at(parts, i)) {
            Ok(next) => total = next,
            Err(wide) => return Err(wide),
        }
    }
    Ok(())
}

/// The parts of some shares, over the least whole.
pub(crate) fn parts_of(alloc: Global, shares: &[Share]) -> Result<Vec<Part>, PointFault>
    requires { All (λ (s : Share). pos 1 ≤ℤ s.den) shares.now }
    ensures { FormOr (share_steps shares.now) (λ parts. parts.items ≡ map (part_of_share (common_whole shares.now)) shares.now) result }
{
    let whole = match multiple_of(shares) {
        Ok(whole) => whole,
        Err(wide) => return Err(PointFault::Wide(wide)),
    };
    let parts = match weighed(alloc, shares, whole) {
        Ok(parts) => parts,
        Err(fault) => return Err(fault),
    };
    match add_up(parts.as_slice()) {
        Ok(()) => Ok(parts),
        Err(wide) => Err(PointFault::Wide(wide)),
    }
}
