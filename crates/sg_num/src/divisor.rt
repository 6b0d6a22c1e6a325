// The greatest common divisor and the least common multiple.
ghost use Rattle.std.specs.Prelude.{◌↔◌, IfSome, IsNone};
ghost use Rattle.std.specs.Int.{IsGcd};
ghost use Rattle.sg_num.specs.Multiples.{IsLcm, IsLcmWide};

/// The greatest common divisor, 0 where both are 0. By Euclid's method of remainders.
pub fn gcd(a: u128, b: u128) -> u128
    ensures { IsGcd a b result }
{
    let mut last = a;
    let mut next = b;
    'euclid: while next != 0 {
        let rest = last % next;
        last = next;
        next = rest;
    }
    last
}

/// The least common multiple, `None` where it is above the largest `u128`; 0 where one of the two
/// is 0.
pub fn lcm(a: u128, b: u128) -> Option<u128>
    ensures value { IfSome result (IsLcm a b) }
    ensures none { IsNone result ↔ IsLcmWide a b }
{
    if a == 0 || b == 0 {
        return Some(0);
    }
    let divisor = gcd(a, b);
    (a / divisor).checked_mul(b)
}
