//! Steps, divisors and multiples: values worked out by hand, most of them at the edges of 128 bits.
use sg_num::{Op, Wide, dot_step, gcd, lcm, less, mul_sub, sum, times};

const LEAST: i128 = i128::MIN;

const MOST: i128 = i128::MAX;

const HALF: i128 = 85070591730234615865843651857942052864; // 2^126

/// A call, with its operands.
#[derive(Clone, Copy)]
enum Step {
    Sum(i128, i128),
    Less(i128, i128),
    Times(i128, i128),
    DotStep(i128, i128, i128),
    MulSub(i128, i128, i128, i128),
}

/// What a call answers: the value, or the operation that does not fit with its operands.
#[derive(Clone, Copy)]
enum Answer {
    Is(i128),
    Wide(Op, i128, i128),
}

fn taken(step: Step) -> Result<i128, Wide> {
    match step {
        Step::Sum(left, right) => sum(left, right),
        Step::Less(left, right) => less(left, right),
        Step::Times(left, right) => times(left, right),
        Step::DotStep(acc, a, b) => dot_step(acc, a, b),
        Step::MulSub(a, p, q, b) => mul_sub(a, p, q, b),
    }
}

fn is_answer(got: Result<i128, Wide>, want: Answer) -> bool {
    match (got, want) {
        (Ok(value), Answer::Is(wanted)) => value == wanted,
        (Err(wide), Answer::Wide(op, left, right)) => wide == Wide { op, left, right },
        _ => false,
    }
}

/// The first call, counted from 0, that answers otherwise.
fn first_wrong_step(rows: &[(Step, Answer)]) -> Option<usize> {
    for k in 0..rows.len() {
        let (step, want) = rows[k];
        if !is_answer(taken(step), want) {
            return Some(k);
        }
    }
    None
}

static STEPS: [(Step, Answer); 21] = [
    (Step::Sum(LEAST, MOST), Answer::Is(-1)),
    (Step::Sum(1, MOST), Answer::Wide(Op::Sum, 1, MOST)),
    (Step::Less(-1, LEAST), Answer::Is(MOST)),
    (Step::Less(LEAST, 1), Answer::Wide(Op::Less, LEAST, 1)),
    (Step::Times(HALF, -2), Answer::Is(LEAST)),
    (Step::Times(HALF, 2), Answer::Wide(Op::Times, HALF, 2)),
    (Step::DotStep(1, 2, 3), Answer::Is(7)),
    (Step::DotStep(MOST, -1, 1), Answer::Is(MOST - 1)),
    (Step::DotStep(LEAST, LEAST, 0), Answer::Is(LEAST)),
    (Step::DotStep(MOST, 1, 1), Answer::Wide(Op::Sum, MOST, 1)),
    (
        Step::DotStep(LEAST, -1, 3),
        Answer::Wide(Op::Sum, LEAST, -3),
    ),
    // The product hides the sum, which would fit here and would not there.
    (Step::DotStep(-1, HALF, 2), Answer::Wide(Op::Times, HALF, 2)),
    (
        Step::DotStep(MOST, MOST, 2),
        Answer::Wide(Op::Times, MOST, 2),
    ),
    (Step::MulSub(3, 4, 5, 2), Answer::Is(2)),
    (Step::MulSub(LEAST, 1, 0, 7), Answer::Is(LEAST)),
    (Step::MulSub(-1, 1, 1, LEAST), Answer::Is(MOST)),
    (
        Step::MulSub(MOST, 1, 1, -1),
        Answer::Wide(Op::Less, MOST, -1),
    ),
    (
        Step::MulSub(0, 5, 1, LEAST),
        Answer::Wide(Op::Less, 0, LEAST),
    ),
    (
        Step::MulSub(1, 1, LEAST, -1),
        Answer::Wide(Op::Times, LEAST, -1),
    ),
    // The first product hides the second, and both hide their difference.
    (
        Step::MulSub(MOST, 2, LEAST, 3),
        Answer::Wide(Op::Times, MOST, 2),
    ),
    (
        Step::MulSub(HALF, 2, HALF, 2),
        Answer::Wide(Op::Times, HALF, 2),
    ),
];

#[test]
fn steps(rt: HostRuntime) {
    assert_eq!(rt; first_wrong_step(&STEPS), None);
}

const TOP: u128 = 170141183460469231731687303715884105728; // 2^127

const WHOLE: u128 = u128::MAX; // (2^64 - 1) * (2^64 + 1)

const LOW: u128 = 18446744073709551615; // 2^64 - 1

const HIGH: u128 = 18446744073709551617; // 2^64 + 1

/// Two numbers, their greatest common divisor, and their least common multiple where it fits.
static DIVISORS: [(u128, u128, u128, Option<u128>); 11] = [
    (12, 18, 6, Some(36)),
    (4, 6, 2, Some(12)),
    (0, 0, 0, Some(0)),
    (0, 5, 5, Some(0)),
    (0, 7, 7, Some(0)),
    (WHOLE, 0, WHOLE, Some(0)),
    (WHOLE, WHOLE, WHOLE, Some(WHOLE)),
    (LOW, WHOLE, LOW, Some(WHOLE)),
    (LOW, HIGH, 1, Some(WHOLE)),
    (TOP, 3, 1, None),
    (WHOLE, TOP, 1, None),
];

/// The first pair, counted from 0, with another divisor or multiple.
fn first_wrong_pair(rows: &[(u128, u128, u128, Option<u128>)]) -> Option<usize> {
    for k in 0..rows.len() {
        let (a, b, divisor, multiple) = rows[k];
        if gcd(a, b) != divisor || lcm(a, b) != multiple {
            return Some(k);
        }
    }
    None
}

#[test]
fn divisors_and_multiples(rt: HostRuntime) {
    assert_eq!(rt; first_wrong_pair(&DIVISORS), None);
}
