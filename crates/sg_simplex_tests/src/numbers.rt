//! Sums, combinations and common divisors of rows at the ends of 128 bits, worked out by hand.
use sg_num::{Op, Wide};
use sg_rows::{combine, dot, primitive};

const LEAST: i128 = i128::MIN;

const MOST: i128 = i128::MAX;

const HALF: i128 = 85070591730234615865843651857942052864; // 2^126

/// An operation that doesn't fit, with its operands.
type Misfit = (Op, i128, i128);

/// A row, as many small numbers, and the sum of their products.
type Sum = (&'static [i128], &'static [i64], Result<i128, Misfit>);

/// Sums of products.
static SUMS: [Sum; 9] = [
    (&[], &[], Ok(0)),
    (&[3, -4, 5], &[2, 7, -1], Ok(-27)),
    (&[LEAST, MOST], &[1, 1], Ok(-1)),
    (&[MOST, 1], &[1, -1], Ok(MOST - 1)),
    (&[LEAST], &[-1], Err((Op::Times, LEAST, -1))),
    (&[HALF, HALF], &[1, 1], Err((Op::Sum, HALF, HALF))),
    // -2^126 - 2^126 fits
    (&[HALF, HALF], &[-1, -1], Ok(LEAST)),
    // the first product is told, not the greater one behind it
    (&[HALF, MOST], &[2, 9], Err((Op::Times, HALF, 2))),
    // a sum before the next product
    (&[MOST, 1, MOST], &[1, 1, 2], Err((Op::Sum, MOST, 1))),
];

/// Whether that is the operation that doesn't fit.
fn is_misfit(wide: Wide, (op, left, right): Misfit) -> bool {
    wide == Wide { op, left, right }
}

/// Whether a sum is as it should be.
fn is_sum((row, col, want): Sum) -> bool {
    if row.len() != col.len() {
        return false;
    }
    match (dot(row, col), want) {
        (Ok(sum), Ok(value)) => sum == value,
        (Err(wide), Err(misfit)) => is_misfit(wide, misfit),
        _ => false,
    }
}

/// The first sum, counted from 0, that is otherwise.
fn first_wrong_sum(cases: &[Sum]) -> Option<usize> {
    for k in 0..cases.len() {
        if !is_sum(cases[k]) {
            return Some(k);
        }
    }
    None
}

#[test]
fn sums(rt: HostRuntime) {
    assert_eq!(rt; first_wrong_sum(&SUMS), None);
}

/// A row of two, its factor, that of the other row, the other row, the row afterwards, and what is told.
type Combination = (
    [i128; 2],
    i128,
    i128,
    [i128; 2],
    [i128; 2],
    Result<(), Misfit>,
);

/// Combinations: `row * p - q * other`, place by place; where one doesn't fit the row stays.
static COMBINATIONS: [Combination; 10] = [
    ([4, 6], 2, 1, [2, 0], [6, 12], Ok(())),
    ([1, -1], -3, 2, [5, 7], [-13, -11], Ok(())),
    ([MOST, 0], 1, 0, [MOST, MOST], [MOST, 0], Ok(())),
    ([0, 0], 1, 1, [MOST, MOST], [-MOST, -MOST], Ok(())),
    ([-1, 0], 1, 1, [MOST, 1], [LEAST, -1], Ok(())),
    // the first place that doesn't fit is the second; the first is not written
    (
        [5, HALF],
        2,
        1,
        [1, 0],
        [5, HALF],
        Err((Op::Times, HALF, 2)),
    ),
    ([5, 1], 1, 2, [1, HALF], [5, 1], Err((Op::Times, 2, HALF))),
    // -2 * 2^126 fits
    ([5, 1], 1, -2, [1, HALF], [5, 1], Err((Op::Less, 1, LEAST))),
    ([5, -2], 1, 1, [1, MOST], [5, -2], Err((Op::Less, -2, MOST))),
    (
        [0, 1],
        1,
        1,
        [LEAST, MOST],
        [0, 1],
        Err((Op::Less, 0, LEAST)),
    ),
];

/// Whether a combination is as it should be.
fn is_combination((row, p, q, other, then, want): Combination) -> bool {
    let mut row = row;
    let told = match (combine(row.as_mut_slice(), p, q, other.as_slice()), want) {
        (Ok(()), Ok(())) => true,
        (Err(wide), Err(misfit)) => is_misfit(wide, misfit),
        _ => false,
    };
    told && row == then
}

/// The first combination, counted from 0, that is otherwise.
fn first_wrong_combination(cases: &[Combination]) -> Option<usize> {
    for k in 0..cases.len() {
        if !is_combination(cases[k]) {
            return Some(k);
        }
    }
    None
}

#[test]
fn combinations(rt: HostRuntime) {
    assert_eq!(rt; first_wrong_combination(&COMBINATIONS), None);
}

/// A row of three, its greatest common divisor, and the row divided by it.
type Divided = ([i128; 3], u128, [i128; 3]);

/// Rows without their common divisors.
static DIVIDED: [Divided; 8] = [
    ([4, -6, 10], 2, [2, -3, 5]),
    ([0, 0, 0], 0, [0, 0, 0]),
    (
        [0, LEAST, 0],
        170141183460469231731687303715884105728,
        [0, -1, 0],
    ),
    (
        [LEAST, LEAST, LEAST],
        170141183460469231731687303715884105728,
        [-1, -1, -1],
    ),
    (
        [LEAST, HALF, 0],
        85070591730234615865843651857942052864,
        [-2, 1, 0],
    ),
    ([LEAST, MOST, 0], 1, [LEAST, MOST, 0]),
    (
        [MOST, 0, -MOST],
        170141183460469231731687303715884105727,
        [1, 0, -1],
    ),
    // only the last place keeps the divisor from being 6
    ([12, -18, 4], 2, [6, -9, 2]),
];

/// Whether a division is as it should be.
fn is_divided((row, divisor, then): Divided) -> bool {
    let mut row = row;
    primitive(row.as_mut_slice()) == divisor && row == then
}

/// The first division, counted from 0, that is otherwise.
fn first_wrong_division(cases: &[Divided]) -> Option<usize> {
    for k in 0..cases.len() {
        if !is_divided(cases[k]) {
            return Some(k);
        }
    }
    None
}

#[test]
fn divisions(rt: HostRuntime) {
    assert_eq!(rt; first_wrong_division(&DIVIDED), None);
}
