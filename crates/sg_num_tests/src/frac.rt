//! Fractions: values worked out by hand, most of them at the edges of 128 bits.
use sg_frac::Frac;
use sg_num::{Op, Wide};
use std::alloc::{AllocError, Global};
use std::cmp::Ordering;

const LEAST: i128 = i128::MIN;

const MOST: i128 = i128::MAX;

const HALF: i128 = 85070591730234615865843651857942052864; // 2^126

const HUGE: i128 = 1267650600228229401496703205376; // 2^100

/// The numerator and the denominator of a fraction.
fn parts(fraction: Option<Frac>) -> Option<(i128, i128)> {
    match fraction {
        Some(fraction) => Some((fraction.num(), fraction.den())),
        None => None,
    }
}

/// A numerator and a denominator, and those of the fraction that they give.
static FRACTIONS: [(i128, i128, Option<(i128, i128)>); 13] = [
    (6, -4, Some((-3, 2))),
    (-3, -9, Some((1, 3))),
    (0, 5, Some((0, 1))),
    (0, LEAST, Some((0, 1))),
    (1, 0, None),
    (0, 0, None),
    (1, LEAST, None),
    (LEAST, -1, None),
    (MOST, LEAST, None),
    (2, LEAST, Some((-1, HALF))),
    (LEAST, LEAST, Some((1, 1))),
    (LEAST, 1, Some((LEAST, 1))),
    (LEAST, 2, Some((-HALF, 1))),
];

/// The first row, counted from 0, that gives another fraction.
fn first_wrong_fraction(rows: &[(i128, i128, Option<(i128, i128)>)]) -> Option<usize> {
    for k in 0..rows.len() {
        let (num, den, want) = rows[k];
        if parts(Frac::of(num, den)) != want {
            return Some(k);
        }
    }
    None
}

#[test]
fn fractions(rt: HostRuntime) {
    assert_eq!(rt; first_wrong_fraction(&FRACTIONS), None);
}

/// An operation on two fractions.
#[derive(Clone, Copy)]
enum Operation {
    Add,
    Sub,
    Mul,
    Div,
}

/// What an operation answers: a fraction by its parts, or the first operation that does not fit with its operands.
#[derive(Clone, Copy)]
enum Answer {
    Is(i128, i128),
    Wide(Op, i128, i128),
}

/// What the operation gives, where its divisor is not 0.
fn combined(operation: Operation, one: Frac, two: Frac) -> Option<Result<Frac, Wide>> {
    match operation {
        Operation::Add => Some(one.add(two)),
        Operation::Sub => Some(one.sub(two)),
        Operation::Mul => Some(one.mul(two)),
        Operation::Div => {
            if two.num() == 0 {
                None
            } else {
                Some(one.div(two))
            }
        }
    }
}

/// Whether that is the answer.
fn is_answer(got: Result<Frac, Wide>, want: Answer) -> bool {
    match (got, want) {
        (Ok(fraction), Answer::Is(num, den)) => fraction.num() == num && fraction.den() == den,
        (Err(wide), Answer::Wide(op, left, right)) => wide == Wide { op, left, right },
        _ => false,
    }
}

/// Two fractions and an operation on them, and what it answers.
type Combination = (Operation, (i128, i128), (i128, i128), Answer);

/// Whether the operation answers so.
fn answers((operation, one, two, want): Combination) -> bool {
    let (Some(one), Some(two)) = (Frac::of(one.0, one.1), Frac::of(two.0, two.1)) else {
        return false;
    };
    match combined(operation, one, two) {
        Some(got) => is_answer(got, want),
        None => false,
    }
}

/// The first row, counted from 0, whose operation answers otherwise.
fn first_wrong_answer(rows: &[Combination]) -> Option<usize> {
    for k in 0..rows.len() {
        if !answers(rows[k]) {
            return Some(k);
        }
    }
    None
}

/// Operations on two fractions, and what they answer.
static ANSWERS: [Combination; 39] = [
    (Operation::Add, (1, 2), (1, 3), Answer::Is(5, 6)),
    (Operation::Add, (1, 6), (1, 3), Answer::Is(1, 2)),
    (Operation::Add, (1, 2), (-1, 2), Answer::Is(0, 1)),
    (Operation::Add, (LEAST, 1), (MOST, 1), Answer::Is(-1, 1)),
    (Operation::Add, (LEAST, 1), (0, 1), Answer::Is(LEAST, 1)),
    (
        Operation::Add,
        (MOST, 1),
        (1, 2),
        Answer::Wide(Op::Times, MOST, 2),
    ),
    (
        Operation::Add,
        (1, 2),
        (MOST, 1),
        Answer::Wide(Op::Times, MOST, 2),
    ),
    // The first product hides the second.
    (
        Operation::Add,
        (MOST, 2),
        (MOST, 3),
        Answer::Wide(Op::Times, MOST, 3),
    ),
    (
        Operation::Add,
        (MOST, 1),
        (1, 1),
        Answer::Wide(Op::Sum, MOST, 1),
    ),
    (
        Operation::Add,
        (-1, 1),
        (LEAST, 1),
        Answer::Wide(Op::Sum, -1, LEAST),
    ),
    (
        Operation::Add,
        (1, HUGE),
        (1, HUGE),
        Answer::Wide(Op::Times, HUGE, HUGE),
    ),
    (Operation::Sub, (1, 2), (1, 3), Answer::Is(1, 6)),
    (Operation::Sub, (1, 3), (1, 2), Answer::Is(-1, 6)),
    (Operation::Sub, (5, 6), (1, 3), Answer::Is(1, 2)),
    (Operation::Sub, (-1, 1), (LEAST, 1), Answer::Is(MOST, 1)),
    (
        Operation::Sub,
        (MOST, 1),
        (1, 2),
        Answer::Wide(Op::Times, MOST, 2),
    ),
    (
        Operation::Sub,
        (1, 2),
        (MOST, 1),
        Answer::Wide(Op::Times, MOST, 2),
    ),
    (
        Operation::Sub,
        (LEAST, 1),
        (1, 1),
        Answer::Wide(Op::Less, LEAST, 1),
    ),
    (
        Operation::Sub,
        (0, 1),
        (LEAST, 1),
        Answer::Wide(Op::Less, 0, LEAST),
    ),
    (
        Operation::Sub,
        (1, HUGE),
        (1, HUGE),
        Answer::Wide(Op::Times, HUGE, HUGE),
    ),
    (Operation::Mul, (2, 3), (3, 4), Answer::Is(1, 2)),
    (Operation::Mul, (-2, 3), (3, 2), Answer::Is(-1, 1)),
    (Operation::Mul, (0, 1), (LEAST, 1), Answer::Is(0, 1)),
    (Operation::Mul, (HUGE, 1), (1, HUGE), Answer::Is(1, 1)),
    (
        Operation::Mul,
        (LEAST, MOST),
        (1, 2),
        Answer::Wide(Op::Times, MOST, 2),
    ),
    (
        Operation::Mul,
        (LEAST, 1),
        (-1, 1),
        Answer::Wide(Op::Times, LEAST, -1),
    ),
    (
        Operation::Mul,
        (1, HUGE),
        (1, HUGE),
        Answer::Wide(Op::Times, HUGE, HUGE),
    ),
    // The product of the numerators hides that of the denominators.
    (
        Operation::Mul,
        (MOST, HUGE),
        (3, HUGE),
        Answer::Wide(Op::Times, MOST, 3),
    ),
    (Operation::Div, (1, 2), (1, 4), Answer::Is(2, 1)),
    (Operation::Div, (1, 2), (-1, 4), Answer::Is(-2, 1)),
    (Operation::Div, (-1, 1), (-2, 1), Answer::Is(1, 2)),
    (Operation::Div, (0, 1), (-5, 3), Answer::Is(0, 1)),
    (Operation::Div, (LEAST, 1), (2, 1), Answer::Is(-HALF, 1)),
    (
        Operation::Div,
        (MOST, 1),
        (1, 2),
        Answer::Wide(Op::Times, MOST, 2),
    ),
    (
        Operation::Div,
        (1, 2),
        (MOST, 1),
        Answer::Wide(Op::Times, 2, MOST),
    ),
    // The first product hides the second.
    (
        Operation::Div,
        (MOST, 2),
        (MOST, 3),
        Answer::Wide(Op::Times, MOST, 3),
    ),
    // The two negatives, of which the first hides the second.
    (
        Operation::Div,
        (LEAST, 1),
        (-1, 1),
        Answer::Wide(Op::Less, 0, LEAST),
    ),
    (
        Operation::Div,
        (1, 1),
        (LEAST, 1),
        Answer::Wide(Op::Less, 0, LEAST),
    ),
    (
        Operation::Div,
        (LEAST, 1),
        (LEAST, 1),
        Answer::Wide(Op::Less, 0, LEAST),
    ),
];

#[test]
fn arithmetic(rt: HostRuntime) {
    assert_eq!(rt; first_wrong_answer(&ANSWERS), None);
}

// Neighbours among Fibonacci's numbers, the largest below 2^127.
const LONG: i128 = 127127879743834334146972278486287885163;

const MIDDLE: i128 = 78569350599398894027251472817058687522;

const SHORT: i128 = 48558529144435440119720805669229197641;

/// Two fractions, and how they stand to one another.
type Pair = ((i128, i128), (i128, i128), Ordering);

static ORDERS: [Pair; 20] = [
    ((1, 2), (1, 3), Ordering::Greater),
    ((2, 4), (1, 2), Ordering::Equal),
    ((2, 4), (-1, -2), Ordering::Equal),
    ((2, 4), (1, -2), Ordering::Greater),
    ((-1, 2), (1, 3), Ordering::Less),
    ((-1, 2), (-1, 3), Ordering::Less),
    ((7, 3), (9, 4), Ordering::Greater),
    ((0, 1), (1, MOST), Ordering::Less),
    ((-1, MOST), (0, 1), Ordering::Less),
    ((1, MOST), (1, MOST - 1), Ordering::Less),
    ((-1, MOST), (-1, MOST - 1), Ordering::Greater),
    ((MOST, MOST - 1), (MOST - 1, MOST - 2), Ordering::Less),
    ((MOST - 1, MOST - 2), (MOST, MOST - 1), Ordering::Greater),
    ((MOST, MOST - 1), (MOST, MOST - 1), Ordering::Equal),
    ((LEAST, MOST), (-1, 1), Ordering::Less),
    ((LEAST, 1), (MOST, 1), Ordering::Less),
    ((LEAST, 1), (LEAST, 1), Ordering::Equal),
    ((MOST, 1), (LEAST, MOST), Ordering::Greater),
    ((LONG, MIDDLE), (MIDDLE, SHORT), Ordering::Less),
    ((MIDDLE, LONG), (SHORT, MIDDLE), Ordering::Greater),
];

/// Whether the fractions stand so, and are equal exactly where they stand as equals.
fn stand((one, two, want): Pair) -> bool {
    let (Some(one), Some(two)) = (Frac::of(one.0, one.1), Frac::of(two.0, two.1)) else {
        return false;
    };
    one.compare(two) == want && (one == two) == (want == Ordering::Equal)
}

/// The first pair, counted from 0, that stands otherwise.
fn first_wrong_order(rows: &[Pair]) -> Option<usize> {
    for k in 0..rows.len() {
        if !stand(rows[k]) {
            return Some(k);
        }
    }
    None
}

#[test]
fn orders(rt: HostRuntime) {
    assert_eq!(rt; first_wrong_order(&ORDERS), None);
}

/// A fraction, its floor and ceiling, and its text.
type Look = ((i128, i128), (i128, i128), &'static str);

static LOOKS: [Look; 16] = [
    ((1, 3), (0, 1), "1/3"),
    ((3, 2), (1, 2), "3/2"),
    ((-3, 2), (-2, -1), "-3/2"),
    ((6, -4), (-2, -1), "-3/2"),
    ((0, 1), (0, 0), "0/1"),
    ((0, 7), (0, 0), "0/1"),
    ((5, 1), (5, 5), "5/1"),
    ((-4, 1), (-4, -4), "-4/1"),
    (
        (1, MOST),
        (0, 1),
        "1/170141183460469231731687303715884105727",
    ),
    (
        (-1, MOST),
        (-1, 0),
        "-1/170141183460469231731687303715884105727",
    ),
    (
        (MOST, 2),
        (HALF - 1, HALF),
        "170141183460469231731687303715884105727/2",
    ),
    (
        (-MOST, 2),
        (-HALF, 1 - HALF),
        "-170141183460469231731687303715884105727/2",
    ),
    (
        (MOST, MOST - 1),
        (1, 2),
        "170141183460469231731687303715884105727/170141183460469231731687303715884105726",
    ),
    (
        (LEAST, MOST),
        (-2, -1),
        "-170141183460469231731687303715884105728/170141183460469231731687303715884105727",
    ),
    (
        (MOST, 1),
        (MOST, MOST),
        "170141183460469231731687303715884105727/1",
    ),
    (
        (LEAST, 1),
        (LEAST, LEAST),
        "-170141183460469231731687303715884105728/1",
    ),
];

/// Whether the fraction looks so.
fn looks(alloc: Global, ((num, den), (floor, ceil), text): Look) -> Result<bool, AllocError> {
    let Some(fraction) = Frac::of(num, den) else {
        return Ok(false);
    };
    let written = fraction.text(alloc)?;
    Ok(fraction.floor() == floor && fraction.ceil() == ceil && written.as_str() == text)
}

/// The first fraction, counted from 0, that looks otherwise.
fn first_wrong_look(alloc: Global, rows: &[Look]) -> Result<Option<usize>, AllocError> {
    for k in 0..rows.len() {
        if !looks(alloc, rows[k])? {
            return Ok(Some(k));
        }
    }
    Ok(None)
}

#[test]
fn whole_numbers_and_texts(rt: HostRuntime) -> Result<(), AllocError> {
    assert_eq!(rt; first_wrong_look(rt.alloc(), &LOOKS)?, None);
    Ok(())
}
