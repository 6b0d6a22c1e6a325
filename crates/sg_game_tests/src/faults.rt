//! Each rule that parts can break, and two of them at a time.
use crate::samples::{Names, Priors, Rows, Sketch, ends_so, sketched};
use sg_game::Place;
use std::alloc::Global;

/// A sketch, and the reason and place of its refusal, where it is refused.
type Case = (Sketch, Option<(u8, Place)>);

const NOBODY: Priors = &[];

/// One type of prior 1.
const THIEF: Priors = &[("thief", 1)];

/// A name for each of two targets.
const TWO: Names = &["a", "b"];

/// Two targets, of which the attacker's gaps are 4 and 2.
const USEFUL: Rows = &[&[2, -2, 0, 4], &[1, -1, 0, 2]];

const GREATEST: i64 = 1_073_741_824;

/// A gap of 2^31, which divides 2^32.
const WIDEST: Rows = &[&[GREATEST, -GREATEST, -GREATEST, GREATEST]];

/// Games of identical patrols.
static PATROLLED: [Case; 33] = [
    (
        Sketch::Patrolled(Some(0), -1, &[], NOBODY, USEFUL),
        Some((6, Place::Document)),
    ),
    (
        Sketch::Patrolled(Some(0), 1, &["a b", "a b"], NOBODY, USEFUL),
        Some((9, Place::Target(1))),
    ),
    (
        Sketch::Patrolled(Some(0), 1, &["a", ""], NOBODY, USEFUL),
        Some((9, Place::Target(2))),
    ),
    (
        Sketch::Patrolled(Some(0), 1, &["a", "a", "b b"], NOBODY, USEFUL),
        Some((8, Place::Target(2))),
    ),
    (
        Sketch::Patrolled(Some(0), 1, &["a", "b b", "a"], NOBODY, USEFUL),
        Some((9, Place::Target(2))),
    ),
    (
        Sketch::Patrolled(Some(0), 1, TWO, NOBODY, USEFUL),
        Some((9, Place::Document)),
    ),
    (
        Sketch::Patrolled(Some(4_294_967_297), 1, TWO, NOBODY, USEFUL),
        Some((9, Place::Document)),
    ),
    (
        Sketch::Patrolled(Some(4), -1, TWO, NOBODY, USEFUL),
        Some((9, Place::Document)),
    ),
    (
        Sketch::Patrolled(Some(4), 201, TWO, NOBODY, USEFUL),
        Some((9, Place::Document)),
    ),
    (
        Sketch::Patrolled(None, 33, TWO, NOBODY, USEFUL),
        Some((9, Place::Document)),
    ),
    (
        Sketch::Patrolled(Some(4), 200, TWO, NOBODY, USEFUL),
        Some((6, Place::Document)),
    ),
    (
        Sketch::Patrolled(None, 32, TWO, NOBODY, USEFUL),
        Some((6, Place::Document)),
    ),
    // Types.
    (
        Sketch::Patrolled(Some(6), 1, TWO, &[("a", 2), ("a", 2)], USEFUL),
        Some((10, Place::Document)),
    ),
    (
        Sketch::Patrolled(Some(6), 1, TWO, &[("a b", 2)], USEFUL),
        Some((9, Place::Attacker(1))),
    ),
    (
        Sketch::Patrolled(Some(6), 1, TWO, &[("a", 2)], USEFUL),
        Some((9, Place::Attacker(1))),
    ),
    (
        Sketch::Patrolled(Some(6), 1, TWO, &[("a", 1)], USEFUL),
        Some((11, Place::Attacker(1))),
    ),
    (
        Sketch::Patrolled(None, 1, TWO, &[("a", 0), ("a", 1)], USEFUL),
        Some((9, Place::Attacker(1))),
    ),
    (
        Sketch::Patrolled(None, 1, TWO, &[("a", 1), ("a", 0)], USEFUL),
        Some((8, Place::Attacker(2))),
    ),
    (
        Sketch::Patrolled(None, 1, TWO, &[("a", 1), ("b", 1_048_577)], USEFUL),
        Some((9, Place::Attacker(2))),
    ),
    // Tables of another shape, with gaps that fit no scale.
    (
        Sketch::Patrolled(Some(6), 1, TWO, THIEF, &[&[2, -2, 0, 4]]),
        Some((9, Place::Attacker(1))),
    ),
    (
        Sketch::Patrolled(
            Some(6),
            1,
            TWO,
            THIEF,
            &[&[2, -2, 0, 4], &[1, -1, 0, 2], &[1, -1, 0, 2]],
        ),
        Some((9, Place::Attacker(1))),
    ),
    (
        Sketch::Patrolled(Some(6), 1, TWO, THIEF, &[&[2, -2, 0, 4], &[1, -1, 0]]),
        Some((9, Place::Attacker(1))),
    ),
    (
        Sketch::Patrolled(Some(6), 1, TWO, THIEF, &[&[2, -2, 0, 4], &[1, -1, 0, 2, 0]]),
        Some((9, Place::Attacker(1))),
    ),
    // Payoffs past the range.
    (
        Sketch::Patrolled(
            Some(4),
            1,
            TWO,
            THIEF,
            &[&[2, -2, 0, 4], &[1_073_741_825, -1, 0, 2]],
        ),
        Some((9, Place::Attacker(1))),
    ),
    (
        Sketch::Patrolled(
            Some(4),
            1,
            TWO,
            THIEF,
            &[&[2, -1_073_741_825, 0, 4], &[1, -1, 0, 2]],
        ),
        Some((9, Place::Attacker(1))),
    ),
    // Covering that doesn't help, or doesn't hurt.
    (
        Sketch::Patrolled(Some(4), 1, TWO, THIEF, &[&[2, -2, 0, 4], &[1, 1, 0, 2]]),
        Some((11, Place::Attacker(1))),
    ),
    (
        Sketch::Patrolled(Some(4), 1, TWO, THIEF, &[&[2, -2, 0, 0], &[1, -1, 0, 2]]),
        Some((11, Place::Attacker(1))),
    ),
    (
        Sketch::Patrolled(Some(4), 1, TWO, THIEF, &[&[2, -2, 4, 0], &[1, -1, 0, 2]]),
        Some((11, Place::Attacker(1))),
    ),
    // A gap that doesn't divide the scale.
    (
        Sketch::Patrolled(Some(4), 1, TWO, THIEF, &[&[2, -2, 0, 4], &[1, -1, 0, 3]]),
        Some((11, Place::Attacker(1))),
    ),
    (
        Sketch::Patrolled(Some(4), 1, TWO, THIEF, &[&[2, -2, 0, 8], &[1, -1, 0, 2]]),
        Some((11, Place::Attacker(1))),
    ),
    // The greatest numbers.
    (
        Sketch::Patrolled(Some(4_294_967_296), 200, &["a"], &[("thief", 1)], WIDEST),
        None,
    ),
    (
        Sketch::Patrolled(None, 32, &["a"], &[("thief", 1_048_576)], WIDEST),
        None,
    ),
    (
        Sketch::Patrolled(Some(4_294_967_296), 0, &["a"], &[("thief", 1)], WIDEST),
        None,
    ),
];

/// Games of listed resources against nobody.
static LISTED: [Case; 14] = [
    (
        Sketch::Listed(Some(0), &[], &[], &[], NOBODY, &[]),
        Some((3, Place::Document)),
    ),
    (
        Sketch::Listed(None, &[], &[], &[], NOBODY, &[]),
        Some((6, Place::Document)),
    ),
    // A schedule's name, then its targets one after the other, then the next schedule.
    (
        Sketch::Listed(None, TWO, &[("s s", &[])], &[("r", &[])], NOBODY, &[]),
        Some((9, Place::Schedule(1))),
    ),
    (
        Sketch::Listed(None, TWO, &[("s", &[]), ("s", &[1])], &[], NOBODY, &[]),
        Some((6, Place::Schedule(1))),
    ),
    (
        Sketch::Listed(None, TWO, &[("s", &[1]), ("s", &[])], &[], NOBODY, &[]),
        Some((8, Place::Schedule(2))),
    ),
    (
        Sketch::Listed(None, TWO, &[("s", &[3, 1, 1])], &[], NOBODY, &[]),
        Some((7, Place::Schedule(1))),
    ),
    (
        Sketch::Listed(None, TWO, &[("s", &[1, 1, 3])], &[], NOBODY, &[]),
        Some((8, Place::Schedule(1))),
    ),
    (
        Sketch::Listed(None, TWO, &[("s", &[1]), ("t", &[0])], &[], NOBODY, &[]),
        Some((7, Place::Schedule(2))),
    ),
    // The same of a resource, after all schedules.
    (
        Sketch::Listed(None, TWO, &[("s", &[1])], &[("r r", &[])], NOBODY, &[]),
        Some((9, Place::Resource(1))),
    ),
    (
        Sketch::Listed(
            None,
            TWO,
            &[("s", &[1])],
            &[("r", &[]), ("r", &[1])],
            NOBODY,
            &[],
        ),
        Some((6, Place::Resource(1))),
    ),
    (
        Sketch::Listed(
            None,
            TWO,
            &[("s", &[1])],
            &[("r", &[1]), ("r", &[])],
            NOBODY,
            &[],
        ),
        Some((8, Place::Resource(2))),
    ),
    (
        Sketch::Listed(None, TWO, &[("s", &[1])], &[("r", &[2, 1, 1])], NOBODY, &[]),
        Some((7, Place::Resource(1))),
    ),
    (
        Sketch::Listed(None, TWO, &[("s", &[1])], &[("r", &[1, 1, 2])], NOBODY, &[]),
        Some((8, Place::Resource(1))),
    ),
    // Resources before types, of which there is none.
    (
        Sketch::Listed(None, TWO, &[("s", &[1])], &[("r", &[1])], NOBODY, &[]),
        Some((6, Place::Document)),
    ),
];

/// Two rows of two payoffs.
const SQUARE: Rows = &[&[2, 4], &[1, 3]];

/// Games in matrix form.
static TABLED: [Case; 16] = [
    (Sketch::Matrix(&[], &[]), Some((6, Place::Document))),
    (
        Sketch::Matrix(&["A A", "A A"], &[]),
        Some((9, Place::Row(1))),
    ),
    (
        Sketch::Matrix(&["A", "A", "B B"], &[]),
        Some((8, Place::Row(2))),
    ),
    (
        Sketch::Matrix(&["A", "B B", "A"], &[]),
        Some((9, Place::Row(2))),
    ),
    (Sketch::Matrix(&["A", "B"], &[]), Some((6, Place::Document))),
    (
        Sketch::Matrix(&["A", "B"], &[("a", 0, &[], SQUARE, SQUARE)]),
        Some((9, Place::Attacker(1))),
    ),
    (
        Sketch::Matrix(
            &["A", "B"],
            &[("a", 1, &[], SQUARE, SQUARE), ("a", 1, &[], SQUARE, SQUARE)],
        ),
        Some((6, Place::Attacker(1))),
    ),
    // The actions one after the other, then the leader's table, then the follower's.
    (
        Sketch::Matrix(&["A", "B"], &[("thief", 1, &["x x", "x x"], &[], &[])]),
        Some((9, Place::Attacker(1))),
    ),
    (
        Sketch::Matrix(&["A", "B"], &[("thief", 1, &["x", "x", "y y"], &[], &[])]),
        Some((8, Place::Attacker(1))),
    ),
    (
        Sketch::Matrix(&["A", "B"], &[("thief", 1, &["x", "y y", "x"], &[], &[])]),
        Some((9, Place::Attacker(1))),
    ),
    (
        Sketch::Matrix(
            &["A", "B"],
            &[("thief", 1, &["x", "y"], &[&[2, 4]], SQUARE)],
        ),
        Some((9, Place::Attacker(1))),
    ),
    (
        Sketch::Matrix(
            &["A", "B"],
            &[("thief", 1, &["x", "y"], &[&[2, 4], &[1]], SQUARE)],
        ),
        Some((9, Place::Attacker(1))),
    ),
    (
        Sketch::Matrix(
            &["A", "B"],
            &[(
                "thief",
                1,
                &["x", "y"],
                &[&[2, 4], &[1, 1_073_741_825]],
                SQUARE,
            )],
        ),
        Some((9, Place::Attacker(1))),
    ),
    (
        Sketch::Matrix(
            &["A", "B"],
            &[(
                "thief",
                1,
                &["x", "y"],
                SQUARE,
                &[&[2, 4], &[1, 3], &[0, 0]],
            )],
        ),
        Some((9, Place::Attacker(1))),
    ),
    (
        Sketch::Matrix(
            &["A", "B"],
            &[("thief", 1, &["x", "y"], SQUARE, &[&[2, 4, 0], &[1, 3]])],
        ),
        Some((9, Place::Attacker(1))),
    ),
    (
        Sketch::Matrix(
            &["A", "B"],
            &[(
                "thief",
                1,
                &["x", "y"],
                SQUARE,
                &[&[2, -1_073_741_825], &[1, 3]],
            )],
        ),
        Some((9, Place::Attacker(1))),
    ),
];

/// The first sketch, counted from 0, that is refused otherwise.
fn first_wrong(alloc: Global, cases: &[Case]) -> Option<usize> {
    for k in 0..cases.len() {
        let (sketch, refusal) = cases[k];
        if !ends_so(sketched(alloc, sketch), refusal) {
            return Some(k);
        }
    }
    None
}

#[test]
fn refuses_parts(rt: HostRuntime) {
    assert_eq!(rt; first_wrong(rt.alloc(), &PATROLLED), None);
    assert_eq!(rt; first_wrong(rt.alloc(), &LISTED), None);
    assert_eq!(rt; first_wrong(rt.alloc(), &TABLED), None);
}
