//! Whole games: what each accessor gives, and what plays cover and pay.
use crate::samples::{Names, Priors, Rows, Sketch, sketched};
use crate::shown::{Part, Pay, shows};
use sg_game::{BuildFault, Kind};
use std::alloc::Global;

const THIEF: Priors = &[("thief", 1)];

/// Two targets, of which the first is worth twice the second, and one patrol.
const PATROLS: Sketch = Sketch::Patrolled(
    Some(4),
    1,
    &["gate", "hall"],
    THIEF,
    &[&[2, -2, 0, 4], &[1, -1, 0, 2]],
);

const PATROLS_PARTS: &[Part] = &[
    Part::Form(Kind::Security, 4, Some(1), 1),
    Part::Sizes([2, 0, 1, 2]),
    Part::Type(1, "thief", 1, 2, 2),
    Part::Goal(1, "gate"),
    Part::Goal(2, "hall"),
    Part::Action(1, 1, "gate"),
    Part::Action(1, 2, "hall"),
    Part::Schedule(1, "gate", &[1]),
    Part::Schedule(2, "hall", &[2]),
    Part::Resource(1, "p1", &[1, 2]),
];

const PATROLS_PAYS: &[Pay] = &[
    Pay::Ends(1, 3),
    Pay::Counts(true, true, 3, 7),
    Pay::Target(1, 1, Some([2, -2, 0, 4])),
    Pay::Target(1, 2, Some([1, -1, 0, 2])),
    Pay::Covers(&[0], 1, false),
    Pay::Play(1, &[0], 1, Some((-2, 4))),
    Pay::Covers(&[0], 2, false),
    Pay::Play(1, &[0], 2, Some((-1, 2))),
    Pay::Covers(&[1], 1, true),
    Pay::Play(1, &[1], 1, Some((2, 0))),
    Pay::Covers(&[1], 2, false),
    Pay::Play(1, &[1], 2, Some((-1, 2))),
    Pay::Covers(&[2], 1, false),
    Pay::Play(1, &[2], 1, Some((-2, 4))),
    Pay::Covers(&[2], 2, true),
    Pay::Play(1, &[2], 2, Some((1, 0))),
    Pay::Illegal(&[3]),
    Pay::Illegal(&[]),
    Pay::Illegal(&[1, 1]),
    Pay::Least(&[0]),
];

/// Two rows against a thief of two actions.
const ROWS: Sketch = Sketch::Matrix(
    &["A", "B"],
    &[(
        "thief",
        1,
        &["x", "y"],
        &[&[2, 4], &[1, 3]],
        &[&[1, 0], &[0, 2]],
    )],
);

const ROWS_PARTS: &[Part] = &[
    Part::Form(Kind::Matrix, 0, None, 1),
    Part::Sizes([0, 2, 0, 0]),
    Part::Type(1, "thief", 1, 2, 4),
    Part::Goal(1, "A"),
    Part::Goal(2, "B"),
    Part::Action(1, 1, "x"),
    Part::Action(1, 2, "y"),
];

const ROWS_PAYS: &[Pay] = &[
    Pay::Ends(1, 0),
    Pay::Counts(false, false, 2, 2),
    Pay::Cell(1, 1, 1, Some((2, 1))),
    Pay::Play(1, &[1], 1, Some((2, 1))),
    Pay::Cell(1, 1, 2, Some((4, 0))),
    Pay::Play(1, &[1], 2, Some((4, 0))),
    Pay::Cell(1, 2, 1, Some((1, 0))),
    Pay::Play(1, &[2], 1, Some((1, 0))),
    Pay::Cell(1, 2, 2, Some((3, 2))),
    Pay::Play(1, &[2], 2, Some((3, 2))),
    Pay::Illegal(&[0]),
    Pay::Illegal(&[3]),
    Pay::Illegal(&[1, 1]),
    Pay::Least(&[1]),
];

/// What a target pays that is open, or covered.
const PLAIN: &[i64] = &[0, -1, 0, 1];

/// Three such targets.
const THREE_PLAIN: Rows = &[PLAIN, PLAIN, PLAIN];

const THREE: Names = &["a", "b", "c"];

/// Four targets, and two resources with two schedules each.
const TWO_RESOURCES: Sketch = Sketch::Listed(
    None,
    &["a", "b", "c", "d"],
    &[
        ("s1", &[1, 2]),
        ("s2", &[3, 4]),
        ("s3", &[1, 3]),
        ("s4", &[2, 4]),
    ],
    &[("r1", &[1, 2]), ("r2", &[3, 4])],
    THIEF,
    &[PLAIN, PLAIN, PLAIN, PLAIN],
);

const TWO_RESOURCES_PARTS: &[Part] = &[
    Part::Form(Kind::Security, 0, None, 1),
    Part::Sizes([4, 0, 2, 4]),
    Part::Type(1, "thief", 1, 4, 0),
    Part::Goal(1, "a"),
    Part::Action(1, 1, "a"),
    Part::Goal(2, "b"),
    Part::Action(1, 2, "b"),
    Part::Goal(3, "c"),
    Part::Action(1, 3, "c"),
    Part::Goal(4, "d"),
    Part::Schedule(1, "s1", &[1, 2]),
    Part::Schedule(2, "s2", &[3, 4]),
    Part::Schedule(3, "s3", &[1, 3]),
    Part::Schedule(4, "s4", &[2, 4]),
    Part::Resource(1, "r1", &[1, 2]),
    Part::Resource(2, "r2", &[3, 4]),
];

const TWO_RESOURCES_PAYS: &[Pay] = &[
    Pay::Ends(1, 2),
    Pay::Target(1, 4, Some([0, -1, 0, 1])),
    // 3 * 3 plays, and 1 + 2 + 2 * 4 + 3 rows.
    Pay::Counts(false, false, 9, 14),
    Pay::Open(&[0, 0], 1, true),
    Pay::Open(&[1, 1], 1, false),
    Pay::Open(&[1, 1], 2, false),
    Pay::Open(&[1, 1], 3, false),
    Pay::Open(&[1, 1], 4, true),
    Pay::Open(&[1, 2], 3, true),
    Pay::Open(&[0, 2], 1, true),
    Pay::Open(&[0, 2], 4, false),
    Pay::Open(&[2, 0], 2, true),
    Pay::Open(&[2, 0], 4, false),
    Pay::Illegal(&[3, 0]),
    Pay::Illegal(&[0, 3]),
    Pay::Illegal(&[1]),
    Pay::Least(&[0, 0]),
];

/// Three targets with a schedule each, and two resources that share the second.
const SINGLES: Sketch = Sketch::Listed(
    None,
    THREE,
    &[("s1", &[1]), ("s2", &[2]), ("s3", &[3])],
    &[("r1", &[1, 2]), ("r2", &[2, 3])],
    THIEF,
    THREE_PLAIN,
);

const SINGLES_PARTS: &[Part] = &[
    Part::Form(Kind::Security, 0, None, 1),
    Part::Sizes([3, 0, 2, 3]),
    Part::Type(1, "thief", 1, 3, 0),
    Part::Goal(1, "a"),
    Part::Action(1, 1, "a"),
    Part::Goal(2, "b"),
    Part::Action(1, 2, "b"),
    Part::Goal(3, "c"),
    Part::Action(1, 3, "c"),
    Part::Schedule(1, "s1", &[1]),
    Part::Schedule(2, "s2", &[2]),
    Part::Schedule(3, "s3", &[3]),
    Part::Resource(1, "r1", &[1, 2]),
    Part::Resource(2, "r2", &[2, 3]),
];

const SINGLES_PAYS: &[Pay] = &[
    Pay::Ends(1, 2),
    Pay::Target(1, 3, Some([0, -1, 0, 1])),
    Pay::Target(1, 4, None),
    // 3 * 3 plays, and 1 + 2 + 2 * 3 + 2 rows.
    Pay::Counts(false, true, 9, 11),
    Pay::Open(&[0, 0], 2, true),
    Pay::Open(&[1, 2], 1, false),
    Pay::Open(&[1, 2], 2, true),
    Pay::Open(&[1, 2], 3, false),
    Pay::Open(&[2, 1], 1, true),
    Pay::Open(&[2, 1], 2, false),
    Pay::Open(&[2, 1], 3, true),
    Pay::Open(&[0, 2], 3, false),
    Pay::Open(&[0, 2], 2, true),
    Pay::Illegal(&[3, 0]),
    Pay::Illegal(&[0, 3]),
    Pay::Illegal(&[1, 1, 1]),
    Pay::Least(&[0, 0]),
];

/// Three targets in a row, and one resource that holds two neighbours.
const ONE_RESOURCE: Sketch = Sketch::Listed(
    None,
    THREE,
    &[("s1", &[1, 2]), ("s2", &[2, 3])],
    &[("r1", &[1, 2])],
    THIEF,
    THREE_PLAIN,
);

const ONE_RESOURCE_PARTS: &[Part] = &[
    Part::Form(Kind::Security, 0, None, 1),
    Part::Sizes([3, 0, 1, 2]),
    Part::Type(1, "thief", 1, 3, 0),
    Part::Goal(1, "a"),
    Part::Action(1, 1, "a"),
    Part::Goal(2, "b"),
    Part::Action(1, 2, "b"),
    Part::Goal(3, "c"),
    Part::Action(1, 3, "c"),
    Part::Schedule(1, "s1", &[1, 2]),
    Part::Schedule(2, "s2", &[2, 3]),
    Part::Resource(1, "r1", &[1, 2]),
];

const ONE_RESOURCE_PAYS: &[Pay] = &[
    Pay::Ends(1, 2),
    Pay::Target(1, 3, Some([0, -1, 0, 1])),
    // 3 plays, and 1 + 1 + 2 * 3 + 2 rows.
    Pay::Counts(false, false, 3, 10),
    Pay::Open(&[0], 2, true),
    Pay::Open(&[1], 1, false),
    Pay::Open(&[1], 2, false),
    Pay::Open(&[1], 3, true),
    Pay::Open(&[2], 1, true),
    Pay::Open(&[2], 2, false),
    Pay::Open(&[2], 3, false),
    Pay::Illegal(&[3]),
    Pay::Illegal(&[]),
    Pay::Illegal(&[1, 0]),
    Pay::Least(&[0]),
];

const THIEF_ROWS: Rows = &[&[-2, 4], &[1, 3]];

const SPY_ROWS: Rows = &[&[5, 6, 7], &[-9, 0, 8]];

/// Two rows against two types, whose actions differ, and who get what the defender gets.
const TWO_TYPES: Sketch = Sketch::Matrix(
    &["A", "B"],
    &[
        ("thief", 3, &["x", "y"], THIEF_ROWS, THIEF_ROWS),
        ("spy", 5, &["u", "v", "w"], SPY_ROWS, SPY_ROWS),
    ],
);

const TWO_TYPES_PARTS: &[Part] = &[
    Part::Form(Kind::Matrix, 0, None, 2),
    Part::Type(1, "thief", 3, 2, 4),
    Part::Type(2, "spy", 5, 3, 8),
    Part::Action(1, 2, "y"),
    Part::Action(2, 3, "w"),
];

const TWO_TYPES_PAYS: &[Pay] = &[
    Pay::Cell(1, 1, 1, Some((-2, -2))),
    Pay::Play(2, &[2], 3, Some((8, 8))),
    Pay::Play(1, &[2], 3, None),
    // The least payoff is -9, against the second type; 1 + 1 + 2 rows.
    Pay::Ends(8, 10),
    Pay::Counts(false, false, 2, 4),
];

/// Games, and facts on them.
static GAMES: [(Sketch, &[Part], &[Pay]); 6] = [
    (PATROLS, PATROLS_PARTS, PATROLS_PAYS),
    (ROWS, ROWS_PARTS, ROWS_PAYS),
    (TWO_RESOURCES, TWO_RESOURCES_PARTS, TWO_RESOURCES_PAYS),
    (SINGLES, SINGLES_PARTS, SINGLES_PAYS),
    (ONE_RESOURCE, ONE_RESOURCE_PARTS, ONE_RESOURCE_PAYS),
    (TWO_TYPES, TWO_TYPES_PARTS, TWO_TYPES_PAYS),
];

/// The first game, counted from 0, of which a fact does not hold.
fn first_wrong(
    alloc: Global,
    rows: &[(Sketch, &[Part], &[Pay])],
) -> Result<Option<usize>, BuildFault> {
    for k in 0..rows.len() {
        let (sketch, parts, pays) = rows[k];
        let game = sketched(alloc, sketch)?;
        if !shows(alloc, &game, parts, pays)? {
            return Ok(Some(k));
        }
    }
    Ok(None)
}

#[test]
fn shows_games(rt: HostRuntime) {
    assert_eq!(rt; first_wrong(rt.alloc(), &GAMES).ok(), Some(None));
}
