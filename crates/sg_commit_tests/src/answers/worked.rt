//! Commitments all of whose sums fit.

use super::{ALIKE, CROSSED, Case, ONE_TYPE, TWO_TYPES};
use crate::games::{GATE_AND_HALL, HALF, MOST};

const EDGE: i128 = 39614081257132168796771975168; // 2^95

/// One type against two rows.
pub(super) fn ties_of_one_type() -> &'static [Case] {
    const CASES: &'static [Case] = &[
        // Both actions are best, and the second leaves the defender more.
        Case {
            game: ONE_TYPE,
            priors: &[1],
            parts: &[(4, &[2]), (2, &[1]), (6, &[1])],
            types: &[(
                &[(Ok(5), Ok(2), Ok(true)), (Ok(11), Ok(2), Ok(true))],
                Ok(11),
            )],
            worth: Ok(11),
            value: Ok((11, 3)),
            counts: &[],
        },
        Case {
            game: ONE_TYPE,
            priors: &[1],
            parts: &[(7, &[1])],
            types: &[(
                &[(Ok(2), Ok(1), Ok(true)), (Ok(4), Ok(0), Ok(false))],
                Ok(2),
            )],
            worth: Ok(2),
            value: Ok((2, 1)),
            counts: &[],
        },
        Case {
            game: ONE_TYPE,
            priors: &[1],
            parts: &[(2, &[2])],
            types: &[(
                &[(Ok(1), Ok(0), Ok(false)), (Ok(3), Ok(2), Ok(true))],
                Ok(3),
            )],
            worth: Ok(3),
            value: Ok((3, 1)),
            counts: &[],
        },
    ];
    CASES
}

/// The same with other shares.
pub(super) fn answers_of_one_type() -> &'static [Case] {
    const CASES: &'static [Case] = &[
        Case {
            game: ONE_TYPE,
            priors: &[1],
            parts: &[(2, &[2]), (2, &[1])],
            types: &[(
                &[(Ok(3), Ok(1), Ok(false)), (Ok(7), Ok(2), Ok(true))],
                Ok(7),
            )],
            worth: Ok(7),
            value: Ok((7, 2)),
            counts: &[],
        },
        Case {
            game: ONE_TYPE,
            priors: &[1],
            parts: &[(1, &[2]), (3, &[1])],
            types: &[(
                &[(Ok(7), Ok(3), Ok(true)), (Ok(15), Ok(2), Ok(false))],
                Ok(7),
            )],
            worth: Ok(7),
            value: Ok((7, 4)),
            counts: &[],
        },
    ];
    CASES
}

/// Two types against two rows.
pub(super) fn two_types() -> &'static [Case] {
    const CASES: &'static [Case] = &[
        // Both actions are best for both types.
        Case {
            game: TWO_TYPES,
            priors: &[1, 1],
            parts: &[(5, &[1]), (5, &[2]), (5, &[1])],
            types: &[
                (
                    &[(Ok(5), Ok(2), Ok(true)), (Ok(11), Ok(2), Ok(true))],
                    Ok(11),
                ),
                (
                    &[(Ok(5), Ok(2), Ok(true)), (Ok(11), Ok(2), Ok(true))],
                    Ok(11),
                ),
            ],
            worth: Ok(22),
            value: Ok((11, 3)),
            counts: &[],
        },
        Case {
            game: TWO_TYPES,
            priors: &[1, 1],
            parts: &[(9, &[1])],
            types: &[
                (
                    &[(Ok(2), Ok(1), Ok(true)), (Ok(4), Ok(0), Ok(false))],
                    Ok(2),
                ),
                (
                    &[(Ok(2), Ok(0), Ok(false)), (Ok(4), Ok(1), Ok(true))],
                    Ok(4),
                ),
            ],
            worth: Ok(6),
            value: Ok((3, 1)),
            counts: &[],
        },
        Case {
            game: TWO_TYPES,
            priors: &[3, 5],
            parts: &[(6, &[2]), (6, &[1])],
            types: &[
                (
                    &[(Ok(3), Ok(1), Ok(false)), (Ok(7), Ok(2), Ok(true))],
                    Ok(7),
                ),
                (
                    &[(Ok(3), Ok(2), Ok(true)), (Ok(7), Ok(1), Ok(false))],
                    Ok(3),
                ),
            ],
            worth: Ok(36),
            value: Ok((9, 4)),
            counts: &[],
        },
    ];
    CASES
}

/// Ties go to the defender.
pub(super) fn ties() -> &'static [Case] {
    const CASES: &'static [Case] = &[
        // The first three actions are best whatever the commitment: the defender's greatest sum of them is that of the second,
        // of the third, and of both. The fourth leaves more, and is not best.
        Case {
            game: ALIKE,
            priors: &[1],
            parts: &[(8, &[1])],
            types: &[(
                &[
                    (Ok(-3), Ok(0), Ok(true)),
                    (Ok(-1), Ok(0), Ok(true)),
                    (Ok(-2), Ok(0), Ok(true)),
                    (Ok(9), Ok(-1), Ok(false)),
                ],
                Ok(-1),
            )],
            worth: Ok(-1),
            value: Ok((-1, 1)),
            counts: &[],
        },
        Case {
            game: ALIKE,
            priors: &[1],
            parts: &[(8, &[2])],
            types: &[(
                &[
                    (Ok(0), Ok(0), Ok(true)),
                    (Ok(1), Ok(0), Ok(true)),
                    (Ok(4), Ok(0), Ok(true)),
                    (Ok(9), Ok(-1), Ok(false)),
                ],
                Ok(4),
            )],
            worth: Ok(4),
            value: Ok((4, 1)),
            counts: &[],
        },
        Case {
            game: ALIKE,
            priors: &[1],
            parts: &[(2, &[2]), (6, &[1])],
            types: &[(
                &[
                    (Ok(-9), Ok(0), Ok(true)),
                    (Ok(-2), Ok(0), Ok(true)),
                    (Ok(-2), Ok(0), Ok(true)),
                    (Ok(36), Ok(-4), Ok(false)),
                ],
                Ok(-2),
            )],
            worth: Ok(-2),
            value: Ok((-1, 2)),
            counts: &[],
        },
    ];
    CASES
}

/// Four targets, which two resources split.
pub(super) fn four_targets() -> &'static [Case] {
    const CASES: &'static [Case] = &[
        // Each target is open on one of four tickets. On the first both resources hold the first target.
        Case {
            game: CROSSED,
            priors: &[1],
            parts: &[
                (6, &[2, 1]),
                (6, &[1, 1]),
                (2, &[2, 2]),
                (6, &[1, 2]),
                (4, &[2, 2]),
            ],
            types: &[(
                &[
                    (Ok(-1), Ok(1), Ok(true)),
                    (Ok(-1), Ok(1), Ok(true)),
                    (Ok(-1), Ok(1), Ok(true)),
                    (Ok(-1), Ok(1), Ok(true)),
                ],
                Ok(-1),
            )],
            worth: Ok(-1),
            value: Ok((-1, 4)),
            counts: &[3, 3, 3, 3],
        },
        Case {
            game: CROSSED,
            priors: &[1],
            parts: &[(4, &[0, 2]), (12, &[1, 1])],
            types: &[(
                &[
                    (Ok(-1), Ok(1), Ok(false)),
                    (Ok(0), Ok(0), Ok(false)),
                    (Ok(-1), Ok(1), Ok(false)),
                    (Ok(-3), Ok(3), Ok(true)),
                ],
                Ok(-3),
            )],
            worth: Ok(-3),
            value: Ok((-3, 4)),
            counts: &[3, 4, 3, 1],
        },
    ];
    CASES
}

/// Two targets and one patrol.
pub(super) fn one_patrol() -> &'static [Case] {
    const CASES: &'static [Case] = &[
        // Both are best, and the first leaves the defender more.
        Case {
            game: GATE_AND_HALL,
            priors: &[1],
            parts: &[(3, &[2]), (6, &[1])],
            types: &[(
                &[(Ok(2), Ok(4), Ok(true)), (Ok(-1), Ok(4), Ok(true))],
                Ok(2),
            )],
            worth: Ok(2),
            value: Ok((2, 3)),
            counts: &[2, 1],
        },
        Case {
            game: GATE_AND_HALL,
            priors: &[1],
            parts: &[(5, &[0])],
            types: &[(
                &[(Ok(-2), Ok(4), Ok(true)), (Ok(-1), Ok(2), Ok(false))],
                Ok(-2),
            )],
            worth: Ok(-2),
            value: Ok((-2, 1)),
            counts: &[0, 0],
        },
    ];
    CASES
}

/// Totals about 2^95, up to which the sums come from counts.
pub(super) fn edges() -> &'static [Case] {
    const CASES: &'static [Case] = &[
        // The last target is open on all tickets but one.
        Case {
            game: CROSSED,
            priors: &[1],
            parts: &[(1, &[2, 2]), (EDGE - 2, &[1, 1])],
            types: &[(
                &[
                    (Ok(-1), Ok(1), Ok(false)),
                    (Ok(0), Ok(0), Ok(false)),
                    (Ok(0), Ok(0), Ok(false)),
                    (Ok(2 - EDGE), Ok(EDGE - 2), Ok(true)),
                ],
                Ok(2 - EDGE),
            )],
            worth: Ok(2 - EDGE),
            value: Ok((2 - EDGE, EDGE - 1)),
            counts: &[EDGE - 2, EDGE - 1, EDGE - 1, 1],
        },
        Case {
            game: CROSSED,
            priors: &[1],
            parts: &[(1, &[2, 2]), (EDGE - 1, &[1, 1])],
            types: &[(
                &[
                    (Ok(-1), Ok(1), Ok(false)),
                    (Ok(0), Ok(0), Ok(false)),
                    (Ok(0), Ok(0), Ok(false)),
                    (Ok(1 - EDGE), Ok(EDGE - 1), Ok(true)),
                ],
                Ok(1 - EDGE),
            )],
            worth: Ok(1 - EDGE),
            value: Ok((1 - EDGE, EDGE)),
            counts: &[EDGE - 1, EDGE, EDGE, 1],
        },
        Case {
            game: CROSSED,
            priors: &[1],
            parts: &[(1, &[2, 2]), (EDGE, &[1, 1])],
            types: &[(
                &[
                    (Ok(-1), Ok(1), Ok(false)),
                    (Ok(0), Ok(0), Ok(false)),
                    (Ok(0), Ok(0), Ok(false)),
                    (Ok(-EDGE), Ok(EDGE), Ok(true)),
                ],
                Ok(-EDGE),
            )],
            worth: Ok(-EDGE),
            value: Ok((-EDGE, EDGE + 1)),
            counts: &[EDGE, EDGE + 1, EDGE + 1, 1],
        },
    ];
    CASES
}

/// Greater totals.
pub(super) fn great_totals() -> &'static [Case] {
    const CASES: &'static [Case] = &[
        // The last target is open on all tickets but one.
        Case {
            game: CROSSED,
            priors: &[1],
            parts: &[(1, &[2, 2]), (HALF, &[1, 1])],
            types: &[(
                &[
                    (Ok(-1), Ok(1), Ok(false)),
                    (Ok(0), Ok(0), Ok(false)),
                    (Ok(0), Ok(0), Ok(false)),
                    (Ok(-HALF), Ok(HALF), Ok(true)),
                ],
                Ok(-HALF),
            )],
            worth: Ok(-HALF),
            value: Ok((-HALF, HALF + 1)),
            counts: &[HALF, HALF + 1, HALF + 1, 1],
        },
        Case {
            game: CROSSED,
            priors: &[1],
            parts: &[(1, &[2, 2]), (MOST - 1, &[1, 1])],
            types: &[(
                &[
                    (Ok(-1), Ok(1), Ok(false)),
                    (Ok(0), Ok(0), Ok(false)),
                    (Ok(0), Ok(0), Ok(false)),
                    (Ok(1 - MOST), Ok(MOST - 1), Ok(true)),
                ],
                Ok(1 - MOST),
            )],
            worth: Ok(1 - MOST),
            value: Ok((1 - MOST, MOST)),
            counts: &[MOST - 1, MOST, MOST, 1],
        },
    ];
    CASES
}
