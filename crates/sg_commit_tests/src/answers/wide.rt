//! Weights so great that something does not fit: which operation that is, and what still fits beside it.

use super::{ALIKE, CROSSED, Case, ONE_TYPE, TWO_TYPES};
use crate::games::{GATE_AND_HALL, HALF, MOST};
use sg_num::{Op, Wide};

const HALF_BY_2: Wide = Wide {
    op: Op::Times,
    left: HALF,
    right: 2,
};

const HALF_BY_3: Wide = Wide {
    op: Op::Times,
    left: HALF,
    right: 3,
};

const HALF_BY_4: Wide = Wide {
    op: Op::Times,
    left: HALF,
    right: 4,
};

const HALF_BY_9: Wide = Wide {
    op: Op::Times,
    left: HALF,
    right: 9,
};

const HALF_BY_MINUS_3: Wide = Wide {
    op: Op::Times,
    left: HALF,
    right: -3,
};

const UNDER_HALF_BY_4: Wide = Wide {
    op: Op::Times,
    left: HALF - 1,
    right: 4,
};

const EIGHTH_BY_9: Wide = Wide {
    op: Op::Times,
    left: HALF / 4,
    right: 9,
};

const MOST_AND_1: Wide = Wide {
    op: Op::Sum,
    left: MOST - 1,
    right: 2,
};

const FIRST_BY_4: Wide = Wide {
    op: Op::Times,
    left: 4,
    right: HALF / 2 + 3,
};

const SECOND_BY_2: Wide = Wide {
    op: Op::Times,
    left: 2,
    right: HALF + 7,
};

const FIRST_AND_SECOND: Wide = Wide {
    op: Op::Sum,
    left: 3 * (HALF / 2 + 3),
    right: HALF + 7,
};

const MOST_BY_2: Wide = Wide {
    op: Op::Times,
    left: MOST,
    right: 2,
};

const LOSS_BY_3: Wide = Wide {
    op: Op::Times,
    left: 3,
    right: -HALF,
};

/// Sums of the defender that do not fit, and one that does.
pub(super) fn wide_sums() -> &'static [Case] {
    const CASES: &'static [Case] = &[
        // The second action is best: the defender's sum of the first is not formed.
        Case {
            game: ONE_TYPE,
            priors: &[1],
            parts: &[(HALF - 1, &[2]), (HALF, &[1])],
            types: &[(
                &[
                    (Err(HALF_BY_2), Ok(HALF), Ok(false)),
                    (Err(HALF_BY_4), Ok(MOST - 1), Ok(true)),
                ],
                Err(HALF_BY_4),
            )],
            worth: Err(HALF_BY_4),
            value: Err(HALF_BY_4),
            counts: &[],
        },
        Case {
            game: ONE_TYPE,
            priors: &[1],
            parts: &[(HALF - 1, &[1]), (2, &[2])],
            types: &[(
                &[
                    (Err(MOST_AND_1), Ok(HALF - 1), Ok(true)),
                    (Err(UNDER_HALF_BY_4), Ok(4), Ok(false)),
                ],
                Err(MOST_AND_1),
            )],
            worth: Err(MOST_AND_1),
            value: Err(MOST_AND_1),
            counts: &[],
        },
        // The greatest sum that fits.
        Case {
            game: ONE_TYPE,
            priors: &[1],
            parts: &[(HALF - 1, &[1]), (1, &[2])],
            types: &[(
                &[
                    (Ok(MOST), Ok(HALF - 1), Ok(true)),
                    (Err(UNDER_HALF_BY_4), Ok(2), Ok(false)),
                ],
                Ok(MOST),
            )],
            worth: Ok(MOST),
            value: Ok((MOST, HALF)),
            counts: &[],
        },
    ];
    CASES
}

/// Sums of the attacker that do not fit.
pub(super) fn wide_comparisons() -> &'static [Case] {
    const CASES: &'static [Case] = &[
        // All actions are compared.
        Case {
            game: ONE_TYPE,
            priors: &[1],
            parts: &[(1, &[1]), (HALF, &[2])],
            types: &[(
                &[
                    (Ok(HALF + 2), Ok(1), Err(HALF_BY_2)),
                    (Err(HALF_BY_3), Err(HALF_BY_2), Err(HALF_BY_2)),
                ],
                Err(HALF_BY_2),
            )],
            worth: Err(HALF_BY_2),
            value: Err(HALF_BY_2),
            counts: &[],
        },
        // Neither sum of the type fits, and the first is told.
        Case {
            game: GATE_AND_HALL,
            priors: &[1],
            parts: &[(HALF, &[1]), (HALF - 1, &[2])],
            types: &[(
                &[
                    (Err(HALF_BY_2), Err(UNDER_HALF_BY_4), Err(UNDER_HALF_BY_4)),
                    (Ok(-1), Err(HALF_BY_2), Err(UNDER_HALF_BY_4)),
                ],
                Err(UNDER_HALF_BY_4),
            )],
            worth: Err(UNDER_HALF_BY_4),
            value: Err(UNDER_HALF_BY_4),
            counts: &[HALF, HALF - 1],
        },
    ];
    CASES
}

/// Of the best actions some that do not fit.
pub(super) fn wide_ties() -> &'static [Case] {
    const CASES: &'static [Case] = &[
        // The defender's sum of an action that is not best is not formed.
        Case {
            game: ALIKE,
            priors: &[1],
            parts: &[(HALF / 4, &[1]), (1, &[2])],
            types: &[(
                &[
                    (Ok(-3 * (HALF / 4)), Ok(0), Ok(true)),
                    (Ok(1 - HALF / 4), Ok(0), Ok(true)),
                    (Ok(4 - HALF / 2), Ok(0), Ok(true)),
                    (Err(EIGHTH_BY_9), Ok(-1 - HALF / 4), Ok(false)),
                ],
                Ok(1 - HALF / 4),
            )],
            worth: Ok(1 - HALF / 4),
            value: Ok((1 - HALF / 4, HALF / 4 + 1)),
            counts: &[],
        },
        // Of the best actions the first whose sum does not fit is told.
        Case {
            game: ALIKE,
            priors: &[1],
            parts: &[(HALF, &[1]), (HALF - 1, &[2])],
            types: &[(
                &[
                    (Err(HALF_BY_MINUS_3), Ok(0), Ok(true)),
                    (Ok(-1), Ok(0), Ok(true)),
                    (Err(UNDER_HALF_BY_4), Ok(0), Ok(true)),
                    (Err(HALF_BY_9), Ok(-MOST), Ok(false)),
                ],
                Err(HALF_BY_MINUS_3),
            )],
            worth: Err(HALF_BY_MINUS_3),
            value: Err(HALF_BY_MINUS_3),
            counts: &[],
        },
        Case {
            game: ALIKE,
            priors: &[1],
            parts: &[(1, &[1]), (HALF, &[2])],
            types: &[(
                &[
                    (Ok(-3), Ok(0), Ok(true)),
                    (Ok(HALF - 1), Ok(0), Ok(true)),
                    (Err(HALF_BY_4), Ok(0), Ok(true)),
                    (Err(HALF_BY_9), Ok(-1 - HALF), Ok(false)),
                ],
                Err(HALF_BY_4),
            )],
            worth: Err(HALF_BY_4),
            value: Err(HALF_BY_4),
            counts: &[],
        },
    ];
    CASES
}

/// Worths that do not fit.
pub(super) fn wide_worths() -> &'static [Case] {
    const CASES: &'static [Case] = &[
        Case {
            game: TWO_TYPES,
            priors: &[4, 1],
            parts: &[(HALF / 4 + 1, &[1]), (1, &[2])],
            types: &[
                (
                    &[
                        (Ok(HALF / 2 + 3), Ok(HALF / 4 + 1), Ok(true)),
                        (Ok(HALF + 7), Ok(2), Ok(false)),
                    ],
                    Ok(HALF / 2 + 3),
                ),
                (
                    &[
                        (Ok(HALF / 2 + 3), Ok(2), Ok(false)),
                        (Ok(HALF + 7), Ok(HALF / 4 + 1), Ok(true)),
                    ],
                    Ok(HALF + 7),
                ),
            ],
            worth: Err(FIRST_BY_4),
            value: Err(FIRST_BY_4),
            counts: &[],
        },
        Case {
            game: TWO_TYPES,
            priors: &[3, 2],
            parts: &[(HALF / 4 + 1, &[1]), (1, &[2])],
            types: &[
                (
                    &[
                        (Ok(HALF / 2 + 3), Ok(HALF / 4 + 1), Ok(true)),
                        (Ok(HALF + 7), Ok(2), Ok(false)),
                    ],
                    Ok(HALF / 2 + 3),
                ),
                (
                    &[
                        (Ok(HALF / 2 + 3), Ok(2), Ok(false)),
                        (Ok(HALF + 7), Ok(HALF / 4 + 1), Ok(true)),
                    ],
                    Ok(HALF + 7),
                ),
            ],
            worth: Err(SECOND_BY_2),
            value: Err(SECOND_BY_2),
            counts: &[],
        },
        Case {
            game: TWO_TYPES,
            priors: &[3, 1],
            parts: &[(HALF / 4 + 1, &[1]), (1, &[2])],
            types: &[
                (
                    &[
                        (Ok(HALF / 2 + 3), Ok(HALF / 4 + 1), Ok(true)),
                        (Ok(HALF + 7), Ok(2), Ok(false)),
                    ],
                    Ok(HALF / 2 + 3),
                ),
                (
                    &[
                        (Ok(HALF / 2 + 3), Ok(2), Ok(false)),
                        (Ok(HALF + 7), Ok(HALF / 4 + 1), Ok(true)),
                    ],
                    Ok(HALF + 7),
                ),
            ],
            worth: Err(FIRST_AND_SECOND),
            value: Err(FIRST_AND_SECOND),
            counts: &[],
        },
    ];
    CASES
}

/// Worths that fit, and one that does not.
pub(super) fn great_worths() -> &'static [Case] {
    const CASES: &'static [Case] = &[
        // A great worth fits. It is over the total times 2, both of which are even.
        Case {
            game: TWO_TYPES,
            priors: &[1, 1],
            parts: &[(HALF / 4 + 1, &[1]), (1, &[2])],
            types: &[
                (
                    &[
                        (Ok(HALF / 2 + 3), Ok(HALF / 4 + 1), Ok(true)),
                        (Ok(HALF + 7), Ok(2), Ok(false)),
                    ],
                    Ok(HALF / 2 + 3),
                ),
                (
                    &[
                        (Ok(HALF / 2 + 3), Ok(2), Ok(false)),
                        (Ok(HALF + 7), Ok(HALF / 4 + 1), Ok(true)),
                    ],
                    Ok(HALF + 7),
                ),
            ],
            worth: Ok(HALF / 4 * 6 + 10),
            value: Ok((HALF / 4 * 3 + 5, HALF / 4 + 2)),
            counts: &[],
        },
        // The third target and the fourth are open on about half of the tickets.
        Case {
            game: CROSSED,
            priors: &[1],
            parts: &[(HALF, &[1, 1]), (HALF - 1, &[1, 2])],
            types: &[(
                &[
                    (Ok(0), Ok(0), Ok(false)),
                    (Ok(0), Ok(0), Ok(false)),
                    (Ok(1 - HALF), Ok(HALF - 1), Ok(false)),
                    (Ok(-HALF), Ok(HALF), Ok(true)),
                ],
                Ok(-HALF),
            )],
            worth: Ok(-HALF),
            value: Ok((-HALF, MOST)),
            counts: &[MOST, MOST, HALF, HALF - 1],
        },
        // The worth is the least number that fits, and what it is over does not fit.
        Case {
            game: CROSSED,
            priors: &[2],
            parts: &[(HALF, &[1, 1]), (HALF - 1, &[1, 2])],
            types: &[(
                &[
                    (Ok(0), Ok(0), Ok(false)),
                    (Ok(0), Ok(0), Ok(false)),
                    (Ok(1 - HALF), Ok(HALF - 1), Ok(false)),
                    (Ok(-HALF), Ok(HALF), Ok(true)),
                ],
                Ok(-HALF),
            )],
            worth: Ok(i128::MIN),
            value: Err(MOST_BY_2),
            counts: &[MOST, MOST, HALF, HALF - 1],
        },
        Case {
            game: CROSSED,
            priors: &[3],
            parts: &[(HALF, &[1, 1]), (HALF - 1, &[1, 2])],
            types: &[(
                &[
                    (Ok(0), Ok(0), Ok(false)),
                    (Ok(0), Ok(0), Ok(false)),
                    (Ok(1 - HALF), Ok(HALF - 1), Ok(false)),
                    (Ok(-HALF), Ok(HALF), Ok(true)),
                ],
                Ok(-HALF),
            )],
            worth: Err(LOSS_BY_3),
            value: Err(LOSS_BY_3),
            counts: &[MOST, MOST, HALF, HALF - 1],
        },
    ];
    CASES
}
