//! Changes of a game file in matrix form and of one with two types, each with its refusal.
use crate::changes::Changed;
use crate::samples::{MATRIX, TWO_TYPES};
use sg_game::Place;

/// Rows, actions and tables in the file in matrix form.
pub(crate) static MATRIX_CHANGED: [Changed; 20] = [
    (MATRIX, "\"B\"", "\"A\"", 8, Place::Row(2)),
    (MATRIX, "\"y\"", "\"x\"", 8, Place::Attacker(1)),
    (MATRIX, "[\"x\", \"y\"]", "[]", 6, Place::Attacker(1)),
    (MATRIX, "leader", "payoffs", 5, Place::Attacker(1)),
    (MATRIX, "[2, 4]", "[2, 4, 6]", 9, Place::Attacker(1)),
    (
        MATRIX,
        "[[1, 0], [0, 2]]",
        "[[1, 0]]",
        9,
        Place::Attacker(1),
    ),
    (
        MATRIX,
        "[[1, 0], [0, 2]]",
        "[[1, \"0\"], 7]",
        4,
        Place::Attacker(1),
    ),
    (MATRIX, "rows", "patrols = 1\nrows", 5, Place::Document),
    (MATRIX, "\"B\"", "\"\"", 9, Place::Row(2)),
    (MATRIX, "\"B\"", "true", 4, Place::Row(2)),
    (MATRIX, "[\"A\", \"B\"]", "[]", 6, Place::Document),
    (MATRIX, "rows = [\"A\", \"B\"]\n", "", 3, Place::Document),
    (MATRIX, "\"y\"", "\"a b\"", 9, Place::Attacker(1)),
    (MATRIX, "\"y\"", "2", 4, Place::Attacker(1)),
    (
        MATRIX,
        "follower = [[1, 0], [0, 2]]",
        "",
        3,
        Place::Attacker(1),
    ),
    (
        MATRIX,
        "[[2, 4], [1, 3]]",
        "[[2, 4], [1, 1073741825]]",
        9,
        Place::Attacker(1),
    ),
    (MATRIX, "[[2, 4], [1, 3]]", "true", 4, Place::Attacker(1)),
    (
        MATRIX,
        "prior = 1\n",
        "prior = 0\nactions = []\n",
        1,
        Place::Document,
    ),
    (
        MATRIX,
        "[[type]]\n",
        "[[type]]\nname = \"thief\"\nprior = 1\nactions = [\"x\"]\nleader = [[1], [1]]\nfollower = [[1], [1]]\n\n[[type]]\n",
        8,
        Place::Attacker(2),
    ),
    (
        MATRIX,
        "[[type]]\nname = \"thief\"",
        "[[type]]\nname = \"spy\"\nprior = 1\nactions = [\"x\"]\nleader = [[1], [1]]\nfollower = [[1], [1]]\n\n[[type]]\nname = \"a b\"",
        9,
        Place::Attacker(2),
    ),
];

/// Faults of the second type.
pub(crate) static TWO_TYPES_CHANGED: [Changed; 11] = [
    (TWO_TYPES, "\"b\"", "\"a\"", 8, Place::Attacker(2)),
    (TWO_TYPES, "\"b\"", "\"b b\"", 9, Place::Attacker(2)),
    (TWO_TYPES, "\"b\"", "2", 4, Place::Attacker(2)),
    (
        TWO_TYPES,
        "\"b\"\nprior = 2",
        "\"a\"\nprior = 0",
        8,
        Place::Attacker(2),
    ),
    (TWO_TYPES, "= 2\n", "= 1048577\n", 9, Place::Attacker(2)),
    (TWO_TYPES, "prior = 2\n", "", 3, Place::Attacker(2)),
    (
        TWO_TYPES,
        "prior = 2",
        "prior = 2\nactions = []",
        5,
        Place::Attacker(2),
    ),
    (TWO_TYPES, "[[-4, -3, -2, -1]]", "[]", 9, Place::Attacker(2)),
    (TWO_TYPES, "-3, -2, -1", "-3, -2", 9, Place::Attacker(2)),
    (TWO_TYPES, "-3", "-1073741825", 9, Place::Attacker(2)),
    (TWO_TYPES, "-3", "-3.0", 4, Place::Attacker(2)),
];
