//! Game files: the games that they are, and their canonical texts.
use crate::samples::{FOUR_TARGETS, MATRIX, TWO_TARGETS, TWO_TYPES};
use crate::shown::{Part, Pay, shows};
use sg_file::{GameError, read_game};
use sg_game::Kind;
use sg_game_text::write_game;
use std::alloc::Global;

/// Files, and facts on their games.
static READ: [(&str, &[Part], &[Pay]); 3] = [
    (
        TWO_TARGETS,
        &[
            Part::Form(Kind::Security, 4, Some(1), 1),
            Part::Sizes([2, 0, 1, 2]),
            Part::Goal(2, "hall"),
            Part::Type(1, "thief", 1, 2, 2),
        ],
        &[
            Pay::Target(1, 1, Some([2, -2, 0, 4])),
            Pay::Target(1, 2, Some([1, -1, 0, 2])),
        ],
    ),
    (
        MATRIX,
        &[
            Part::Form(Kind::Matrix, 0, None, 1),
            Part::Goal(1, "A"),
            Part::Action(1, 2, "y"),
        ],
        &[
            Pay::Cell(1, 2, 1, Some((1, 0))),
            Pay::Cell(1, 2, 2, Some((3, 2))),
        ],
    ),
    (
        FOUR_TARGETS,
        &[
            Part::Form(Kind::Security, 0, None, 1),
            Part::Sizes([4, 0, 2, 4]),
            Part::Schedule(2, "b", &[4, 3]),
            Part::Resource(2, "r2", &[4, 3]),
            Part::Type(1, "thief", 1_048_576, 4, 0),
        ],
        &[],
    ),
];

/// The first file, counted from 0, whose game shows something else.
fn first_misread(
    alloc: Global,
    files: &[(&str, &[Part], &[Pay])],
) -> Result<Option<usize>, GameError> {
    for k in 0..files.len() {
        let (text, parts, pays) = files[k];
        let game = read_game(alloc, text.as_bytes())?;
        if !shows(alloc, &game, parts, pays)? {
            return Ok(Some(k));
        }
    }
    Ok(None)
}

#[test]
fn reads_games(rt: HostRuntime) {
    assert_eq!(rt; first_misread(rt.alloc(), &READ).ok(), Some(None));
}

/// Four targets, and two resources of two schedules each.
const FOUR_TARGETS_TEXT: &str =
    "version = 1\nform = \"security\"\ntargets = [\"t1\", \"t2\", \"t3\", \"t4\"]\n\n[[schedule]]\nname = \"a\"\ntargets = [\"t1\", \"t2\"]\n\n[[schedule]]\nname = \"b\"\ntargets = [\"t4\", \"t3\"]\n\n[[schedule]]\nname = \"c\"\ntargets = [\"t1\", \"t3\"]\n\n[[schedule]]\nname = \"d\"\ntargets = [\"t2\", \"t4\"]\n\n[[resource]]\nname = \"r1\"\nschedules = [\"a\", \"b\"]\n\n[[resource]]\nname = \"r2\"\nschedules = [\"d\", \"c\"]\n\n[[type]]\nname = \"thief\"\nprior = 1048576\npayoffs = [[0, -1, 0, 1], [0, -1, 0, 1], [0, -1, 0, 1], [0, -1, -1073741824, 1073741824]]\n";

/// Two targets, and one resource that takes the first, the second or both.
const ONE_BLOCK: &str =
    "version = 1\nform = \"security\"\ntargets = [\"t1\", \"t2\"]\n\n[[schedule]]\nname = \"s1\"\ntargets = [\"t1\"]\n\n[[schedule]]\nname = \"s2\"\ntargets = [\"t2\"]\n\n[[schedule]]\nname = \"s3\"\ntargets = [\"t1\", \"t2\"]\n\n[[resource]]\nname = \"r1\"\nschedules = [\"s1\", \"s2\", \"s3\"]\n\n[[type]]\nname = \"a1\"\nprior = 1\npayoffs = [[0, -1, 0, 1], [0, -1, 0, 1]]\n";

/// Keys in another order, comments, other spellings of numbers and texts, a byte-order mark and carriage returns.
const DISORDERED: &str =
    "\u{feff}form = 'security' # a form\r\nresource = []\r\ntype = [{prior = 0x1_0, payoffs = [[+0, -1, 0b0, 0o1],], name = \"a\\u0031\"}]\r\nschedule = []\r\ntargets = [\r\n  \"x_-9\",\r\n]\r\nversion = 1\r\n";

const ORDERED: &str =
    "version = 1\nform = \"security\"\ntargets = [\"x_-9\"]\nschedule = []\nresource = []\n\n[[type]]\nname = \"a1\"\nprior = 16\npayoffs = [[0, -1, 0, 1]]\n";

/// Files, and the canonical texts of their games.
static CANONICAL: [(&str, &str); 6] = [
    (TWO_TARGETS, TWO_TARGETS),
    (MATRIX, MATRIX),
    (FOUR_TARGETS, FOUR_TARGETS_TEXT),
    (ONE_BLOCK, ONE_BLOCK),
    (DISORDERED, ORDERED),
    (TWO_TYPES, TWO_TYPES),
];

/// Whether the game of the text is written as the second text.
fn writes(alloc: Global, text: &str, canonical: &str) -> Result<bool, GameError> {
    let game = read_game(alloc, text.as_bytes())?;
    let written = write_game(alloc, &game)?;
    Ok(written.as_slice() == canonical.as_bytes())
}

/// The first file, counted from 0, whose game is written otherwise, or whose canonical text is not written as it is.
fn first_miswritten(alloc: Global, files: &[(&str, &str)]) -> Result<Option<usize>, GameError> {
    for k in 0..files.len() {
        let (text, canonical) = files[k];
        if !writes(alloc, text, canonical)? || !writes(alloc, canonical, canonical)? {
            return Ok(Some(k));
        }
    }
    Ok(None)
}

#[test]
fn writes_canonical_texts(rt: HostRuntime) {
    assert_eq!(rt; first_miswritten(rt.alloc(), &CANONICAL).ok(), Some(None));
}
