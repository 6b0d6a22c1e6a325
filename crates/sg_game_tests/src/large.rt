//! Game files with long lists and large games.
use crate::reasons::is_refused;
use crate::samples::{FOUR_TARGETS, MATRIX};
use sg_file::read_game;
use sg_game::Place;
use std::alloc::{AllocError, Global};

/// A file of schedules that are numbers.
const SCHEDULES: &str =
    "version = 1\nform = \"security\"\ntargets = [\"a\"]\nresource = []\nschedule = [1]\ntype = []\n";

/// A file of resources that are numbers.
const RESOURCES: &str =
    "version = 1\nform = \"security\"\ntargets = [\"a\"]\nschedule = []\nresource = [1]\ntype = []\n";

/// A file, an array in it, an item of which there are so many in its place, and the reason and place of the refusal.
type Lengthened = (&'static str, &'static str, &'static str, u32, u8, Place);

/// Lists that are one item longer than they may be, whose items are tested after their number.
static LENGTHENED: [Lengthened; 12] = [
    (
        FOUR_TARGETS,
        "[\"t4\", \"t3\"]",
        "\"t4\"",
        201,
        10,
        Place::Schedule(2),
    ),
    (
        FOUR_TARGETS,
        "[\"t4\", \"t3\"]",
        "\"t4\"",
        200,
        8,
        Place::Schedule(2),
    ),
    (
        FOUR_TARGETS,
        "[\"d\", \"c\"]",
        "\"d\"",
        501,
        10,
        Place::Resource(2),
    ),
    (
        FOUR_TARGETS,
        "[\"d\", \"c\"]",
        "\"d\"",
        500,
        8,
        Place::Resource(2),
    ),
    (MATRIX, "[\"A\", \"B\"]", "1", 4097, 10, Place::Document),
    (MATRIX, "[\"A\", \"B\"]", "1", 4096, 4, Place::Row(1)),
    (MATRIX, "[\"x\", \"y\"]", "1", 65, 10, Place::Attacker(1)),
    (MATRIX, "[\"x\", \"y\"]", "1", 64, 4, Place::Attacker(1)),
    (SCHEDULES, "[1]", "1", 501, 10, Place::Document),
    (SCHEDULES, "[1]", "1", 500, 4, Place::Schedule(1)),
    (RESOURCES, "[1]", "1", 33, 10, Place::Document),
    (RESOURCES, "[1]", "1", 32, 4, Place::Resource(1)),
];

/// So many copies of an item, in an array.
fn array_of(alloc: Global, item: &str, count: u32) -> Result<String, AllocError> {
    let mut text = String::new(alloc);
    text.push('[')?;
    for _ in 0..count {
        text.push_str(item)?;
        text.push(',')?;
    }
    text.push(']')?;
    Ok(text)
}

/// The first lengthened list, counted from 0, that is not refused so.
fn first_list_let_through(
    alloc: Global,
    cases: &[Lengthened],
) -> Result<Option<usize>, AllocError> {
    for k in 0..cases.len() {
        let (text, old, item, count, reason, place) = cases[k];
        let new = array_of(alloc, item, count)?;
        let changed = text.replace(alloc, old, new.as_str())?;
        if !is_refused(read_game(alloc, changed.as_bytes()), reason, place) {
            return Ok(Some(k));
        }
    }
    Ok(None)
}

/// A line with the scale or none, targets, types, and whether there is such a game. With one patrol, 200 targets and
/// five types the linear program has 1 + 1 + 2 * 200 + 5 * 199 = 1397 rows, and with six types 1596.
static LARGE: [(&str, u32, u32, bool); 6] = [
    ("", 200, 5, true),
    ("", 200, 6, false),
    ("", 201, 1, false),
    ("scale = 1\n", 201, 1, true),
    ("scale = 1\n", 10_000, 1, true),
    ("scale = 1\n", 10_001, 1, false),
];

/// The text of a game of one patrol with so many targets and types.
fn large_game(alloc: Global, scale: &str, targets: u32, types: u32) -> Result<String, AllocError> {
    let mut text = format!(in alloc;
        "version = 1\nform = \"security\"\n{scale}patrols = 1\ntargets = ["
    )?;
    for t in 0..targets {
        text.push_str(format!(in alloc; "\"t{t}\", ")?.as_str())?;
    }
    text.push_str("]\n")?;
    for l in 0..types {
        text.push_str(format!(in alloc;
            "[[type]]\nname = \"a{l}\"\nprior = 1\npayoffs = ["
        )?.as_str())?;
        for _ in 0..targets {
            text.push_str("[1, 0, 0, 1], ")?;
        }
        text.push_str("]\n")?;
    }
    Ok(text)
}

/// The first large game, counted from 0, that is accepted or refused against the table, or not as too large.
fn first_wrong_large(
    alloc: Global,
    cases: &[(&str, u32, u32, bool)],
) -> Result<Option<usize>, AllocError> {
    for k in 0..cases.len() {
        let (scale, targets, types, fits) = cases[k];
        let text = large_game(alloc, scale, targets, types)?;
        let read = read_game(alloc, text.as_bytes());
        let is_right = if fits {
            read.is_ok()
        } else {
            is_refused(read, 10, Place::Document)
        };
        if !is_right {
            return Ok(Some(k));
        }
    }
    Ok(None)
}

#[test]
fn refuses_long_lists_and_large_games(rt: HostRuntime) -> Result<(), AllocError> {
    assert_eq!(rt; first_list_let_through(rt.alloc(), &LENGTHENED)?, None);
    assert_eq!(rt; first_wrong_large(rt.alloc(), &LARGE)?, None);
    Ok(())
}
