//! Generated games: what `make` writes and refuses. The texts are those of `tools/generated_game.py`.

use crate::scenes::{Answer, Failing, NO_PUT, answers_on, shelf_of, sink_of, words_of};
use sg_cli::run;
use sg_shelf::MemSink;
use std::alloc::{AllocError, Global};
use std::str;
use std::test::*;

/// A shape, a seed and the text of their game.
static GAMES: [(&str, &str, &str); 6] = [
    (
        "blocks-1-2-1",
        "0",
        "version = 1\nform = \"security\"\ntargets = [\"t1\", \"t2\"]\n\n[[schedule]]\nname = \"s1\"\ntargets = [\"t1\"]\n\n[[schedule]]\nname = \"s2\"\ntargets = [\"t2\"]\n\n[[schedule]]\nname = \"s3\"\ntargets = [\"t1\", \"t2\"]\n\n[[resource]]\nname = \"r1\"\nschedules = [\"s1\", \"s2\", \"s3\"]\n\n[[type]]\nname = \"a1\"\nprior = 1\npayoffs = [[0, -1, 0, 1], [0, -1, 0, 1]]\n",
    ),
    (
        "blocks-2-2-9",
        "5",
        "version = 1\nform = \"security\"\ntargets = [\"t1\", \"t2\", \"t3\", \"t4\"]\n\n[[schedule]]\nname = \"s1\"\ntargets = [\"t1\"]\n\n[[schedule]]\nname = \"s2\"\ntargets = [\"t2\"]\n\n[[schedule]]\nname = \"s3\"\ntargets = [\"t1\", \"t2\"]\n\n[[schedule]]\nname = \"s4\"\ntargets = [\"t3\"]\n\n[[schedule]]\nname = \"s5\"\ntargets = [\"t4\"]\n\n[[schedule]]\nname = \"s6\"\ntargets = [\"t3\", \"t4\"]\n\n[[resource]]\nname = \"r1\"\nschedules = [\"s1\", \"s2\", \"s3\"]\n\n[[resource]]\nname = \"r2\"\nschedules = [\"s4\", \"s5\", \"s6\"]\n\n[[type]]\nname = \"a1\"\nprior = 1\npayoffs = [[0, -6, 0, 6], [0, -5, 0, 5], [0, -4, 0, 4], [0, -5, 0, 5]]\n",
    ),
    (
        "free-2-1",
        "7",
        "version = 1\nform = \"security\"\nscale = 4294967296\npatrols = 1\ntargets = [\"t1\", \"t2\"]\n\n[[type]]\nname = \"a1\"\nprior = 1\npayoffs = [[796, -415, -157, 524131], [739, -238, -722, 1326]]\n",
    ),
    (
        "free-1-0",
        "18446744073709551615",
        "version = 1\nform = \"security\"\nscale = 4294967296\npatrols = 0\ntargets = [\"t1\"]\n\n[[type]]\nname = \"a1\"\nprior = 1\npayoffs = [[332, -707, -66, 8126]]\n",
    ),
    (
        "matrix-2-3-2",
        "18446744073709551615",
        "version = 1\nform = \"matrix\"\nrows = [\"r1\", \"r2\"]\n\n[[type]]\nname = \"a1\"\nprior = 1\nactions = [\"x1\", \"x2\", \"x3\"]\nleader = [[-4, 9, -1], [-1, 0, 5]]\nfollower = [[-8, -10, -8], [-3, -2, 6]]\n\n[[type]]\nname = \"a2\"\nprior = 1\nactions = [\"x1\", \"x2\", \"x3\"]\nleader = [[2, -10, -4], [-2, 5, 3]]\nfollower = [[10, -5, 9], [-7, 8, -9]]\n",
    ),
    (
        "matrix-1-1-1",
        "0",
        "version = 1\nform = \"matrix\"\nrows = [\"r1\"]\n\n[[type]]\nname = \"a1\"\nprior = 1\nactions = [\"x1\"]\nleader = [[2]]\nfollower = [[8]]\n",
    ),
];

/// Whether this is made with nothing read.
fn is_made(
    alloc: Global,
    shape: &str,
    seed: &str,
    failing: &Failing,
    expected: &Answer,
) -> Result<bool, AllocError> {
    let mut shelf = shelf_of(alloc, b"no game".as_slice(), None, &[1])?;
    let answered = answers_on(alloc, &["make", shape, seed], &mut shelf, failing, expected)?;
    Ok(answered && shelf.log().is_empty())
}

#[test]
fn makes_games(rt: HostRuntime) -> Result<(), AllocError> {
    for (shape, seed, out) in GAMES {
        let expected = Answer {
            status: 0,
            out,
            err: "",
        };
        assert!(rt;
            is_made(rt.alloc(), shape, seed, &NO_PUT, &expected)?,
            "{shape} {seed}"
        );
    }
    Ok(())
}

/// Texts that are no shape, and seeds that are none.
static REFUSED: [(&str, &str); 22] = [
    ("", "1"),
    ("free-0-0", "1"),
    ("free-10001-0", "1"),
    ("free-1-201", "1"),
    ("free-01-1", "1"),
    ("free-1", "1"),
    ("free-1-1-1", "1"),
    ("Free-1-1", "1"),
    ("blocks-0-2-1", "1"),
    ("blocks-9-2-1", "1"),
    ("blocks-1-1-1", "1"),
    ("blocks-1-11-1", "1"),
    ("blocks-1-2-0", "1"),
    ("blocks-1-2-1001", "1"),
    ("blocks-1-2", "1"),
    ("Blocks-1-2-1", "1"),
    ("blocks-01-2-1", "1"),
    ("matrix-4097-1-1", "1"),
    ("matrix-4096-64-1", "1"),
    ("free-1-1", "18446744073709551616"),
    ("free-1-1", "01"),
    ("free-1-1", ""),
];

#[test]
fn refuses_other_shapes_and_seeds(rt: HostRuntime) -> Result<(), AllocError> {
    let expected = Answer {
        status: 2,
        out: "",
        err: "words refused\n",
    };
    for (shape, seed) in REFUSED {
        assert!(rt;
            is_made(rt.alloc(), shape, seed, &NO_PUT, &expected)?,
            "{shape} {seed}"
        );
    }
    Ok(())
}

#[test]
fn leaves_a_front_of_a_game(rt: HostRuntime) -> Result<(), AllocError> {
    let failing = Failing {
        out: (&[1], 9),
        err: (&[], 0),
    };
    let expected = Answer {
        status: 9,
        out: "version =",
        err: "write failed\n",
    };
    assert!(rt; is_made(rt.alloc(), "matrix-1-1-1", "0", &failing, &expected)?);
    Ok(())
}

/// What a run over these files writes, and its status.
fn ran(
    alloc: Global,
    words: &[&str],
    game: &[u8],
    report: Option<&str>,
    out: &mut MemSink,
) -> Result<u8, AllocError> {
    let words = words_of(alloc, words)?;
    let mut shelf = shelf_of(alloc, game, report, &[])?;
    let mut err = sink_of(alloc, &[], 0)?;
    Ok(run(alloc, &words, &mut shelf, out, &mut err))
}

/// Whether a made game is solved, and the report accepted.
fn is_solved(alloc: Global, shape: &str, seed: &str) -> Result<bool, AllocError> {
    let mut made = sink_of(alloc, &[], 0)?;
    let mut solved = sink_of(alloc, &[], 0)?;
    let mut checked = sink_of(alloc, &[], 0)?;
    let first = ran(
        alloc,
        &["make", shape, seed],
        b"".as_slice(),
        None,
        &mut made,
    )?;
    let second = ran(
        alloc,
        &["solve", "game.toml"],
        made.bytes(),
        None,
        &mut solved,
    )?;
    let report = match str::from_utf8(solved.bytes()) {
        Ok(report) => report,
        Err(_) => return Ok(false),
    };
    let words = ["check", "game.toml", "report"];
    let third = ran(alloc, &words, made.bytes(), Some(report), &mut checked)?;
    Ok(first == 0 && second == 0 && third == 0)
}

#[test]
fn made_games_are_solved_and_checked(rt: HostRuntime) -> Result<(), AllocError> {
    assert!(rt; is_solved(rt.alloc(), "free-40-5", "1")?);
    Ok(())
}
