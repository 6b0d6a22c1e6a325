//! Games: what `solve` answers, and that `check` accepts it.

use crate::scenes::{Answer, NO_PUT, answers, game_text, shelf_of, sink_of, words_of};
use sg_cli::run;
use std::alloc::{AllocError, Global};
use std::test::*;

/// Games of identical patrols, worked out by hand: the top keys, the payoffs, and the report.
const SOLVED: [(&str, &str, &str); 19] = [
    // Two targets, the first worth twice the second.
    (
        "scale = 4\npatrols = 1\ntargets = [\"t1\", \"t2\"]",
        "[[2, -2, 0, 4], [1, -1, 0, 2]]",
        "patrol-report 1\ntickets 2 3\nt 2 1\nt 1 2\nvalue 2 3\nwater 4 3 resources\nupper 2 3\nverdict optimal\nend\n",
    ),
    // A single target, always covered.
    (
        "scale = 1\npatrols = 1\ntargets = [\"t1\"]",
        "[[1, -1, 0, 1]]",
        "patrol-report 1\ntickets 1 1\nt 1 1\nvalue 1 1\nwater 0 1 target 1\nupper 1 1\nverdict optimal\nend\n",
    ),
    // Two targets alike.
    (
        "scale = 1\npatrols = 1\ntargets = [\"t1\", \"t2\"]",
        "[[0, -1, 0, 1], [0, -1, 0, 1]]",
        "patrol-report 1\ntickets 2 2\nt 1 1\nt 1 2\nvalue -1 2\nwater 1 2 resources\nupper -1 2\nverdict optimal\nend\n",
    ),
    // A level that spends the patrol and is a covered payoff.
    (
        "scale = 2\npatrols = 1\ntargets = [\"t1\", \"t2\"]",
        "[[1, -1, 1, 3], [0, -1, -1, 1]]",
        "patrol-report 1\ntickets 1 1\nt 1 1\nvalue 1 1\nwater 1 1 target 1\nupper 1 1\nverdict optimal\nend\n",
    ),
    // A target that is never worth an attack.
    (
        "scale = 4\npatrols = 1\ntargets = [\"t1\", \"t2\"]",
        "[[2, -2, 0, 4], [1, -1, -3, -1]]",
        "patrol-report 1\ntickets 1 1\nt 1 1\nvalue 2 1\nwater 0 1 target 1\nupper 2 1\nverdict optimal\nend\n",
    ),
    // A covered payoff below the level.
    (
        "scale = 4\npatrols = 1\ntargets = [\"t1\", \"t2\"]",
        "[[1, -3, 2, 6], [0, -1, 0, 4]]",
        "patrol-report 1\ntickets 2 4\nt 3 1\nt 1 2\nvalue 0 1\nwater 3 1 resources\nupper 0 1\nverdict optimal\nend\n",
    ),
    // A covered payoff above what the patrol can reach.
    (
        "scale = 4\npatrols = 1\ntargets = [\"t1\", \"t2\"]",
        "[[1, -3, 5, 6], [0, -1, 0, 4]]",
        "patrol-report 1\ntickets 1 1\nt 1 1\nvalue 1 1\nwater 5 1 target 1\nupper 1 1\nverdict optimal\nend\n",
    ),
    // One target with the largest payoffs.
    (
        "scale = 4294967296\npatrols = 1\ntargets = [\"t1\"]",
        "[[1073741824, -1073741824, -1073741824, 1073741824]]",
        "patrol-report 1\ntickets 1 1\nt 1 1\nvalue 1073741824 1\nwater -1073741824 1 target 1\nupper 1073741824 1\nverdict optimal\nend\n",
    ),
    // Two targets with the largest payoffs and scale.
    (
        "scale = 4294967296\npatrols = 1\ntargets = [\"t1\", \"t2\"]",
        "[[1073741824, -1073741824, 0, 1073741824], [1073741824, -1073741824, 0, 1073741824]]",
        "patrol-report 1\ntickets 2 2\nt 1 1\nt 1 2\nvalue 0 1\nwater 536870912 1 resources\nupper 0 1\nverdict optimal\nend\n",
    ),
    // Three gaps, the smallest target left alone.
    (
        "scale = 6\npatrols = 1\ntargets = [\"t1\", \"t2\", \"t3\"]",
        "[[0, -1, 0, 1], [0, -2, 0, 2], [0, -3, 0, 3]]",
        "patrol-report 1\ntickets 2 5\nt 2 2\nt 3 3\nvalue -6 5\nwater 6 5 resources\nupper -6 5\nverdict optimal\nend\n",
    ),
    // An attacker who loses everywhere.
    (
        "scale = 2\npatrols = 1\ntargets = [\"t1\", \"t2\"]",
        "[[0, -1, -4, -2], [0, -1, -3, -2]]",
        "patrol-report 1\ntickets 2 3\nt 1 1\nt 2 2\nvalue -1 3\nwater -8 3 resources\nupper -1 3\nverdict optimal\nend\n",
    ),
    // Four targets, two of them a tie at the top.
    (
        "scale = 12\npatrols = 1\ntargets = [\"t1\", \"t2\", \"t3\", \"t4\"]",
        "[[1, -4, -2, 4], [1, -4, -2, 4], [0, -1, -1, 2], [2, -9, 0, 1]]",
        "patrol-report 1\ntickets 3 12\nt 5 1\nt 5 2\nt 2 3\nvalue -5 6\nwater 3 2 resources\nupper -5 6\nverdict optimal\nend\n",
    ),
    // No patrol at all.
    (
        "scale = 4\npatrols = 0\ntargets = [\"t1\", \"t2\"]",
        "[[2, -2, 0, 4], [1, -1, 0, 2]]",
        "patrol-report 1\ntickets 1 1\nt 1\nvalue -2 1\nwater 4 1 resources\nupper -2 1\nverdict optimal\nend\n",
    ),
    // Two patrols at three targets alike: each is covered on two of three tickets.
    (
        "scale = 1\npatrols = 2\ntargets = [\"t1\", \"t2\", \"t3\"]",
        "[[0, -1, 0, 1], [0, -1, 0, 1], [0, -1, 0, 1]]",
        "patrol-report 1\ntickets 3 3\nt 1 1 2\nt 1 1 3\nt 1 2 3\nvalue -1 3\nwater 1 3 resources\nupper -1 3\nverdict optimal\nend\n",
    ),
    // More patrols than targets, of which one target stays uncovered on a ticket: more would not help.
    (
        "scale = 4\npatrols = 3\ntargets = [\"t1\", \"t2\"]",
        "[[2, -2, 0, 4], [1, -1, 1, 2]]",
        "patrol-report 1\ntickets 2 4\nt 3 1 2 0\nt 1 2 0 0\nvalue 1 1\nwater 1 1 target 2\nupper 1 1\nverdict optimal\nend\n",
    ),
    // As many patrols as targets.
    (
        "scale = 4\npatrols = 2\ntargets = [\"t1\", \"t2\"]",
        "[[2, -2, 0, 4], [1, -1, 0, 2]]",
        "patrol-report 1\ntickets 1 1\nt 1 1 2\nvalue 2 1\nwater 0 1 target 1\nupper 2 1\nverdict optimal\nend\n",
    ),
    // Eight terminals and three patrols, one of which crosses the end of its tickets.
    (
        "scale = 12\npatrols = 3\ntargets = [\"t1\", \"t2\", \"t3\", \"t4\", \"t5\", \"t6\", \"t7\", \"t8\"]",
        "[[2, -8, -2, 10], [1, -6, -4, 8], [1, -5, 0, 6], [1, -4, -2, 4], [1, -3, -1, 3], [0, -2, -2, 2], [0, -1, -3, 1], [0, -1, -4, 0]]",
        "patrol-report 1\ntickets 6 144\nt 4 1 2 3\nt 34 1 2 4\nt 28 1 3 4\nt 37 1 3 5\nt 20 2 3 5\nt 21 2 3 6\nvalue -5 12\nwater 17 12 resources\nupper -5 12\nverdict optimal\nend\n",
    ),
    // A single target and two patrols.
    (
        "scale = 1\npatrols = 2\ntargets = [\"t1\"]",
        "[[1, -1, 0, 1]]",
        "patrol-report 1\ntickets 1 1\nt 1 1 0\nvalue 1 1\nwater 0 1 target 1\nupper 1 1\nverdict optimal\nend\n",
    ),
    // Two patrols at four targets alike: no patrol crosses the end of its tickets.
    (
        "scale = 1\npatrols = 2\ntargets = [\"t1\", \"t2\", \"t3\", \"t4\"]",
        "[[0, -1, 0, 1], [0, -1, 0, 1], [0, -1, 0, 1], [0, -1, 0, 1]]",
        "patrol-report 1\ntickets 2 2\nt 1 1 3\nt 1 2 4\nvalue -1 2\nwater 1 2 resources\nupper -1 2\nverdict optimal\nend\n",
    ),
];

/// Whether `check` says of this report on a game that its tickets are optimal.
fn is_optimal(alloc: Global, game: &str, report: &str) -> Result<bool, AllocError> {
    let words = words_of(alloc, &["check", "game.toml", "report"])?;
    let mut shelf = shelf_of(alloc, game.as_bytes(), Some(report), &[])?;
    let mut out = sink_of(alloc, &[], 0)?;
    let mut err = sink_of(alloc, &[], 0)?;
    let status = run(alloc, &words, &mut shelf, &mut out, &mut err);
    Ok(status == 0 && out.bytes().starts_with(b"yes optimal ") && err.bytes().is_empty())
}

/// Whether `solve` writes this report for a game, and `check` accepts it.
fn solves(alloc: Global, game: &str, report: &str) -> Result<bool, AllocError> {
    let expected = Answer {
        status: 0,
        out: report,
        err: "",
    };
    if answers(
        alloc,
        &["solve", "game.toml"],
        game.as_bytes(),
        None,
        &expected,
    )? {
        is_optimal(alloc, game, report)
    } else {
        Ok(false)
    }
}

#[test]
fn solves_games_of_identical_patrols(rt: HostRuntime) -> Result<(), AllocError> {
    for (keys, payoffs, report) in SOLVED {
        let game = game_text(rt.alloc(), keys, payoffs)?;
        assert!(rt; solves(rt.alloc(), &game, report)?);
    }
    Ok(())
}

/// Games that are refused: the top keys, the payoffs, the status and the line.
const REFUSED: [(&str, &str, u8, &str); 7] = [
    (
        "scale = 6\npatrols = 1\ntargets = [\"gate\", \"hall\"]",
        "[[2, -2, 0, 4], [1, -1, 0, 2]]",
        6,
        "game refused 11 at type 1\n",
    ),
    (
        "scale = 4\npatrols = 1\ntargets = [\"gate\", \"hall\"]",
        "[[2, -2, 0, 1073741825], [1, -1, 0, 2]]",
        6,
        "game refused 9 at type 1\n",
    ),
    (
        "scale = 4\npatrols = 1\ncolour = 1\ntargets = [\"gate\", \"hall\"]",
        "[[2, -2, 0, 4], [1, -1, 0, 2]]",
        6,
        "game refused 5 at document\n",
    ),
    (
        "scale = 4\npatrols = 1\ntargets = [\"gate\", \"gate\"]",
        "[[2, -2, 0, 4], [1, -1, 0, 2]]",
        6,
        "game refused 8 at target 2\n",
    ),
    (
        "scale = 4\ntargets = [\"gate\", \"hall\"]",
        "[[2, -2, 0, 4], [1, -1, 0, 2]]",
        6,
        "game refused 3 at document\n",
    ),
    (
        "targets = [\"a\"]\nresource = []\nschedule = [{name = \"s\", targets = [\"b\"]}]",
        "[[2, -2, 0, 4]]",
        6,
        "game refused 7 at schedule 1\n",
    ),
    (
        "targets = [\"a\", \"b\"]\nresource = []\nschedule = [{name = \"s\", targets = [\"a\"]}, {name = \"s\", targets = [\"b\"]}]",
        "[[0, -1, 0, 1], [0, -1, 0, 1]]",
        6,
        "game refused 8 at schedule 2\n",
    ),
];

/// Whether a run on a game of these bytes is refused so.
fn is_refused(
    alloc: Global,
    words: &[&str],
    game: &[u8],
    status: u8,
    err: &str,
) -> Result<bool, AllocError> {
    let expected = Answer {
        status,
        out: "",
        err,
    };
    answers(alloc, words, game, None, &expected)
}

#[test]
fn refuses_games(rt: HostRuntime) -> Result<(), AllocError> {
    for (keys, payoffs, status, line) in REFUSED {
        let game = game_text(rt.alloc(), keys, payoffs)?;
        let words = ["solve", "game.toml"];
        assert!(rt; is_refused(rt.alloc(), &words, game.as_bytes(), status, line)?);
    }
    Ok(())
}

#[test]
fn refuses_words_names_and_bytes(rt: HostRuntime) -> Result<(), AllocError> {
    let long = vec![in rt.alloc(); b'#'; 4_194_305]?;
    let cases: [(&[&str], &[u8], u8, &str); 12] = [
        (&[], b"", 2, "words refused\n"),
        (&["solve"], b"", 2, "words refused\n"),
        (&["game.toml"], b"", 2, "words refused\n"),
        (
            &["solve", "game.toml", "game.toml"],
            b"",
            2,
            "words refused\n",
        ),
        (
            &["solve", "game.toml", "--nodes", "01"],
            b"",
            2,
            "words refused\n",
        ),
        (
            &["solve", "game.toml", "--seed=3", "--seed=3"],
            b"",
            2,
            "words refused\n",
        ),
        (&["check", "game.toml"], b"", 2, "words refused\n"),
        (&["solve", "-"], b"", 2, "words refused\n"),
        (&["solve", "other.toml"], b"", 4, "game not read\n"),
        (
            &["solve", "game.toml"],
            b"\xff",
            6,
            "game refused 1 at document\n",
        ),
        (
            &["solve", "game.toml"],
            b"",
            6,
            "game refused 3 at document\n",
        ),
        (&["solve", "game.toml"], &long, 5, "game too long\n"),
    ];
    for (words, game, status, line) in cases {
        assert!(rt; is_refused(rt.alloc(), words, game, status, line)?);
    }
    Ok(())
}
