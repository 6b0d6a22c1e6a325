//! Games without a scale: what `solve` answers by a search, and that `check` accepts it.

use crate::scenes::{Answer, answers, shelf_of, sink_of, words_of};
use sg_cli::run;
use std::alloc::{AllocError, Global};
use std::test::*;

/// One attacker with two actions in matrix form. Its best commitment is two parts of `A` and one of `B`, against which both actions are worth
/// the same to the attacker, who takes `y`.
const ONE_TYPE: &str =
    "version = 1\nform = \"matrix\"\nrows = [\"A\", \"B\"]\n\n[[type]]\nname = \"thief\"\nprior = 1\nactions = [\"x\", \"y\"]\nleader = [[2, 4], [1, 3]]\nfollower = [[1, 0], [0, 2]]\n";

/// The same with a second type as likely, which prefers the other action of each row.
const TWO_TYPES: &str =
    "version = 1\nform = \"matrix\"\nrows = [\"A\", \"B\"]\n\n[[type]]\nname = \"thief\"\nprior = 1\nactions = [\"x\", \"y\"]\nleader = [[2, 4], [1, 3]]\nfollower = [[1, 0], [0, 2]]\n\n[[type]]\nname = \"vandal\"\nprior = 1\nactions = [\"x\", \"y\"]\nleader = [[2, 4], [1, 3]]\nfollower = [[0, 1], [2, 0]]\n";

/// Two resources, each with two schedules of two targets: no play covers all four targets.
const CROSSED: &str =
    "version = 1\nform = \"security\"\ntargets = [\"t1\", \"t2\", \"t3\", \"t4\"]\n\n[[schedule]]\nname = \"s1\"\ntargets = [\"t1\", \"t2\"]\n\n[[schedule]]\nname = \"s2\"\ntargets = [\"t3\", \"t4\"]\n\n[[schedule]]\nname = \"s3\"\ntargets = [\"t1\", \"t3\"]\n\n[[schedule]]\nname = \"s4\"\ntargets = [\"t2\", \"t4\"]\n\n[[resource]]\nname = \"r1\"\nschedules = [\"s1\", \"s2\"]\n\n[[resource]]\nname = \"r2\"\nschedules = [\"s3\", \"s4\"]\n\n[[type]]\nname = \"thief\"\nprior = 1\npayoffs = [[0, -1, 0, 1], [0, -1, 0, 1], [0, -1, 0, 1], [0, -1, 0, 1]]\n";

/// One resource with two schedules that share a target.
const SHARED: &str =
    "version = 1\nform = \"security\"\ntargets = [\"t1\", \"t2\", \"t3\"]\n\n[[schedule]]\nname = \"s1\"\ntargets = [\"t1\", \"t2\"]\n\n[[schedule]]\nname = \"s2\"\ntargets = [\"t2\", \"t3\"]\n\n[[resource]]\nname = \"r1\"\nschedules = [\"s1\", \"s2\"]\n\n[[type]]\nname = \"thief\"\nprior = 1\npayoffs = [[0, -1, 0, 1], [0, -1, 0, 1], [0, -1, 0, 1]]\n";

/// Thirteen resources with one schedule each: 8,192 plays.
const MANY_PLAYS: &str =
    "version = 1\nform = \"security\"\npatrols = 13\ntargets = [\"t1\"]\n\n[[type]]\nname = \"thief\"\nprior = 1\npayoffs = [[1, -1, 0, 1]]\n";

/// The whole report on the game of one type.
const ONE_TYPE_REPORT: &str =
    "patrol-report 1\ntickets 2 3\nt 2 1\nt 1 2\nvalue 11 3\nsplit 1 2\nopen\nplays 1 2 0\nplays 3 11 1\nm 1 1 1\nupper 11 3\nverdict optimal\nend\n";

/// The whole report on the game of two types.
const TWO_TYPES_REPORT: &str =
    "patrol-report 1\ntickets 2 3\nt 2 1\nt 1 2\nvalue 11 3\ncap 2 proved 4 2\nplays 3 5 1\nm 2 2 1\nplays 1 4 0\nsplit 1 2\nopen\nplays 1 2 0\nsplit 2 2\nplays 3 11 1\nm 1 1 1\nplays 3 16 1\nm 2 2 2\nplays 3 22 1\nm 1 1 2\nupper 11 3\nverdict optimal\nend\n";

/// The report on the game of two types after one node, and the one on the game of one type where no program may make a second move.
const ONE_NODE_REPORT: &str =
    "patrol-report 1\ntickets 1 1\nt 1 1\nvalue 3 1\ncap 2 plain 4\nsplit 1 2\nopen\nplays 1 2 0\nopen\nupper 4 1\nverdict gap nodes 1\nend\n";

const ONE_MOVE_REPORT: &str =
    "patrol-report 1\ntickets 1 1\nt 1 1\nvalue 2 1\nsplit 1 2\nopen\nplays 1 2 0\nopen\nupper 4 1\nverdict gap pivots 1 1 1 2\nend\n";

/// What a run is to write: the options behind `solve game.toml`, the game, the status and the whole report.
const SEARCHED: [(&[&str], &str, u8, &str); 8] = [
    (&[], ONE_TYPE, 0, ONE_TYPE_REPORT),
    (&[], TWO_TYPES, 0, TWO_TYPES_REPORT),
    (&["--nodes", "1"], TWO_TYPES, 10, ONE_NODE_REPORT),
    (&["--nodes", "10"], TWO_TYPES, 0, TWO_TYPES_REPORT),
    // Six moves are enough for each node, two are what this game needs.
    (&["--pivots", "6"], ONE_TYPE, 0, ONE_TYPE_REPORT),
    (&["--pivots", "2"], ONE_TYPE, 0, ONE_TYPE_REPORT),
    (&["--pivots", "1"], ONE_TYPE, 10, ONE_MOVE_REPORT),
    (&["--family=listed"], ONE_TYPE, 0, ONE_TYPE_REPORT),
];

/// What a run is to begin with and to end with, where its whole report is longer: the options, the game, the status, the front and the end.
const FRONTS: [(&[&str], &str, u8, &str, &str); 3] = [
    (
        &[],
        CROSSED,
        0,
        "patrol-report 1\ntickets 4 4\nt 1 1 1\nt 1 1 2\nt 1 2 1\nt 1 2 2\nvalue -1 4\n",
        "upper -1 4\nverdict optimal\nend\n",
    ),
    (
        &[],
        SHARED,
        0,
        "patrol-report 1\ntickets 2 2\nt 1 1\nt 1 2\nvalue -1 2\n",
        "upper -1 2\nverdict optimal\nend\n",
    ),
    // One look finds the column of the idle play, and more are needed behind it.
    (
        &["--looks", "1"],
        SHARED,
        10,
        "patrol-report 1\ntickets 1 1\nt 1 0\nvalue -1 1\n",
        "upper 0 1\nverdict gap looks 1 1 1 1 1\nend\n",
    ),
];

/// Options that name the lanes and the order of a search.
const ORDERS: [&[&str]; 8] = [
    &["--lanes", "1"],
    &["--lanes", "2"],
    &["--lanes", "8"],
    &["--order", "best"],
    &["--order", "best", "--lanes", "8"],
    &["--order", "seeded", "--seed", "1"],
    &["--order", "seeded", "--seed", "2"],
    &["--order", "seeded", "--lanes", "2", "--seed", "2"],
];

/// Games and the values of their best commitments, as `tools/exact_solver.py` computes them: it solves one program for each list of actions, over
/// fractions, and has no code in common with the program.
const VALUED: [(&str, &str); 12] = [
    // Types of different priors.
    (
        "version = 1\nform = \"matrix\"\nrows = [\"A\", \"B\"]\n\n[[type]]\nname = \"thief\"\nprior = 3\nactions = [\"x\", \"y\"]\nleader = [[2, 4], [1, 3]]\nfollower = [[1, 0], [0, 2]]\n\n[[type]]\nname = \"vandal\"\nprior = 1\nactions = [\"x\", \"y\"]\nleader = [[2, 4], [1, 3]]\nfollower = [[0, 1], [2, 0]]\n",
        "11 3",
    ),
    // Ties across types: both are indifferent everywhere.
    (
        "version = 1\nform = \"matrix\"\nrows = [\"A\", \"B\"]\n\n[[type]]\nname = \"thief\"\nprior = 1\nactions = [\"x\", \"y\"]\nleader = [[1, 0], [0, 1]]\nfollower = [[3, 3], [3, 3]]\n\n[[type]]\nname = \"vandal\"\nprior = 1\nactions = [\"x\", \"y\"]\nleader = [[0, 2], [2, 0]]\nfollower = [[1, 1], [1, 1]]\n",
        "3 2",
    ),
    // An action that is never best, and one that is dominated.
    (
        "version = 1\nform = \"matrix\"\nrows = [\"A\", \"B\"]\n\n[[type]]\nname = \"thief\"\nprior = 1\nactions = [\"x\", \"y\", \"z\"]\nleader = [[9, 1, 2], [9, 3, 0]]\nfollower = [[0, 2, 3], [0, 4, 1]]\n",
        "3 1",
    ),
    // A row alone: all regions but one are empty.
    (
        "version = 1\nform = \"matrix\"\nrows = [\"A\"]\n\n[[type]]\nname = \"thief\"\nprior = 2\nactions = [\"x\", \"y\", \"z\"]\nleader = [[1, 5, 7]]\nfollower = [[2, 3, 3]]\n\n[[type]]\nname = \"vandal\"\nprior = 1\nactions = [\"x\", \"y\"]\nleader = [[4, -1]]\nfollower = [[0, 1]]\n",
        "13 3",
    ),
    // A type with one action.
    (
        "version = 1\nform = \"matrix\"\nrows = [\"A\", \"B\", \"C\"]\n\n[[type]]\nname = \"thief\"\nprior = 1\nactions = [\"x\"]\nleader = [[1], [2], [-1]]\nfollower = [[0], [0], [0]]\n\n[[type]]\nname = \"vandal\"\nprior = 2\nactions = [\"x\", \"y\"]\nleader = [[0, 1], [-1, 3], [5, -2]]\nfollower = [[1, 0], [0, 1], [2, 2]]\n",
        "3 1",
    ),
    // Payoffs below 0 everywhere.
    (
        "version = 1\nform = \"matrix\"\nrows = [\"A\", \"B\", \"C\"]\n\n[[type]]\nname = \"thief\"\nprior = 1\nactions = [\"x\", \"y\", \"z\"]\nleader = [[-5, -2, -9], [-3, -8, -4], [-7, -1, -6]]\nfollower = [[-1, -4, -2], [-6, -3, -5], [-2, -9, -1]]\n",
        "-4 1",
    ),
    // Three types.
    (
        "version = 1\nform = \"matrix\"\nrows = [\"A\", \"B\", \"C\"]\n\n[[type]]\nname = \"a\"\nprior = 1\nactions = [\"x\", \"y\"]\nleader = [[3, 0], [1, 2], [0, 4]]\nfollower = [[0, 1], [1, 0], [2, 1]]\n\n[[type]]\nname = \"b\"\nprior = 2\nactions = [\"x\", \"y\"]\nleader = [[1, 1], [0, 5], [2, 0]]\nfollower = [[1, 2], [3, 0], [0, 1]]\n\n[[type]]\nname = \"c\"\nprior = 4\nactions = [\"x\", \"y\", \"z\"]\nleader = [[0, 2, 1], [3, 1, 0], [1, 0, 2]]\nfollower = [[2, 0, 1], [0, 1, 2], [1, 2, 0]]\n",
        "37 28",
    ),
    // Patrols without a scale.
    (
        "version = 1\nform = \"security\"\npatrols = 2\ntargets = [\"t1\", \"t2\", \"t3\"]\n\n[[type]]\nname = \"thief\"\nprior = 1\npayoffs = [[1, -3, -1, 2], [0, -2, 0, 3], [2, -1, -2, 1]]\n",
        "0 1",
    ),
    // No resource: one play.
    (
        "version = 1\nform = \"security\"\ntargets = [\"t1\", \"t2\"]\nschedule = []\nresource = []\n\n[[type]]\nname = \"thief\"\nprior = 1\npayoffs = [[2, -2, 0, 4], [1, -1, 0, 2]]\n\n[[type]]\nname = \"vandal\"\nprior = 3\npayoffs = [[2, -5, 0, 1], [1, -1, 0, 1]]\n",
        "-5 4",
    ),
    // Covering hurts the defender and helps the attacker.
    (
        "version = 1\nform = \"security\"\npatrols = 1\ntargets = [\"t1\", \"t2\"]\n\n[[type]]\nname = \"thief\"\nprior = 1\npayoffs = [[-3, 2, 5, 1], [0, 1, 2, 2]]\n",
        "1 1",
    ),
    // Two types over schedules that overlap.
    (
        "version = 1\nform = \"security\"\ntargets = [\"t1\", \"t2\", \"t3\"]\n\n[[schedule]]\nname = \"s1\"\ntargets = [\"t1\", \"t2\"]\n\n[[schedule]]\nname = \"s2\"\ntargets = [\"t2\", \"t3\"]\n\n[[schedule]]\nname = \"s3\"\ntargets = [\"t3\"]\n\n[[resource]]\nname = \"r1\"\nschedules = [\"s1\", \"s2\"]\n\n[[resource]]\nname = \"r2\"\nschedules = [\"s3\"]\n\n\n[[type]]\nname = \"thief\"\nprior = 2\npayoffs = [[0, -4, -1, 3], [1, -2, 0, 2], [0, -3, -2, 4]]\n\n[[type]]\nname = \"vandal\"\nprior = 1\npayoffs = [[0, -1, 0, 1], [0, -6, -3, 5], [0, -1, 0, 2]]\n",
        "2 3",
    ),
    // The greatest payoffs.
    (
        "version = 1\nform = \"matrix\"\nrows = [\"A\", \"B\"]\n\n[[type]]\nname = \"thief\"\nprior = 1\nactions = [\"x\", \"y\"]\nleader = [[-1073741824, 1073741824], [1073741823, -1073741824]]\nfollower = [[1073741824, -1073741824], [-1073741824, 1073741823]]\n",
        "-1073741824 4294967295",
    ),
];

/// `solve game.toml` and the options.
fn solve_words(alloc: Global, options: &[&str]) -> Result<Vec<String>, AllocError> {
    let mut words = words_of(alloc, &["solve", "game.toml"])?;
    for option in options {
        words.push(String::from_str(alloc, option)?)?;
    }
    Ok(words)
}

/// What a run of these words over the game writes, where it ends with this status and tells nothing.
fn written(
    alloc: Global,
    words: &Vec<String>,
    game: &str,
    status: u8,
) -> Result<Option<String>, AllocError> {
    let mut shelf = shelf_of(alloc, game.as_bytes(), None, &[])?;
    let mut out = sink_of(alloc, &[], 0)?;
    let mut err = sink_of(alloc, &[], 0)?;
    let ended = run(alloc, words, &mut shelf, &mut out, &mut err);
    if ended != status || !err.bytes().is_empty() {
        return Ok(None);
    }
    match std::str::from_utf8(out.bytes()) {
        Ok(text) => Ok(Some(String::from_str(alloc, text)?)),
        Err(_) => Ok(None),
    }
}

/// Whether `check` accepts this report on the game, with this status.
fn is_accepted(alloc: Global, game: &str, report: &str, status: u8) -> Result<bool, AllocError> {
    let words = words_of(alloc, &["check", "game.toml", "report"])?;
    let mut shelf = shelf_of(alloc, game.as_bytes(), Some(report), &[])?;
    let mut out = sink_of(alloc, &[], 0)?;
    let mut err = sink_of(alloc, &[], 0)?;
    let ended = run(alloc, &words, &mut shelf, &mut out, &mut err);
    let yes: &[u8] = if status == 0 {
        b"yes optimal "
    } else {
        b"yes gap "
    };
    Ok(ended == status && out.bytes().starts_with(yes) && err.bytes().is_empty())
}

#[test]
fn searches_games_without_a_scale(rt: HostRuntime) -> Result<(), AllocError> {
    for (options, game, status, report) in SEARCHED {
        let words = solve_words(rt.alloc(), options)?;
        match written(rt.alloc(), &words, game, status)? {
            Some(text) => {
                assert_eq!(rt; text.as_str(), report);
                assert!(rt; is_accepted(rt.alloc(), game, report, status)?);
            }
            None => assert!(rt; false),
        }
    }
    Ok(())
}

#[test]
fn searches_schedules(rt: HostRuntime) -> Result<(), AllocError> {
    for (options, game, status, front, end) in FRONTS {
        let words = solve_words(rt.alloc(), options)?;
        match written(rt.alloc(), &words, game, status)? {
            Some(text) => {
                assert!(rt; text.starts_with(front));
                assert!(rt; text.ends_with(end));
                assert!(rt; is_accepted(rt.alloc(), game, text.as_str(), status)?);
            }
            None => assert!(rt; false),
        }
    }
    Ok(())
}

#[test]
fn each_order_comes_to_the_value(rt: HostRuntime) -> Result<(), AllocError> {
    for options in ORDERS {
        let words = solve_words(rt.alloc(), options)?;
        match written(rt.alloc(), &words, TWO_TYPES, 0)? {
            Some(text) => {
                assert!(rt; text.contains("\nvalue 11 3\n"));
                assert!(rt; text.ends_with("\nupper 11 3\nverdict optimal\nend\n"));
                assert!(rt; is_accepted(rt.alloc(), TWO_TYPES, text.as_str(), 0)?);
            }
            None => assert!(rt; false),
        }
    }
    Ok(())
}

#[test]
fn values_are_those_of_another_solver(rt: HostRuntime) -> Result<(), AllocError> {
    for (game, value) in VALUED {
        let words = solve_words(rt.alloc(), &[])?;
        let value_line = format!(in rt.alloc(); "\nvalue {value}\n")?;
        let end = format!(in rt.alloc(); "\nupper {value}\nverdict optimal\nend\n")?;
        match written(rt.alloc(), &words, game, 0)? {
            Some(text) => {
                assert!(rt; text.contains(value_line.as_str()));
                assert!(rt; text.ends_with(end.as_str()));
                assert!(rt; is_accepted(rt.alloc(), game, text.as_str(), 0)?);
            }
            None => assert!(rt; false),
        }
    }
    Ok(())
}

#[test]
fn more_plays_are_not_listed_yet(rt: HostRuntime) -> Result<(), AllocError> {
    let expected = Answer {
        status: 3,
        out: "",
        err: "not yet\n",
    };
    assert!(rt;
        answers(
            rt.alloc(),
            &["solve", "game.toml"],
            MANY_PLAYS.as_bytes(),
            None,
            &expected
        )?
    );
    Ok(())
}
