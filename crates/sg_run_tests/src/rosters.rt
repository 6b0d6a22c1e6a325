//! Rosters: what `roster` writes, refuses and leaves. The orders are those of `tools/roster_order.py`, and the reports were tried
//! by `tools/report_checker.py`.

use crate::reports::{MET_REPORT, TWO_ROWS};
use crate::scenes::{Answer, Failing, NO_PUT, answers, answers_on, shelf_of, sink_of, words_of};
use sg_cli::run;
use std::alloc::{AllocError, Global};
use std::test::*;

/// Three targets alike and two patrols.
const TWO_PATROLS: &str =
    "version = 1\nform = \"security\"\nscale = 1\npatrols = 2\ntargets = [\"t1\", \"t2\", \"t3\"]\n\n[[type]]\nname = \"thief\"\nprior = 1\npayoffs = [[0, -1, 0, 1], [0, -1, 0, 1], [0, -1, 0, 1]]\n";

/// Its report: each pair of targets on one of three tickets.
const PAIRS: &str =
    "patrol-report 1\ntickets 3 3\nt 1 1 2\nt 1 1 3\nt 1 2 3\nvalue -1 3\nwater 1 3 resources\nupper -1 3\nverdict optimal\nend\n";

/// More patrols than targets.
const THREE_PATROLS: &str =
    "version = 1\nform = \"security\"\nscale = 4\npatrols = 3\ntargets = [\"gate\", \"hall\"]\n\n[[type]]\nname = \"thief\"\nprior = 1\npayoffs = [[2, -2, 0, 4], [1, -1, 1, 2]]\n";

/// Its report, in which patrols stand idle.
const IDLE: &str =
    "patrol-report 1\ntickets 2 4\nt 3 1 2 0\nt 1 2 0 0\nvalue 1 1\nwater 1 1 target 2\nupper 1 1\nverdict optimal\nend\n";

/// Two targets and no patrol.
const NO_PATROL: &str =
    "version = 1\nform = \"security\"\nscale = 4\npatrols = 0\ntargets = [\"gate\", \"hall\"]\n\n[[type]]\nname = \"thief\"\nprior = 1\npayoffs = [[2, -2, 0, 4], [1, -1, 0, 2]]\n";

/// Its report.
const NOBODY: &str =
    "patrol-report 1\ntickets 1 1\nt 1\nvalue -2 1\nwater 4 1 resources\nupper -2 1\nverdict optimal\nend\n";

/// A report on two rows whose bounds don't meet.
const GAP: &str =
    "patrol-report 1\ntickets 1 1\nt 1 1\nvalue 2 1\nsplit 1 2\nopen\nplays 1 2 0\nopen\nupper 4 1\nverdict gap pivots 1 1 1 2\nend\n";

/// Two targets that are almost alike, one patrol, and no declared scale.
const ALMOST_ALIKE: &str =
    "version = 1\nform = \"security\"\npatrols = 1\ntargets = [\"a\", \"b\"]\n\n[[type]]\nname = \"thief\"\nprior = 1\npayoffs = [[0, -500001, 0, 500001], [0, -500000, 0, 500000]]\n";

/// Its report, of a million and one tickets.
const ONE_TOO_MANY: &str =
    "patrol-report 1\ntickets 2 1000001\nt 500001 1\nt 500000 2\nvalue -250000500000 1000001\nsplit 1 2\nopen\nplays 1000001 250002000002 1\nm 1 2 500001\nplays 1000001 250002000002 1\nm 1 1 500000\nupper -250000500000 1000001\nverdict optimal\nend\n";

/// Two targets alike, one patrol, and no declared scale.
const ALIKE: &str =
    "version = 1\nform = \"security\"\npatrols = 1\ntargets = [\"a\", \"b\"]\n\n[[type]]\nname = \"thief\"\nprior = 1\npayoffs = [[0, -1, 0, 1], [0, -1, 0, 1]]\n";

/// A report on them of just a million tickets, whose bounds don't meet.
const A_MILLION: &str =
    "patrol-report 1\ntickets 2 1000000\nt 500001 1\nt 499999 2\nvalue -500001 1000000\nsplit 1 2\nopen\nopen\nopen\nupper 0 1\nverdict gap nodes 1\nend\n";

/// The three days of the pairs by seed 7.
const THREE_DAYS: &str = "day,p1,p2\n1,t1,t2\n2,t2,t3\n3,t1,t3\n";

/// The game, the report, the words behind their names, and what is written.
struct Case(
    &'static str,
    &'static str,
    &'static [&'static str],
    &'static str,
);

/// Seeds: none, apart and joined, the least and the greatest.
const SEEDS: [Case; 5] = [
    Case(TWO_PATROLS, PAIRS, &["--seed", "7"], THREE_DAYS),
    Case(TWO_PATROLS, PAIRS, &["--seed=7"], THREE_DAYS),
    Case(
        TWO_PATROLS,
        PAIRS,
        &[],
        "day,p1,p2\n1,t1,t2\n2,t2,t3\n3,t1,t3\n",
    ),
    Case(
        TWO_PATROLS,
        PAIRS,
        &["--seed", "1"],
        "day,p1,p2\n1,t1,t3\n2,t2,t3\n3,t1,t2\n",
    ),
    Case(
        TWO_PATROLS,
        PAIRS,
        &["--seed", "18446744073709551615"],
        "day,p1,p2\n1,t2,t3\n2,t1,t2\n3,t1,t3\n",
    ),
];

/// Games and reports of each kind: idle patrols, none at all, rows of a matrix, and bounds that don't meet.
const KINDS: [Case; 4] = [
    Case(
        THREE_PATROLS,
        IDLE,
        &["--seed=0"],
        "day,p1,p2,p3\n1,hall,,\n2,gate,hall,\n3,gate,hall,\n4,gate,hall,\n",
    ),
    Case(NO_PATROL, NOBODY, &[], "day\n1\n"),
    Case(TWO_ROWS, MET_REPORT, &[], "day,row\n1,A\n2,B\n3,A\n"),
    Case(TWO_ROWS, GAP, &["--seed", "5"], "day,row\n1,A\n"),
];

/// The words of a roster, with these behind the names of its files.
fn roster_words<'a>(alloc: Global, behind: &[&'a str]) -> Result<Vec<&'a str>, AllocError> {
    let mut words = vec![in alloc; "roster", "game.toml", "report"]?;
    for word in behind {
        words.push(*word)?;
    }
    Ok(words)
}

/// Whether a roster is written so, and so again.
fn is_written(alloc: Global, case: &Case) -> Result<bool, AllocError> {
    let Case(game, report, behind, out) = case;
    let words = roster_words(alloc, behind)?;
    let expected = Answer {
        status: 0,
        out,
        err: "",
    };
    let first = answers(
        alloc,
        words.as_slice(),
        game.as_bytes(),
        Some(*report),
        &expected,
    )?;
    let again = answers(
        alloc,
        words.as_slice(),
        game.as_bytes(),
        Some(*report),
        &expected,
    )?;
    Ok(first && again)
}

/// Whether all are.
fn are_written(alloc: Global, cases: &[Case]) -> Result<bool, AllocError> {
    for case in cases {
        if !is_written(alloc, case)? {
            return Ok(false);
        }
    }
    Ok(true)
}

#[test]
fn writes_the_days_of_a_seed(rt: HostRuntime) -> Result<(), AllocError> {
    assert!(rt; are_written(rt.alloc(), &SEEDS)?);
    assert!(rt; are_written(rt.alloc(), &KINDS)?);
    Ok(())
}

/// The words behind `roster` that give no command.
static NO_COMMAND: [&[&str]; 14] = [
    &["game.toml", "report", "--seed=3", "--seed", "3"],
    &["game.toml", "report", "--seed", "-1"],
    &["game.toml", "report", "--seed=-1"],
    &["game.toml", "report", "--seed", "01"],
    &["game.toml", "report", "--seed="],
    &["game.toml", "report", "--seed"],
    &["game.toml", "report", "--see", "3"],
    &["game.toml", "report", "--seed", "18446744073709551616"],
    &["game.toml", "report", "--seed", "+3"],
    &["game.toml", "report", "--seed", "3x"],
    &["game.toml", "report", "--Seed=3"],
    &["game.toml", "report", "-s", "3"],
    &["game.toml", "--seed=3"],
    &["game.toml", "report", "7"],
];

/// Whether these words behind `roster` are refused.
fn are_no_command(alloc: Global, behind: &[&str]) -> Result<bool, AllocError> {
    let mut words = vec![in alloc; "roster"]?;
    for word in behind {
        words.push(*word)?;
    }
    let expected = Answer {
        status: 2,
        out: "",
        err: "words refused\n",
    };
    answers(
        alloc,
        words.as_slice(),
        TWO_PATROLS.as_bytes(),
        Some(PAIRS),
        &expected,
    )
}

#[test]
fn refuses_other_words(rt: HostRuntime) -> Result<(), AllocError> {
    for behind in NO_COMMAND {
        assert!(rt; are_no_command(rt.alloc(), behind)?);
    }
    Ok(())
}

/// The game, the report, the reads that fail, the status, and what is told.
struct Refused(
    &'static str,
    Option<&'static str>,
    &'static [u64],
    u8,
    &'static str,
);

/// What is refused, with nothing written.
const REFUSED: [Refused; 8] = [
    Refused(TWO_PATROLS, Some(PAIRS), &[1], 4, "game not read\n"),
    Refused(TWO_PATROLS, Some(PAIRS), &[2], 4, "report not read\n"),
    Refused(TWO_PATROLS, None, &[], 4, "report not read\n"),
    Refused(
        "version = 9\n",
        Some(PAIRS),
        &[],
        6,
        "game refused 2 at document\n",
    ),
    Refused(
        TWO_PATROLS,
        Some(""),
        &[],
        7,
        "report refused 2 at line 1\n",
    ),
    // A report of another game.
    Refused(TWO_PATROLS, Some(NOBODY), &[], 7, "no 1 at line 3\n"),
    Refused(ALIKE, Some(ONE_TOO_MANY), &[], 7, "no 3 at line 5\n"),
    // An accepted report with too many tickets.
    Refused(
        ALMOST_ALIKE,
        Some(ONE_TOO_MANY),
        &[],
        8,
        "roster too long 1000001\n",
    ),
];

/// Whether a roster is refused so.
fn is_refused(alloc: Global, case: &Refused) -> Result<bool, AllocError> {
    let Refused(game, report, reads, status, err) = case;
    let mut shelf = shelf_of(alloc, game.as_bytes(), *report, reads)?;
    let expected = Answer {
        status: *status,
        out: "",
        err,
    };
    answers_on(
        alloc,
        &["roster", "game.toml", "report"],
        &mut shelf,
        &NO_PUT,
        &expected,
    )
}

#[test]
fn refuses_rosters(rt: HostRuntime) -> Result<(), AllocError> {
    for case in &REFUSED {
        let Refused(_, _, _, _, err) = case;
        assert!(rt; is_refused(rt.alloc(), case)?, "{err}");
    }
    Ok(())
}

/// The put to the first output that fails after two bytes, and what was taken.
const CUT_SHORT: [(&[u64], &str); 4] = [
    (&[1], "da"),
    (&[2], "day,p1,p2\n1,"),
    (&[3], "day,p1,p2\n1,t1,t2\n2,"),
    (&[4], "day,p1,p2\n1,t1,t2\n2,t2,t3\n3,"),
];

/// Whether a roster ends so where these puts fail.
fn is_cut_short(alloc: Global, fails: &[u64], out: &str) -> Result<bool, AllocError> {
    let mut shelf = shelf_of(alloc, TWO_PATROLS.as_bytes(), Some(PAIRS), &[])?;
    let failing = Failing {
        out: (fails, 2),
        err: (&[], 0),
    };
    let expected = Answer {
        status: 9,
        out,
        err: "write failed\n",
    };
    answers_on(
        alloc,
        &["roster", "game.toml", "report", "--seed", "7"],
        &mut shelf,
        &failing,
        &expected,
    )
}

#[test]
fn leaves_a_front_where_a_put_fails(rt: HostRuntime) -> Result<(), AllocError> {
    for (fails, out) in CUT_SHORT {
        assert!(rt; is_cut_short(rt.alloc(), fails, out)?, "{out}");
    }
    Ok(())
}

/// How many lines the text has.
fn line_count(text: &[u8]) -> usize {
    text.iter().filter(|byte| **byte == b'\n').count()
}

/// Whether a million days are written, the first of them by hand.
fn writes_a_million_days(alloc: Global) -> Result<bool, AllocError> {
    let words = words_of(alloc, &["roster", "game.toml", "report"])?;
    let mut shelf = shelf_of(alloc, ALIKE.as_bytes(), Some(A_MILLION), &[])?;
    let mut out = sink_of(alloc, &[], 0)?;
    let mut err = sink_of(alloc, &[], 0)?;
    let status = run(alloc, &words, &mut shelf, &mut out, &mut err);
    let first =
        b"day,p1\n1,a\n2,a\n3,b\n4,a\n5,a\n6,a\n7,b\n8,a\n9,a\n10,a\n11,a\n12,b\n".as_slice();
    let last = b"999996,b\n999997,b\n999998,a\n999999,a\n1000000,b\n".as_slice();
    Ok(
        status == 0
            && out.bytes().starts_with(first)
            && out.bytes().ends_with(last)
            && line_count(out.bytes()) == 1_000_001
            && err.bytes().is_empty(),
    )
}

#[test]
fn writes_as_many_days_as_there_may_be(rt: HostRuntime) -> Result<(), AllocError> {
    assert!(rt; writes_a_million_days(rt.alloc())?);
    Ok(())
}

/// A report on eight blocks of five targets alike, each with a resource that covers one or two of them.
fn blocks_report(alloc: Global) -> Result<String, AllocError> {
    let mut text = String::from_str(alloc, "patrol-report 1\ntickets 5 5\n")?;
    for c in [6u8, 9, 10, 13, 15] {
        let line = format!(in alloc; "t 1 {c} {c} {c} {c} {c} {c} {c} {c}\n")?;
        text.push_str(&line)?;
    }
    text.push_str("value -3 5\nsplit 1 40\nopen\n")?;
    for a in 0..40u8 {
        text.push_str("plays 5 7 4\n")?;
        push_marks(alloc, &mut text, a)?;
    }
    text.push_str("upper -3 5\nverdict optimal\nend\n")?;
    Ok(text)
}

/// The marks of the other targets of a target's block; targets count from 0.
fn push_marks(alloc: Global, text: &mut String, a: u8) -> Result<(), AllocError> {
    for b in 0..40u8 {
        if b / 5 == a / 5 && b != a {
            let line = format!(in alloc; "m 1 {} 1\n", b.saturating_add(1))?;
            text.push_str(&line)?;
        }
    }
    Ok(())
}

/// The days of its five tickets by seed 3.
const BLOCK_DAYS: &str =
    "day,r1,r2,r3,r4,r5,r6,r7,r8\n1,s9,s24,s39,s54,s69,s84,s99,s114\n2,s6,s21,s36,s51,s66,s81,s96,s111\n3,s10,s25,s40,s55,s70,s85,s100,s115\n4,s15,s30,s45,s60,s75,s90,s105,s120\n5,s13,s28,s43,s58,s73,s88,s103,s118\n";

/// Whether a game with 16^8 plays, made by the program, gets the roster of the report.
fn rosters_blocks(alloc: Global) -> Result<bool, AllocError> {
    let words = words_of(alloc, &["make", "blocks-8-5-1", "7"])?;
    let mut shelf = shelf_of(alloc, b"".as_slice(), None, &[])?;
    let mut made = sink_of(alloc, &[], 0)?;
    let mut err = sink_of(alloc, &[], 0)?;
    let status = run(alloc, &words, &mut shelf, &mut made, &mut err);
    let report = blocks_report(alloc)?;
    let words = ["roster", "game.toml", "report", "--seed", "3"];
    let expected = Answer {
        status: 0,
        out: BLOCK_DAYS,
        err: "",
    };
    Ok(
        status == 0
            && answers(
                alloc,
                &words,
                made.bytes(),
                Some(report.as_str()),
                &expected,
            )?,
    )
}

#[test]
fn writes_days_of_a_game_with_many_plays(rt: HostRuntime) -> Result<(), AllocError> {
    assert!(rt; rosters_blocks(rt.alloc())?);
    Ok(())
}
