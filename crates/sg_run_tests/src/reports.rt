//! Games with reports on them: what `check` and `show` answer.

use crate::scenes::{Answer, answers};
use std::alloc::{AllocError, Global};
use std::test::*;

/// Two rows, two actions. The best commitment plays the first row twice and the second once.
pub(crate) const TWO_ROWS: &str =
    "version = 1\nform = \"matrix\"\nrows = [\"A\", \"B\"]\n\n[[type]]\nname = \"thief\"\nprior = 1\nactions = [\"x\", \"y\"]\nleader = [[2, 4], [1, 3]]\nfollower = [[1, 0], [0, 2]]\n";

/// The same with a second type.
const TWO_TYPES: &str =
    "version = 1\nform = \"matrix\"\nrows = [\"A\", \"B\"]\n\n[[type]]\nname = \"thief\"\nprior = 1\nactions = [\"x\", \"y\"]\nleader = [[2, 4], [1, 3]]\nfollower = [[1, 0], [0, 2]]\n\n[[type]]\nname = \"spy\"\nprior = 1\nactions = [\"x\", \"y\"]\nleader = [[2, 4], [1, 3]]\nfollower = [[0, 1], [2, 0]]\n";

/// One patrol at two targets.
const GATE_AND_HALL: &str =
    "version = 1\nform = \"security\"\nscale = 4\npatrols = 1\ntargets = [\"gate\", \"hall\"]\n\n[[type]]\nname = \"thief\"\nprior = 1\npayoffs = [[2, -2, 0, 4], [1, -1, 0, 2]]\n";

/// The lines of a report on two rows, whose bounds meet.
const MET: [&str; 13] = [
    "patrol-report 1\n",
    "tickets 2 3\n",
    "t 2 1\n",
    "t 1 2\n",
    "value 11 3\n",
    "split 1 2\n",
    "open\n",
    "plays 1 2 0\n",
    "plays 3 11 1\n",
    "m 1 1 1\n",
    "upper 11 3\n",
    "verdict optimal\n",
    "end\n",
];

/// The same as one text.
pub(crate) const MET_REPORT: &str =
    "patrol-report 1\ntickets 2 3\nt 2 1\nt 1 2\nvalue 11 3\nsplit 1 2\nopen\nplays 1 2 0\nplays 3 11 1\nm 1 1 1\nupper 11 3\nverdict optimal\nend\n";

/// A report on two rows whose bounds don't meet.
const GAP: &str =
    "patrol-report 1\ntickets 1 1\nt 1 1\nvalue 2 1\nsplit 1 2\nopen\nplays 1 2 0\nopen\nupper 4 1\nverdict gap pivots 1 1 1 2\nend\n";

/// A line by its number from 1, and what stands there instead.
type Edit = (usize, &'static str);

/// No edit.
const NONE: Edit = (0, "");

/// The line of that number, after the edits.
fn line_at<'a>(number: usize, line: &'a str, edits: &'a [Edit]) -> &'a str {
    for (at, other) in edits {
        if *at == number {
            return other;
        }
    }
    line
}

/// The report whose bounds meet, after the edits.
fn edited(alloc: Global, edits: &[Edit]) -> Result<String, AllocError> {
    let mut text = String::new(alloc);
    let mut number = 0usize;
    for line in MET {
        number = number.saturating_add(1);
        text.push_str(line_at(number, line, edits))?;
    }
    Ok(text)
}

/// Edits of the report whose bounds meet: the status, and what the two outputs take.
const EDITS: [(Edit, Edit, u8, &str, &str); 23] = [
    (NONE, NONE, 0, "yes optimal 11 3\n", ""),
    // The tests of a report.
    ((10, "m 1 1 2\n"), NONE, 7, "", "no 6 at line 9\n"),
    ((6, "split 1 1\n"), (8, ""), 7, "", "no 5 at line 6\n"),
    ((4, "t 1 3\n"), NONE, 7, "", "no 1 at line 4\n"),
    ((2, "tickets 2 4\n"), NONE, 7, "", "no 2 at line 2\n"),
    ((5, "value 4 1\n"), NONE, 7, "", "no 3 at line 5\n"),
    (
        (9, "plays 170141183460469231731687303715884105727 11 1\n"),
        NONE,
        7,
        "",
        "no 9 at line 9\n",
    ),
    ((10, "m 1 2 1\n"), NONE, 7, "", "no 6 at line 9\n"),
    ((9, "plays 3 10 1\n"), NONE, 7, "", "no 6 at line 9\n"),
    (
        (8, "water 4 3 resources\n"),
        NONE,
        7,
        "",
        "no 6 at line 8\n",
    ),
    ((11, "upper 4 1\n"), NONE, 7, "", "no 7 at line 11\n"),
    (
        (12, "verdict gap nodes 5\n"),
        NONE,
        7,
        "",
        "no 8 at line 12\n",
    ),
    // A fact of the coverage table, which no game in matrix form has.
    ((8, "cover 1 2 0\n"), NONE, 7, "", "no 6 at line 8\n"),
    // Texts that are no report.
    ((8, ""), NONE, 7, "", "report refused 3 at line 10\n"),
    (
        (1, "patrol-report 9\n"),
        NONE,
        7,
        "",
        "report refused 1 at line 1\n",
    ),
    ((13, "end"), NONE, 7, "", "report refused 2 at line 13\n"),
    (
        (10, "m 1 1 -1\n"),
        NONE,
        7,
        "",
        "report refused 6 at line 10\n",
    ),
    (
        (10, "m 1 1 01\n"),
        NONE,
        7,
        "",
        "report refused 5 at line 10\n",
    ),
    (
        (10, "m 1 1\n"),
        NONE,
        7,
        "",
        "report refused 4 at line 10\n",
    ),
    (
        (5, "value 22 6\n"),
        NONE,
        7,
        "",
        "report refused 6 at line 5\n",
    ),
    (
        (3, "t 1 2\n"),
        (4, "t 2 1\n"),
        7,
        "",
        "report refused 7 at line 4\n",
    ),
    (
        (3, "t 170141183460469231731687303715884105728 1\n"),
        NONE,
        7,
        "",
        "report refused 6 at line 3\n",
    ),
    (
        (13, "end\nx\n"),
        NONE,
        7,
        "",
        "report refused 9 at line 14\n",
    ),
];

/// Whether a command on a game and a report answers so.
fn tells(
    alloc: Global,
    command: &str,
    game: &str,
    report: &str,
    expected: &Answer,
) -> Result<bool, AllocError> {
    answers(
        alloc,
        &[command, "game.toml", "report"],
        game.as_bytes(),
        Some(report),
        expected,
    )
}

#[test]
fn checks_edited_reports(rt: HostRuntime) -> Result<(), AllocError> {
    for (first, second, status, out, err) in EDITS {
        let report = edited(rt.alloc(), &[first, second])?;
        let expected = Answer { status, out, err };
        assert!(rt;
            tells(rt.alloc(), "check", TWO_ROWS, &report, &expected)?,
            "{out}{err}"
        );
    }
    Ok(())
}

/// Whole texts: the command, the game, the text, the status, and what the two outputs take.
const TEXTS: [(&str, &str, &str, u8, &str, &str); 11] = [
    ("check", TWO_ROWS, GAP, 10, "yes gap 2 1 4 1\n", ""),
    ("check", TWO_ROWS, "", 7, "", "report refused 2 at line 1\n"),
    (
        "check",
        TWO_ROWS,
        "patrol-report 1\ntickets 2 3\nt 2 1\nt 1 2\nvalue 11 3\nsplit 1 2\nopen\nplays 1 2 0\nplays 3 11 1\n",
        7,
        "",
        "report refused 2 at line 10\n",
    ),
    (
        "check",
        TWO_ROWS,
        "patrol-report 1\ntickets 2 3\nt 2 1\nt 1 2\nvalue 11 3\nsplit 1 1\nopen\nsplit 1 1\nopen\nsplit 1 1\nopen\nsplit 1 1\nopen\nsplit 1 1\nopen\nsplit 1 1\nopen\nsplit 1 1\nopen\nsplit 1 1\nopen\nsplit 1 1\nopen\n",
        7,
        "",
        "report refused 8 at line 22\n",
    ),
    // A game that is refused, before the report is read.
    (
        "check",
        "version = 9\n",
        "",
        6,
        "",
        "game refused 2 at document\n",
    ),
    // The text is read whole for its form before it is tested.
    (
        "check",
        TWO_ROWS,
        "patrol-report 1\ntickets 2 4\nt 2 1\nt 1 2\nvalue 11 3\nsplit 1 2\nopen\ncover 1 2 0\nplays 3 11 1\nm 1 1 1\nupper 11 3\nverdict optimal\nend",
        7,
        "",
        "report refused 2 at line 13\n",
    ),
    // One is shown, also where its bounds don't meet.
    (
        "show",
        TWO_ROWS,
        MET_REPORT,
        0,
        "value 11/3\nupper 11/3\ntickets 3\nrow A 2\nrow B 1\ntype thief attacks y\n",
        "",
    ),
    (
        "show",
        TWO_ROWS,
        GAP,
        0,
        "value 2/1\nupper 4/1\ntickets 1\nrow A 1\nrow B 0\ntype thief attacks x\n",
        "",
    ),
    (
        "show",
        GATE_AND_HALL,
        "patrol-report 1\ntickets 2 3\nt 2 1\nt 1 2\nvalue 2 3\nwater 4 3 resources\nupper 2 3\nverdict optimal\nend\n",
        0,
        "value 2/3\nupper 2/3\ntickets 3\ntarget gate 2\ntarget hall 1\ntype thief attacks gate\n",
        "",
    ),
    // One that is not accepted is not shown.
    (
        "show",
        TWO_ROWS,
        "patrol-report 1\ntickets 2 3\nt 2 1\nt 1 2\nvalue 4 1\nsplit 1 2\nopen\nplays 1 2 0\nplays 3 11 1\nm 1 1 1\nupper 11 3\nverdict optimal\nend\n",
        7,
        "",
        "no 3 at line 5\n",
    ),
    ("show", TWO_TYPES, MET_REPORT, 7, "", "no 4 at line 6\n"),
];

#[test]
fn checks_and_shows_whole_texts(rt: HostRuntime) -> Result<(), AllocError> {
    for (command, game, report, status, out, err) in TEXTS {
        let expected = Answer { status, out, err };
        assert!(rt;
            tells(rt.alloc(), command, game, report, &expected)?,
            "{out}{err}"
        );
    }
    Ok(())
}

/// The lines of a report on two rows and two types, with a proved cap, a split below the first one, and bounds that meet.
const NESTED: [&str; 22] = [
    "patrol-report 1\n",
    "tickets 2 3\n",
    "t 2 1\n",
    "t 1 2\n",
    "value 11 3\n",
    "cap 2 proved 4 2\n",
    "plays 3 5 1\n",
    "m 2 2 1\n",
    "plays 1 4 0\n",
    "split 1 2\n",
    "open\n",
    "plays 1 2 0\n",
    "split 2 2\n",
    "plays 3 11 1\n",
    "m 1 1 1\n",
    "plays 3 16 1\n",
    "m 2 2 2\n",
    "plays 3 22 1\n",
    "m 1 1 2\n",
    "upper 11 3\n",
    "verdict optimal\n",
    "end\n",
];

/// So many of its lines, after the edits.
fn nested(alloc: Global, edits: &[Edit], count: usize) -> Result<String, AllocError> {
    let mut text = String::new(alloc);
    let mut number = 0usize;
    for line in NESTED {
        number = number.saturating_add(1);
        if number <= count {
            text.push_str(line_at(number, line, edits))?;
        }
    }
    Ok(text)
}

/// Commands on it: the command, the game, the edit, how many lines are left, the status, and what the two outputs take.
static NESTED_RUNS: [(&str, &str, Edit, usize, u8, &str, &str); 7] = [
    ("check", TWO_TYPES, NONE, 22, 0, "yes optimal 11 3\n", ""),
    (
        "show",
        TWO_TYPES,
        NONE,
        22,
        0,
        "value 11/3\nupper 11/3\ntickets 3\nrow A 2\nrow B 1\ntype thief attacks y\ntype spy attacks y\n",
        "",
    ),
    (
        "check",
        TWO_TYPES,
        (19, "m 1 1 1\n"),
        22,
        7,
        "",
        "no 6 at line 18\n",
    ),
    (
        "show",
        TWO_TYPES,
        (19, "m 1 1 1\n"),
        22,
        7,
        "",
        "no 6 at line 18\n",
    ),
    ("check", TWO_ROWS, NONE, 22, 7, "", "no 4 at line 6\n"),
    (
        "check",
        TWO_TYPES,
        NONE,
        13,
        7,
        "",
        "report refused 2 at line 14\n",
    ),
    (
        "check",
        TWO_TYPES,
        (22, "end\nmore\n"),
        22,
        7,
        "",
        "report refused 9 at line 23\n",
    ),
];

#[test]
fn checks_and_shows_reports_of_two_types(rt: HostRuntime) -> Result<(), AllocError> {
    for (command, game, edit, count, status, out, err) in &NESTED_RUNS {
        let report = nested(rt.alloc(), &[*edit], *count)?;
        let expected = Answer {
            status: *status,
            out,
            err,
        };
        assert!(rt;
            tells(rt.alloc(), command, game, &report, &expected)?,
            "{out}{err}"
        );
    }
    Ok(())
}

/// One row alone, with a plain cap and an open part.
const OPEN_GAP: &str =
    "patrol-report 1\ntickets 1 1\nt 1 1\nvalue 3 1\ncap 2 plain 4\nsplit 1 2\nopen\nplays 1 2 0\nopen\nupper 4 1\nverdict gap nodes 1\nend\n";

#[test]
fn checks_an_open_part_beside_a_plain_cap(rt: HostRuntime) -> Result<(), AllocError> {
    let expected = Answer {
        status: 10,
        out: "yes gap 3 1 4 1\n",
        err: "",
    };
    assert!(rt; tells(rt.alloc(), "check", TWO_TYPES, OPEN_GAP, &expected)?);
    Ok(())
}
