//! Faults of the outside: reads, writes and tellings that fail, and a report that is too long.

ghost use Rattle.std.specs.Prelude.{◌≡◌, OnOk, OnErr, IfErr, None};
ghost use Rattle.sg_shelf.specs.Logs.{log_of, logged};

use crate::reports::{MET_REPORT, TWO_ROWS};
use crate::scenes::{Answer, Failing, NO_PUT, answers_on, shelf_of, sink_of, words_of};
use sg_cli::run;
use sg_shelf::{Outcome, Reading, Shelf, ShelfError};
use std::alloc::{AllocError, Global};
use std::marker::Model;
use std::test::*;

/// Two targets, the first worth twice the second.
const TWO_TARGETS: &str =
    "version = 1\nform = \"security\"\nscale = 4\npatrols = 1\ntargets = [\"t1\", \"t2\"]\n\n[[type]]\nname = \"thief\"\nprior = 1\npayoffs = [[2, -2, 0, 4], [1, -1, 0, 2]]\n";

/// The report that `solve` writes for it.
const SOLVED: &str =
    "patrol-report 1\ntickets 2 3\nt 2 1\nt 1 2\nvalue 2 3\nwater 4 3 resources\nupper 2 3\nverdict optimal\nend\n";

/// The first put to the first output fails after two bytes.
const TWO_PUT: Failing<'static> = Failing {
    out: (&[1], 2),
    err: (&[], 0),
};

/// The first put to the second output fails after four bytes.
const FOUR_TOLD: Failing<'static> = Failing {
    out: (&[], 0),
    err: (&[1], 4),
};

const SOLVE: &[&str] = &["solve", "game.toml"];

const CHECK: &[&str] = &["check", "game.toml", "report"];

const SHOW: &[&str] = &["show", "game.toml", "report"];

/// The words, the game, the report, the reads that fail, and the outputs.
struct Case(
    &'static [&'static str],
    &'static str,
    Option<&'static str>,
    &'static [u64],
    Failing<'static>,
);

/// Runs with a fault, with the status and what the two outputs take.
const CASES: [(Case, u8, &str, &str); 10] = [
    (
        Case(SOLVE, TWO_TARGETS, None, &[1], NO_PUT),
        4,
        "",
        "game not read\n",
    ),
    (
        Case(SOLVE, TWO_TARGETS, None, &[], TWO_PUT),
        9,
        "pa",
        "write failed\n",
    ),
    (
        Case(SOLVE, TWO_TARGETS, None, &[1], FOUR_TOLD),
        4,
        "",
        "game",
    ),
    (
        Case(CHECK, TWO_ROWS, Some(MET_REPORT), &[1], NO_PUT),
        4,
        "",
        "game not read\n",
    ),
    (
        Case(CHECK, TWO_ROWS, Some(MET_REPORT), &[2], NO_PUT),
        4,
        "",
        "report not read\n",
    ),
    (
        Case(SHOW, TWO_ROWS, Some(MET_REPORT), &[1], NO_PUT),
        4,
        "",
        "game not read\n",
    ),
    (
        Case(SHOW, TWO_ROWS, Some(MET_REPORT), &[2], NO_PUT),
        4,
        "",
        "report not read\n",
    ),
    (
        Case(CHECK, TWO_ROWS, Some(MET_REPORT), &[], TWO_PUT),
        9,
        "ye",
        "write failed\n",
    ),
    (
        Case(SHOW, TWO_ROWS, Some(MET_REPORT), &[], TWO_PUT),
        9,
        "va",
        "write failed\n",
    ),
    (
        Case(
            &["check", "game.toml", "other"],
            TWO_ROWS,
            Some(MET_REPORT),
            &[],
            NO_PUT,
        ),
        4,
        "",
        "report not read\n",
    ),
];

/// Whether a run with a fault answers so.
fn is_told(alloc: Global, case: &Case, expected: &Answer) -> Result<bool, AllocError> {
    let Case(words, game, report, reads, failing) = case;
    let mut shelf = shelf_of(alloc, game.as_bytes(), *report, reads)?;
    answers_on(alloc, words, &mut shelf, failing, expected)
}

#[test]
fn tells_faults_of_the_outside(rt: HostRuntime) -> Result<(), AllocError> {
    for (case, status, out, err) in &CASES {
        let expected = Answer {
            status: *status,
            out,
            err,
        };
        assert!(rt; is_told(rt.alloc(), case, &expected)?, "{out}{err}");
    }
    Ok(())
}

/// Whether a run over a second output that failed in an earlier run writes the report.
fn writes_after_a_failed_telling(alloc: Global) -> Result<bool, AllocError> {
    let words = words_of(alloc, SOLVE)?;
    let mut out = sink_of(alloc, &[], 0)?;
    let mut err = sink_of(alloc, &[1], 4)?;
    let mut shelf = shelf_of(alloc, TWO_TARGETS.as_bytes(), None, &[1])?;
    let first = run(alloc, &words, &mut shelf, &mut out, &mut err);
    let mut shelf = shelf_of(alloc, TWO_TARGETS.as_bytes(), None, &[])?;
    let second = run(alloc, &words, &mut shelf, &mut out, &mut err);
    Ok(first == 4 && second == 0 && out.bytes() == SOLVED.as_bytes())
}

/// A shelf that tells no file, with one game and a report that is too long. Clauses see it as its log.
#[derive(Drop)]
struct LongReport {
    game: Vec<u8>,
    log: Vec<Reading>,
}

/// Adds a reading to the log.
fn keep(
    alloc: Global,
    log: &mut Vec<Reading>,
    name: &str,
    limit: usize,
    outcome: Outcome,
) -> Result<(), ShelfError>
    ensures ok { OnOk result (log_of log.new.items ≡ logged (log_of log.old.items) name.now limit outcome) }
    ensures err { IfErr result (λ error. error ≡ ShelfError.Memory) }
    ensures kept { OnErr result (log.new.items ≡ log.old.items) }
{
    let name = match String::from_str(alloc, name) {
        Ok(name) => name,
        Err(_) => return Err(ShelfError::Memory),
    };
    match log.push(Reading {
        name,
        limit,
        outcome,
    }) {
        Ok(()) => Ok(()),
        Err(_) => Err(ShelfError::Memory),
    }
}

impl Model for LongReport {
    ghost use Rattle.sg_shelf.specs.Logs.{Log, log_of};

    ghost Value = { Log };

    ghost view = { λ shelf. log_of shelf.log.items };
}

impl Shelf for LongReport {
    ghost state = { λ shelf. record { files = None; log = shelf; faults = 0 } };

    fn read(&mut self, alloc: Global, name: &str, limit: usize) -> Result<Vec<u8>, ShelfError> {
        if name == "report" {
            keep(alloc, &mut self.log, name, limit, Outcome::TooLong)?;
            return Err(ShelfError::TooLong { seen: 536_870_913 });
        }
        if self.game.len() > limit {
            keep(alloc, &mut self.log, name, limit, Outcome::TooLong)?;
            return Err(ShelfError::TooLong {
                seen: self.game.len() as u64,
            });
        }
        let bytes = match Vec::from_slice(alloc, &self.game) {
            Ok(bytes) => bytes,
            Err(_) => return Err(ShelfError::Memory),
        };
        keep(alloc, &mut self.log, name, limit, Outcome::Given)?;
        Ok(bytes)
    }
}

/// Whether these are the readings of the log, in order.
fn is_logged(log: &[Reading], readings: &[(&str, usize, Outcome)]) -> bool {
    log.len() == readings.len()
        && log.iter().zip(readings).all(|(reading, (name, limit, outcome))| {
            reading.name.as_str() == *name && reading.limit == *limit && reading.outcome == *outcome
        })
}

/// Whether a command refuses a report that is too long.
fn refuses_a_long_report(alloc: Global, words: &[&str]) -> Result<bool, AllocError> {
    let game = Vec::from_slice(alloc, TWO_ROWS.as_bytes())?;
    let mut shelf = LongReport {
        game,
        log: Vec::new(alloc),
    };
    let expected = Answer {
        status: 5,
        out: "",
        err: "report too long\n",
    };
    let answered = answers_on(alloc, words, &mut shelf, &NO_PUT, &expected)?;
    let readings = [
        ("game.toml", 4_194_304, Outcome::Given),
        ("report", 536_870_912, Outcome::TooLong),
    ];
    Ok(answered && is_logged(&shelf.log, &readings))
}

/// The words, the report, the reads that fail, and the readings that a run leaves in the log.
struct Logged(
    &'static [&'static str],
    Option<&'static str>,
    &'static [u64],
    &'static [(&'static str, usize, Outcome)],
);

static LOGGED: [Logged; 4] = [
    Logged(
        SOLVE,
        None,
        &[],
        &[("game.toml", 4_194_304, Outcome::Given)],
    ),
    Logged(
        CHECK,
        Some(MET_REPORT),
        &[],
        &[
            ("game.toml", 4_194_304, Outcome::Given),
            ("report", 536_870_912, Outcome::Given),
        ],
    ),
    Logged(
        SHOW,
        Some(MET_REPORT),
        &[2],
        &[
            ("game.toml", 4_194_304, Outcome::Given),
            ("report", 536_870_912, Outcome::Failed),
        ],
    ),
    Logged(
        CHECK,
        Some(MET_REPORT),
        &[1],
        &[("game.toml", 4_194_304, Outcome::Failed)],
    ),
];

/// Whether a run reads so.
fn reads_so(alloc: Global, case: &Logged) -> Result<bool, AllocError> {
    let Logged(words, report, fails, readings) = case;
    let words = words_of(alloc, words)?;
    let mut shelf = shelf_of(alloc, TWO_ROWS.as_bytes(), *report, fails)?;
    let mut out = sink_of(alloc, &[], 0)?;
    let mut err = sink_of(alloc, &[], 0)?;
    let _ = run(alloc, &words, &mut shelf, &mut out, &mut err);
    Ok(is_logged(shelf.log(), readings))
}

#[test]
fn reads_files_in_order(rt: HostRuntime) -> Result<(), AllocError> {
    for case in &LOGGED {
        assert!(rt; reads_so(rt.alloc(), case)?);
    }
    Ok(())
}

#[test]
fn tells_long_reports_and_goes_on(rt: HostRuntime) -> Result<(), AllocError> {
    let alloc = rt.alloc();
    let are_refused = refuses_a_long_report(alloc, CHECK)? && refuses_a_long_report(alloc, SHOW)?;
    assert!(rt; are_refused && writes_after_a_failed_telling(alloc)?);
    Ok(())
}
