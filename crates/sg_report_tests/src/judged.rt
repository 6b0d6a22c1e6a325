//! Games and reports out of texts, and what the checker says of them.

use sg_cert_reader::{ReportError, read_report};
use sg_check::{Verdict, check};
use sg_file::read_game;
use sg_game::Game;
use sg_tree::Report;
use std::alloc::{AllocError, Global};

/// What the checker says: the value, the value and the upper bound, or the line and the reason.
#[derive(Clone, Copy)]
pub(crate) enum Says {
    Optimal(i128, i128),
    Gap(i128, i128, i128, i128),
    No(u64, u8),
}

/// A game, the parts of a report's text, and what the checker says.
pub(crate) struct Case<'a>(
    pub(crate) &'a str,
    pub(crate) &'a [&'a str],
    pub(crate) Says,
);

/// A text of these parts.
pub(crate) fn joined(alloc: Global, parts: &[&str]) -> Result<Vec<u8>, AllocError> {
    let mut text = Vec::new(alloc);
    for part in parts {
        text.extend_from_slice(part.as_bytes())?;
    }
    Ok(text)
}

/// The report of these parts of a text.
pub(crate) fn report_of(alloc: Global, parts: &[&str]) -> Result<Report, ReportError> {
    let text = joined(alloc, parts)?;
    read_report(alloc, &text)
}

/// Whether the verdict is this one.
fn agrees(verdict: &Verdict, expected: Says) -> bool {
    match (verdict, expected) {
        (Verdict::YesOptimal(value), Says::Optimal(num, den)) => {
            value.num() == num && value.den() == den
        }
        (Verdict::YesGap(value, upper), Says::Gap(num, den, top, bottom)) => {
            value.num() == num && value.den() == den && upper.num() == top && upper.den() == bottom
        }
        (Verdict::No { line, reason }, Says::No(at, why)) => *line == at && *reason == why,
        _ => false,
    }
}

/// Whether the checker says this of the report on the game.
pub(crate) fn is_judged(alloc: Global, game: &Game, report: &Report, expected: Says) -> bool {
    match check(alloc, game, report) {
        Ok(verdict) => agrees(&verdict, expected),
        Err(_) => false,
    }
}

/// Whether it says this of a report on the game of this text.
pub(crate) fn is_judged_on(alloc: Global, game: &str, report: &Report, expected: Says) -> bool {
    match read_game(alloc, game.as_bytes()) {
        Ok(game) => is_judged(alloc, &game, report, expected),
        Err(_) => false,
    }
}

/// Whether the verdict of a case is the expected one.
pub(crate) fn is_right(alloc: Global, case: &Case) -> bool {
    let Case(game, parts, expected) = case;
    match report_of(alloc, parts) {
        Ok(report) => is_judged_on(alloc, game, &report, *expected),
        Err(_) => false,
    }
}
