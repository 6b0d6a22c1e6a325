//! Reports by their lines, with some of them changed.

use crate::judged::{Says, is_judged_on};
use sg_cert_reader::{ReportError, read_report};
use sg_tree::Report;
use std::alloc::Global;

/// A line by its number from 1, and what stands there instead.
pub(crate) type Edit = (usize, &'static str);

/// Changed lines of a report, and what the checker says then.
pub(crate) struct Edited(pub(crate) &'static [Edit], pub(crate) Says);

/// The line of that number, after the edits.
fn line_at<'a>(number: usize, line: &'a str, edits: &'a [Edit]) -> &'a str {
    for (at, other) in edits {
        if *at == number {
            return other;
        }
    }
    line
}

/// The report of the lines after the edits.
fn report_after(alloc: Global, lines: &[&str], edits: &[Edit]) -> Result<Report, ReportError> {
    let mut text = Vec::new(alloc);
    let mut number = 0usize;
    for line in lines {
        number = number.saturating_add(1);
        text.extend_from_slice(line_at(number, line, &*edits).as_bytes())?;
    }
    read_report(alloc, &text)
}

/// Whether the checker says this of the edited report on a game.
fn is_told(alloc: Global, game: &str, lines: &[&str], case: &Edited) -> bool {
    let Edited(edits, expected) = case;
    match report_after(alloc, lines, edits) {
        Ok(report) => is_judged_on(alloc, game, &report, *expected),
        Err(_) => false,
    }
}

/// Whether it says so of each.
pub(crate) fn are_told(alloc: Global, game: &str, lines: &[&str], cases: &[Edited]) -> bool {
    for case in cases {
        if !is_told(alloc, game, lines, case) {
            return false;
        }
    }
    true
}
