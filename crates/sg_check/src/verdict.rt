//! What a checker says of a report.

use sg_frac::Frac;

/// The verdict on a report.
#[derive(Clone, Copy, Debug, PartialEq, Eq)]
pub enum Verdict {
    /// The report is accepted, and its tickets are optimal: the defender's value.
    YesOptimal(Frac),
    /// The report is accepted: the value of its tickets, and the bound on all commitments, which is above it.
    YesGap(Frac, Frac),
    /// The report is refused: the line of the first test that fails, at most 2^64 - 1, and its reason.
    No { line: u64, reason: u8 },
}
