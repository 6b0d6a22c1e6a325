//! Where a report fails first.

/// The first test that fails.
#[derive(Clone, Copy, Debug, PartialEq, Eq)]
pub(crate) struct Refusal {
    /// The line that it names, from 1 in the report's text; at most 2^64 - 1.
    pub(crate) line: u64,
    /// Its reason, from 1 to 9.
    pub(crate) reason: u8,
}
