//! The log of a shelf: the reads that it answered, in order.

ghost use Rattle.std.specs.Prelude.{◌≡◌, ◌<◌, OnOk, IfOk, IfErr, OnSome, Some, string_bytes, vec_capacity, vec_len};
ghost use Rattle.sg_shelf.specs.Logs.{log_of, log_with, outcome_of};

use crate::shelf::ShelfError;
use std::alloc::{AllocError, Global};

/// How a read was answered.
#[derive(Clone, Copy, Debug, PartialEq, Eq)]
pub enum Outcome {
    /// By the bytes of the file.
    Given,
    /// By more bytes than the limit.
    TooLong,
    /// By a failure.
    Failed,
}

/// A read that was answered.
#[derive(Debug, Drop)]
pub struct Reading {
    /// The name that was asked for.
    pub name: String,
    /// The most bytes that were asked for.
    pub limit: usize,
    /// How it was answered.
    pub outcome: Outcome,
}

/// The name of the next reading, and room for it.
pub(crate) fn prepared(
    alloc: Global,
    log: &mut Vec<Reading>,
    name: &str,
) -> Result<String, AllocError>
    ensures kept { log.new.items ≡ log.old.items }
    ensures name { IfOk result (λ text. string_bytes text ≡ name.now) }
    ensures room { OnOk result (vec_len log.new < vec_capacity log.new) }
{
    log.reserve(1)?;
    String::from_str(alloc, name)
}

/// How a read was answered, if it was: want of memory is no answer.
pub(crate) fn outcome_of(answer: &Result<Vec<u8>, ShelfError>) -> Option<Outcome>
    ensures { result ≡ outcome_of answer.now }
{
    match answer {
        Ok(_) => Some(Outcome::Given),
        Err(ShelfError::Failed) => Some(Outcome::Failed),
        Err(ShelfError::TooLong { .. }) => Some(Outcome::TooLong),
        Err(ShelfError::Memory) => None,
    }
}

/// Adds the reading of this name up to the limit, if it was answered.
pub(crate) fn append(log: &mut Vec<Reading>, name: String, limit: usize, outcome: Option<Outcome>)
    requires { vec_len log.old < vec_capacity log.old }
    ensures { log_of log.new.items ≡ log_with (log_of log.old.items) (string_bytes name) limit outcome }
{
    if let Some(outcome) = outcome {
        log.push(Reading {
            name,
            limit,
            outcome,
        })
        .unwrap();
    }
}

/// Whether these are the readings of the log, in order.
#[cfg(test)]
pub(crate) fn is_logged(log: &[Reading], readings: &[(&str, usize, Outcome)]) -> bool {
    log.len() == readings.len()
        && log.iter().zip(readings).all(|(reading, (name, limit, outcome))| {
            reading.name.as_str() == *name && reading.limit == *limit && reading.outcome == *outcome
        })
}
