//! Why no report was read.

ghost use Rattle.std.specs.Prelude.{◌≡◌};
ghost use Rattle.sg_cert_reader.specs.declared.error.ReportError.TheVariants.{Memory, Refused};

use sg_cert::ReportFault;
use std::alloc::{AllocError, AllocFailed};
use thiserror::Error;

/// The bytes are no report, or memory ran out.
#[derive(Debug, Drop, Error)]
pub enum ReportError {
    /// The first line that is wrong.
    #[error("the bytes are no report: line {} is refused, for reason {}", .0.line, .0.reason)]
    Refused(ReportFault),
    /// Memory ran out.
    #[error("memory ran out")]
    Memory,
}

impl From<AllocError> for ReportError {
    ghost from_gives = { λ _ e. e ≡ Memory };

    fn from(_e: AllocError) -> ReportError {
        ReportError::Memory
    }
}

impl<T: Drop> From<AllocFailed<T>> for ReportError {
    ghost from_gives = { λ _ e. e ≡ Memory };

    fn from(_e: AllocFailed<T>) -> ReportError {
        ReportError::Memory
    }
}

impl From<ReportFault> for ReportError {
    ghost from_gives = { λ f e. e ≡ Refused f };

    fn from(fault: ReportFault) -> ReportError {
        ReportError::Refused(fault)
    }
}
