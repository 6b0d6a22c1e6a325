//! Reads the text of a report, exactly.
//!
//! [`read_report`] gives the report that the bytes spell, or the first line that fails and the reason, exactly as
//! `report_of` of `sg_cert` (`specs/Reading.antt` there) says, for every list of bytes; `Tells` in `specs/Steps.antt`
//! says how its result tells that. A third answer is that memory ran out. What reads is in the ranges of a report and
//! is written back to the same bytes: laws of `sg_cert`.
//!
//! ```text
//! match read_report(alloc, bytes) {
//!     Ok(report) => ..,
//!     Err(ReportError::Refused(fault)) => .. fault.line, fault.reason ..,
//!     Err(ReportError::Memory) => ..,
//! }
//! ```
#![tactic(auto)]

mod error;
mod fact;
mod field;
mod fraction;
mod lines;
mod node;
mod reading;
mod ticket;
mod verdict;

pub use error::ReportError;
pub use reading::read_report;
