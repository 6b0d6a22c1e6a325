//! Writes the text of a report, exactly.
//!
//! [`write_report`] puts `report_text` of `sg_cert` (`specs/Text.antt` there) into a sink, all of it or, where the
//! sink failed, a front of it, and then the count of faults of the sink rose. It takes no memory: the text goes
//! through a block of 4,096 bytes. What its steps add to the sink and leave in the block stands in
//! `specs/Writing.antt`. The text of a report in its ranges reads back to that report: a law of `sg_cert`.
//!
//! ```text
//! write_report(&report, &mut sink)?;
//! ```
#![tactic(auto)]

mod block;
mod row;
mod writing;

pub use writing::write_report;
