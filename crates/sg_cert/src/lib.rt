//! What the text of a report is and means: definitions, and the laws about them. No code reads or writes here.
//!
//! `report_of` (`specs/Reading.antt`, `specs/LineReading.antt`, `specs/Fields.antt`) is the report that bytes spell, or
//! the first line that fails with the reason of its first test that fails. `report_text` (`specs/Text.antt`) is the
//! text of a report. `IsReport` (`specs/Ranges.antt`) says which reports have a report text.
//!
//! The laws (`specs/Laws.antt`) are contracts of functions that do nothing: [`text_reads_back`], the text of a report
//! in its ranges reads back to it; [`read_is_text`], what reads as a report is exactly the text of that report and of
//! no other; [`report_texts_read`], bytes read as a report exactly where they are a report text;
//! [`water_text_agrees`], the text of a report with one water-level fact is the one that `specs/WaterText.antt` defines for
//! those; [`worked_texts`], texts written out by hand.
//!
//! `sg_cert_reader` reads and `sg_cert_writer` writes. Neither stands on the other: these definitions join them. A
//! short report text:
//!
//! ```text
//! patrol-report 1
//! tickets 1 1
//! t 1 2
//! value -3 1
//! open
//! upper 5 1
//! verdict gap nodes 1
//! end
//! ```
#![tactic(auto)]

mod fault;
mod laws;

pub use fault::ReportFault;
pub use laws::{read_is_text, report_texts_read, text_reads_back, water_text_agrees, worked_texts};
