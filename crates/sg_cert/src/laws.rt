//! Laws about the definitions, each as the contract of a function that does nothing.

ghost use Rattle.sg_cert.specs.Laws.{TextReadsBack, ReadIsText, ReportTextsRead, WaterTextAgrees};
ghost use Rattle.sg_cert.specs.TextExamples.{AreTexts};

/// The text of a report in its ranges reads back to that report.
pub fn text_reads_back()
    ensures { TextReadsBack }
{}

/// What reads as a report is in its ranges, and is exactly the text of that report and of no other.
pub fn read_is_text()
    ensures { ReadIsText }
{}

/// Bytes read as a report exactly where they are a report text.
pub fn report_texts_read()
    ensures { ReportTextsRead }
{}

/// The text of a report with one water-level fact is the one that is defined for such reports alone.
pub fn water_text_agrees()
    ensures { WaterTextAgrees }
{}

/// Texts of reports, written out by hand.
pub fn worked_texts()
    ensures { AreTexts }
{}
