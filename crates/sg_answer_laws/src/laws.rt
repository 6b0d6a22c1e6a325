//! Laws about the reports of searches, each as the contract of a function that does nothing.

ghost use Rattle.sg_answer_laws.specs.Laws.{AnswersAreReports, AnswersAreShort, AnswersAreTexts};

/// The numbers of the report lie in their ranges, and its lists are in order.
pub fn answers_are_reports()
    ensures { AnswersAreReports }
{}

/// Its text is a report text, and reads as the report.
pub fn answers_are_texts()
    ensures { AnswersAreTexts }
{}

/// Its text has at most 512 MiB.
pub fn answers_are_short()
    ensures { AnswersAreShort }
{}
