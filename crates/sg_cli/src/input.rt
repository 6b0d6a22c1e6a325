//! The files that commands read: their kinds and limits, and what is told of one that holds nothing of its kind.

ghost use Rattle.std.specs.Prelude.{◌≡◌};
ghost use Rattle.sg_cli.specs.Inputs.{input_limit};

use sg_cert::ReportFault;
use sg_model::GameFault;
use sg_shelf::READ_LIMIT;

/// The most bytes of a game file: 4 MiB.
pub const GAME_LIMIT: usize = 4_194_304;

/// The most bytes of a report: 512 MiB, as many as may be asked of a read.
pub const REPORT_LIMIT: usize = READ_LIMIT;

/// A kind of file.
#[derive(Clone, Copy, Debug, PartialEq, Eq)]
pub enum InputKind {
    /// A game file.
    Game,
    /// A report.
    Report,
}

/// Why the bytes of a file hold nothing of its kind.
#[derive(Clone, Copy, Debug, PartialEq, Eq)]
pub enum InputFault {
    /// They are no game file: the first rule that they break.
    Game(GameFault),
    /// They are no report: the first line that fails.
    Report(ReportFault),
}

impl InputKind {
    /// The most bytes that a file of this kind may have.
    pub(crate) fn limit(self) -> usize
        ensures { result ≡ input_limit self }
    {
        match self {
            InputKind::Game => GAME_LIMIT,
            InputKind::Report => REPORT_LIMIT,
        }
    }
}
