//! Why a run does not do what the words ask for.

ghost use Rattle.std.specs.Prelude.{◌≡◌, ◌++◌, IfOk, codes, decimal, string_bytes};
ghost use Rattle.sg_cli.specs.Refusals.{status_of, line_of, place_text, at_line_text, HasNumbers, fault_status, fault_line, own_has_numbers, own_status, own_line};
ghost use Rattle.sg_cli.specs.declared.refusal.Refusal.TheVariants.{Memory};

use crate::input::{InputFault, InputKind};
use sg_cert::ReportFault;
use sg_model::{GameFault, Place};
use std::alloc::{AllocError, AllocFailed, Global};

/// A refusal of a command's own, of what it read.
#[derive(Clone, Copy, Debug, PartialEq, Eq)]
pub enum CommandRefusal {
    /// The game or the report is of a kind that the command does not take yet.
    NotYet,
    /// The report is not accepted for the game: the line of the first test that fails, and its reason.
    ReportWrong { line: u64, reason: u8 },
    /// The report is accepted, but its tickets are more than the days of a roster may be: so many.
    RosterTooLong { total: i128 },
    /// The text is that of no shape of a generated game.
    NoShape,
}

/// Why a run does not do what the words ask for. One refusal decides the status and the line.
#[derive(Clone, Copy, Debug, PartialEq, Eq)]
pub enum Refusal {
    /// The words give no command.
    Words,
    /// A file of this kind was not read.
    NotRead(InputKind),
    /// A file of this kind has too many bytes.
    TooLong(InputKind),
    /// The bytes of a file hold nothing of its kind, for this reason.
    Refused(InputFault),
    /// A refusal of the command's own.
    Own(CommandRefusal),
    /// The text was not written whole.
    NotWritten,
    /// There was not enough memory.
    Memory,
}

impl From<AllocError> for Refusal {
    ghost from_gives = { λ _ e. e ≡ Memory };

    fn from(_e: AllocError) -> Refusal {
        Refusal::Memory
    }
}

impl<T: Drop> From<AllocFailed<T>> for Refusal {
    ghost from_gives = { λ _ e. e ≡ Memory };

    fn from(_e: AllocFailed<T>) -> Refusal {
        Refusal::Memory
    }
}

/// Where a game file breaks a rule.
fn place_name(alloc: Global, place: Place) -> Result<String, AllocError>
    ensures { IfOk result (λ text. string_bytes text ≡ place_text place) }
{
    match place {
        Place::Document => String::from_str(alloc, "document"),
        Place::Target(n) => format!(in alloc; "target {n}"),
        Place::Row(n) => format!(in alloc; "row {n}"),
        Place::Schedule(n) => format!(in alloc; "schedule {n}"),
        Place::Resource(n) => format!(in alloc; "resource {n}"),
        Place::Attacker(n) => format!(in alloc; "type {n}"),
    }
}

impl InputFault {
    // The status with which the run ends.
    fn status(self) -> u8
        ensures { result ≡ fault_status self }
    {
        match self {
            InputFault::Game(_) => 6,
            InputFault::Report(_) => 7,
        }
    }
}

impl CommandRefusal {
    // The status with which the run ends.
    fn status(self) -> u8
        ensures { result ≡ own_status self }
    {
        match self {
            CommandRefusal::NotYet => 3,
            CommandRefusal::ReportWrong { .. } => 7,
            CommandRefusal::RosterTooLong { .. } => 8,
            CommandRefusal::NoShape => 2,
        }
    }

    // The line, with its newline, of one without numbers.
    fn plain_line(self) -> &'static str
        requires { ¬ (own_has_numbers self) }
        ensures { result.now ≡ own_line self }
    {
        match self {
            CommandRefusal::NotYet => "not yet\n",
            CommandRefusal::ReportWrong { .. } => unreachable!(),
            CommandRefusal::RosterTooLong { .. } => unreachable!(),
            CommandRefusal::NoShape => "words refused\n",
        }
    }
}

impl Refusal {
    /// The status with which the run ends.
    pub fn status(self) -> u8
        ensures { result ≡ status_of self }
    {
        match self {
            Refusal::Words => 2,
            Refusal::NotRead(_) => 4,
            Refusal::TooLong(_) => 5,
            Refusal::Refused(fault) => fault.status(),
            Refusal::Own(own) => own.status(),
            Refusal::NotWritten => 9,
            Refusal::Memory => 11,
        }
    }

    /// The line, with its newline, that tells a refusal without numbers.
    pub fn plain_line(self) -> &'static str
        requires { ¬ (HasNumbers self) }
        ensures { result.now ≡ line_of self }
    {
        match self {
            Refusal::Words => "words refused\n",
            Refusal::NotRead(InputKind::Game) => "game not read\n",
            Refusal::NotRead(InputKind::Report) => "report not read\n",
            Refusal::TooLong(InputKind::Game) => "game too long\n",
            Refusal::TooLong(InputKind::Report) => "report too long\n",
            Refusal::Refused(_) => unreachable!(),
            Refusal::Own(own) => own.plain_line(),
            Refusal::NotWritten => "write failed\n",
            Refusal::Memory => "want of memory\n",
        }
    }
}

/// The line, with its newline, that tells why a game file is refused.
fn game_line(alloc: Global, fault: GameFault) -> Result<String, AllocError>
    ensures { IfOk result (λ text. string_bytes text ≡ fault_line (InputFault.Game fault)) }
{
    let place = place_name(alloc, fault.place)?;
    format!(in alloc; "game refused {} at {}\n", fault.reason, place)
}

/// The line, with its newline, that tells why a report's text is refused.
fn report_line(alloc: Global, fault: ReportFault) -> Result<String, AllocError>
    ensures { IfOk result (λ text. string_bytes text ≡ fault_line (InputFault.Report fault)) }
{
    format!(in alloc; "report refused {} at line {}\n", fault.reason, fault.line)
}

/// The line, with its newline, that tells why a file is refused.
pub(crate) fn fault_line(alloc: Global, fault: InputFault) -> Result<String, AllocError>
    ensures { IfOk result (λ text. string_bytes text ≡ line_of (Refusal.Refused fault)) }
{
    match fault {
        InputFault::Game(fault) => game_line(alloc, fault),
        InputFault::Report(fault) => report_line(alloc, fault),
    }
}

/// The line, with its newline, that tells where a report is not accepted.
pub(crate) fn wrong_line(alloc: Global, line: u64, reason: u8) -> Result<String, AllocError>
    ensures { IfOk result (λ text. string_bytes text ≡ line_of (Refusal.Own (CommandRefusal.ReportWrong line reason))) }
{
    format!(in alloc; "no {} at line {}\n", reason, line)
}

/// The line, with its newline, that tells how many tickets are too many for a roster.
pub(crate) fn long_line(alloc: Global, total: i128) -> Result<String, AllocError>
    ensures { IfOk result (λ text. string_bytes text ≡ line_of (Refusal.Own (CommandRefusal.RosterTooLong total))) }
{
    format!(in alloc; "roster too long {}\n", total)
}
