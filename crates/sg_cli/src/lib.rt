//! The program's one call, [`run`]: words in; a report, a yes to one, a table, a roster, a game or a refusal out.
//!
//! What it promises stands in `specs/Runs.antt` (`Answers`, `IsComplete`): what each command reads, takes, refuses and writes
//! in a module of its own (`specs/Solving.antt`, `specs/Checking.antt`, `specs/Showing.antt`, `specs/Rostering.antt`, `specs/Making.antt`); what that means for the shelf
//! and the outputs, for all commands at once, in `specs/Effects.antt`; which status told files decide in
//! `specs/ExpectedStatus.antt`; and the status and line of each refusal in `specs/Refusals.antt`.
//!
//! A command more is a module here and one in `specs/`, a row of words in `sg_words`, and a row of the list: an arm of
//! `run_command` and one of `command_for`.
#![tactic(auto)]

mod call;
mod checking;
mod commitment;
mod input;
mod judging;
mod laws;
mod making;
mod process;
mod program;
mod ranges;
mod reading;
mod refusal;
mod rostering;
mod showing;
mod solving;
mod telling;

pub use call::run;
pub use input::{GAME_LIMIT, InputFault, InputKind, REPORT_LIMIT};
pub use laws::{
    checks_are_worked, limits_are_worked, one_status_is_due, refusals_are_worked,
    right_reports_are_short, solved_is_checked, solved_is_rostered,
};
pub use process::run_process;
pub use program::run_program;
pub use refusal::{CommandRefusal, Refusal};
