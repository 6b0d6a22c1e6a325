//! Reads the words of a call: the command that they give, or that they give none.
//!
//! `read_words` reads words by any table of commands (`Usage`): which positional words a command takes and of which kind, and its
//! options with kind and default. It answers exactly what `reading_of` of `specs/Usages.antt` says. The words go through `clap`, as a
//! command line with one level of subcommands, and that `clap` finds just the pieces of the definition is proved once, for any table.
//!
//! `command_of` is the reading by the program's own table. `command_given` of `specs/Commands.antt` says how words are read, `Gives`
//! how a command is written, and `words_give` that the one is the other turned round.
//!
//! A command more is a variant of `Command`, a row of `USAGES` and an arm of `command_with` in `commands`, and a variant of `Asked`
//! and a row of `forms` in the definitions. An option more is a setting in those two rows, and a field.
#![tactic(auto)]

mod arguments;
mod command;
mod commands;
mod kind;
mod laws;
mod line;
mod reading;
mod stray;
mod usage;

pub use command::Command;
pub use commands::command_of;
pub use kind::{Kind, number};
pub use laws::{
    refused_words, words_are_in_range, words_give, worked_makes, worked_rosters, worked_solves,
    worked_words,
};
pub use reading::read_words;
pub use usage::{Given, Setting, Usage};
