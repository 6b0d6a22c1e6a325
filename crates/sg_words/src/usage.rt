//! What a command takes: its row in a table of commands, and the arguments that a parse gives to it.

use crate::kind::Kind;
use std::alloc::AllocError;

/// An option of a command.
#[derive(Clone, Copy, Debug)]
pub struct Setting<'a> {
    /// Its name, without the two hyphens.
    pub name: &'a str,
    /// What its value must be.
    pub kind: Kind<'a>,
    /// The value where the words give none.
    pub default: &'a str,
}

/// A command: a row in a table of commands.
#[derive(Clone, Copy, Debug)]
pub struct Usage<'a> {
    /// The command's name.
    pub name: &'a str,
    /// What each of its positional words must be.
    pub positionals: &'a [Kind<'a>],
    /// Its options.
    pub options: &'a [Setting<'a>],
}

/// What words give by a table of commands.
#[derive(Debug, Drop)]
pub struct Given<'a> {
    /// The command's name.
    pub name: &'a str,
    /// Its positional words, and behind them the value of each option, in the order of the table.
    pub arguments: Vec<&'a str>,
}
