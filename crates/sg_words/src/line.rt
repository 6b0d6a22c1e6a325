//! A command of a table as `clap` knows it: a subcommand that takes any number of positional words, and its options with one value
//! each.

ghost use Rattle.std.specs.Prelude.{◌≡◌, IfOk, false, map};
ghost use Rattle.clap.specs.Words.{app_of, rule_of};
ghost use Rattle.sg_words.specs.Usages.{option_names, usage_of};
ghost use Rattle.sg_words.specs.Line.{command_line, line, option_rule, words_rule};

use crate::arguments::WORDS;
use crate::usage::Usage;
use clap::{Arg, ArgAction, Command as Line};
use std::alloc::{AllocError, Global};

/// The positional words.
fn words_arg<'a>(alloc: Global) -> Arg<'a>
    ensures rule { rule_of result ≡ words_rule }
    ensures local { result.global ≡ false }
{
    Arg::new(alloc, WORDS).action(ArgAction::Append)
}

/// An option of this name.
fn option_arg<'a>(alloc: Global, name: &'a str) -> Arg<'a>
    ensures rule { rule_of result ≡ option_rule name.now }
    ensures local { result.global ≡ false }
{
    Arg::new(alloc, name).long(name).action(ArgAction::Append)
}

/// The command with its options.
fn command_line<'a>(alloc: Global, usage: &Usage<'a>) -> Result<Line<'a>, AllocError>
    ensures { IfOk result (λ c. app_of c ≡ command_line usage.now.name.now (option_names (usage_of usage.now))) }
{
    let mut command = Line::new(alloc, usage.name).arg(words_arg(alloc))?;
    for setting in usage.options {
        command = command.arg(option_arg(alloc, setting.name))?;
    }
    Ok(command)
}

/// The program with this command, with no help and no version.
pub(crate) fn line<'a>(alloc: Global, usage: &Usage<'a>) -> Result<Line<'a>, AllocError>
    ensures { IfOk result (λ c. app_of c ≡ line usage.now.name.now (option_names (usage_of usage.now))) }
{
    let command = command_line(alloc, usage)?;
    Line::new(alloc, "patrol")
        .no_binary_name(true)
        .disable_help_flag(true)
        .disable_help_subcommand(true)
        .disable_version_flag(true)
        .subcommand_required(true)
        .subcommand(command)
}
