//! The words of a call, read once for any table of commands.

ghost use Rattle.std.specs.Prelude.{◌≡◌, ◌↔◌, [], ◌∷◌, Option, IfOk, IsTrue, true, drop, map, option_map, string_bytes};
ghost use Rattle.sg_words.specs.Line.{NamesFirst};
ghost use Rattle.clap.specs.Words.{kind_of};
ghost use Rattle.sg_words.specs.Usages.{arguments_given, given_of, is_usage_table, reading_of, usage_named, usage_of};

use crate::arguments::arguments_in;
use crate::line::line;
use crate::stray::has_stray;
use crate::usage::{Given, Usage};
use clap::Error;
use clap::error::ErrorKind;
use std::alloc::{AllocError, Global};

fn is_memory(error: &Error) -> bool
    ensures { IsTrue result ↔ (kind_of error.now ≡ ErrorKind.OutOfMemory) }
{
    error.kind() == ErrorKind::OutOfMemory
}

/// The row of this name.
fn usage_named<'a>(usages: &'a [Usage<'a>], name: &str) -> Option<&'a Usage<'a>>
    ensures { option_map (λ usage. usage_of usage.now) result ≡ usage_named (map usage_of usages.now) name.now }
{
    for usage in usages {
        if usage.name == name {
            return Some(usage);
        }
    }
    None
}

/// The arguments of the row that the first word names.
fn arguments_given<'a>(
    alloc: Global,
    usage: &Usage<'a>,
    words: &'a [String],
) -> Result<Option<Vec<&'a str>>, AllocError>
    requires table { is_usage_table (usage_of usage.now ∷ []) ≡ true }
    requires named { NamesFirst usage.now.name.now (map string_bytes words.now) }
    ensures { IfOk result (λ r. option_map (λ texts. map (λ text. text.now) texts.items) r
        ≡ arguments_given (usage_of usage.now) (map string_bytes (drop 1 words.entry.now))) }
{
    if has_stray(usage.options, &words[1..]) {
        return Ok(None);
    }
    let line = line(alloc, usage)?;
    match line.try_get_matches_from(words) {
        Ok(matches) => match matches.subcommand() {
            Some((_, found)) => arguments_in(alloc, usage, found),
            None => Ok(None),
        },
        Err(error) => {
            if is_memory(&error) {
                Err(AllocError)
            } else {
                Ok(None)
            }
        }
    }
}

/// What the words give by a table of commands, or `None` where they give nothing.
///
/// The first word names the row. The others are its positional words, and its options with their values: `--name VALUE` or
/// `--name=VALUE`, with the whole name and at most once. Behind the first `--` all words are positional; before it neither a
/// positional word nor a separate value begins with a hyphen. Only memory may be wanting.
pub fn read_words<'a>(
    alloc: Global,
    usages: &'a [Usage<'a>],
    words: &'a [String],
) -> Result<Option<Given<'a>>, AllocError>
    requires { is_usage_table (map usage_of usages.now) ≡ true }
    ensures { IfOk result (λ r. option_map given_of r
        ≡ reading_of (map usage_of usages.entry.now) (map string_bytes words.entry.now)) }
{
    match words {
        [] => Ok(None),
        [name, ..] => match usage_named(usages, name.as_str()) {
            Some(usage) => match arguments_given(alloc, usage, words)? {
                Some(arguments) => Ok(Some(Given {
                    name: usage.name,
                    arguments,
                })),
                None => Ok(None),
            },
            None => Ok(None),
        },
    }
}
