//! The table of commands, and the command that a row's arguments ask for.

ghost use Rattle.std.specs.Prelude.{◌≡◌, ◌↔◌, Option, Some, None, IfOk, IsNone, map, option_map, string_bytes};
ghost use Rattle.sg_words.specs.declared.command.Command.{Command};
ghost use Rattle.sg_words.specs.Commands.{Asked, Gives, HasRangedOptions, family_read, lanes_read, walk_read, solve, check, show, roster, make, with_search, with_two, with_one_and_number, with_two_and_number, asked_by, asked_of, command_given};

use crate::command::Command;
use crate::kind::{Kind, number};
use crate::reading::read_words;
use crate::usage::{Setting, Usage};
use sg_options::{Budget, Choice, Order, Walk};
use std::alloc::{AllocError, Global};
use std::cmp::min;

/// The option `--seed`, and 0 where it isn't given.
const SEED: Setting<'static> = Setting {
    name: "seed",
    kind: Kind::Number {
        least: 0,
        greatest: u64::MAX,
    },
    default: "0",
};

/// The commands: each with what its positional words must be, and its options.
static USAGES: [Usage<'static>; 5] = [
    Usage {
        name: "solve",
        positionals: &[Kind::Any],
        options: &[
            Setting {
                name: "nodes",
                kind: Kind::Number {
                    least: 1,
                    greatest: 1_000_000,
                },
                default: "100000",
            },
            Setting {
                name: "pivots",
                kind: Kind::Number {
                    least: 1,
                    greatest: 1_000_000_000,
                },
                default: "100000",
            },
            Setting {
                name: "looks",
                kind: Kind::Number {
                    least: 1,
                    greatest: 1_000_000_000_000_000_000,
                },
                default: "100000000",
            },
            Setting {
                name: "family",
                kind: Kind::Choice(&["auto", "listed"]),
                default: "auto",
            },
            Setting {
                name: "order",
                kind: Kind::Choice(&["file", "best", "seeded"]),
                default: "file",
            },
            Setting {
                name: "lanes",
                kind: Kind::Number {
                    least: 1,
                    greatest: 8,
                },
                default: "1",
            },
            SEED,
        ],
    },
    Usage {
        name: "check",
        positionals: &[Kind::Any, Kind::Any],
        options: &[],
    },
    Usage {
        name: "show",
        positionals: &[Kind::Any, Kind::Any],
        options: &[],
    },
    Usage {
        name: "roster",
        positionals: &[Kind::Any, Kind::Any],
        options: &[SEED],
    },
    Usage {
        name: "make",
        positionals: &[
            Kind::Any,
            Kind::Number {
                least: 0,
                greatest: u64::MAX,
            },
        ],
        options: &[],
    },
];

/// The walk that a word names.
fn walk(word: &str) -> Walk
    ensures { result ≡ walk_read word.now }
{
    match word {
        "best" => Walk::Best,
        "seeded" => Walk::Seeded,
        _ => Walk::File,
    }
}

/// The family that a word names.
fn family(word: &str) -> Choice
    ensures { result ≡ family_read word.now }
{
    match word {
        "listed" => Choice::Listed,
        _ => Choice::Auto,
    }
}

/// The lanes that a word writes.
fn lanes(word: &str) -> u8
    ensures { result ≡ lanes_read word.now }
{
    min(8, number(word)) as u8
}

fn solve<'a>(arguments: &[&'a str]) -> Option<Command<'a>>
    ensures { option_map asked_of result ≡ with_search solve (map (λ text. text.now) arguments.now) }
{
    match arguments {
        [
            game,
            nodes,
            pivots,
            looks,
            family_word,
            walk_word,
            lanes_word,
            seed_word,
        ] => Some(Command::Solve {
            game: *game,
            budget: Budget {
                nodes: number(*nodes),
                pivots: number(*pivots),
                looks: number(*looks),
            },
            order: Order {
                walk: walk(*walk_word),
                lanes: lanes(*lanes_word),
                seed: number(*seed_word),
                family: family(*family_word),
            },
        }),
        _ => None,
    }
}

fn check<'a>(arguments: &[&'a str]) -> Option<Command<'a>>
    ensures { option_map asked_of result ≡ with_two check (map (λ text. text.now) arguments.now) }
{
    match arguments {
        [game, report] => Some(Command::Check {
            game: *game,
            report: *report,
        }),
        _ => None,
    }
}

fn show<'a>(arguments: &[&'a str]) -> Option<Command<'a>>
    ensures { option_map asked_of result ≡ with_two show (map (λ text. text.now) arguments.now) }
{
    match arguments {
        [game, report] => Some(Command::Show {
            game: *game,
            report: *report,
        }),
        _ => None,
    }
}

fn roster<'a>(arguments: &[&'a str]) -> Option<Command<'a>>
    ensures { option_map asked_of result ≡ with_two_and_number roster (map (λ text. text.now) arguments.now) }
{
    match arguments {
        [game, report, seed] => Some(Command::Roster {
            game: *game,
            report: *report,
            seed: number(*seed),
        }),
        _ => None,
    }
}

fn make<'a>(arguments: &[&'a str]) -> Option<Command<'a>>
    ensures { option_map asked_of result ≡ with_one_and_number make (map (λ text. text.now) arguments.now) }
{
    match arguments {
        [shape, word] => Some(Command::Make {
            shape: *shape,
            seed: number(*word),
        }),
        _ => None,
    }
}

/// The command of this name with these arguments.
fn command_with<'a>(name: &str, arguments: &[&'a str]) -> Option<Command<'a>>
    ensures { option_map asked_of result ≡ asked_by name.now (map (λ text. text.now) arguments.now) }
{
    match name {
        "solve" => solve(arguments),
        "check" => check(arguments),
        "show" => show(arguments),
        "roster" => roster(arguments),
        "make" => make(arguments),
        _ => None,
    }
}

/// The command that the words give, or `None` where they give none. The words are those after the program's name, and
/// only memory may be wanting.
pub fn command_of<'a>(alloc: Global, words: &'a [String]) -> Result<Option<Command<'a>>, AllocError>
    ensures answer { IfOk result (λ r. option_map asked_of r ≡ command_given (map string_bytes words.entry.now)) }

    // The same by the rules of writing, in both directions.
    ensures given { IfOk result (λ r. (asked : Asked) →
        (option_map asked_of r ≡ Some asked) ↔ Gives (map string_bytes words.entry.now) asked) }
    ensures none { IfOk result (λ r.
        IsNone r ↔ ((asked : Asked) → ¬ Gives (map string_bytes words.entry.now) asked)) }

    // The budget and the order of a search are in their ranges.
    ensures ranges { IfOk result (λ r. (command : Command) → r ≡ Some command → HasRangedOptions (asked_of command)) }
{
    match read_words(alloc, &USAGES, words)? {
        Some(given) => Ok(command_with(given.name, given.arguments.as_slice())),
        None => Ok(None),
    }
}
