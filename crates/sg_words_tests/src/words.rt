//! The words of a call, and the commands that they give.
use sg_options::{Budget, Choice, Order, Walk};
use sg_words::{
    Command, Kind, Setting, Usage, command_of, number, read_words, refused_words,
    words_are_in_range, words_give, worked_makes, worked_rosters, worked_solves, worked_words,
};
use std::alloc::{AllocError, Global};

/// The budget and the order where no option is given.
const USUAL_BUDGET: Budget = Budget {
    nodes: 100_000,
    pivots: 100_000,
    looks: 100_000_000,
};

const USUAL_ORDER: Order = Order {
    walk: Walk::File,
    lanes: 1,
    seed: 0,
    family: Choice::Auto,
};

/// The words after `solve g`, and the nodes, moves, looks, walk, lanes and seed that they ask for, by hand.
static SEARCHES: [(&[&str], Option<(u64, u64, u64, Walk, u8, u64)>); 22] = [
    (&[], Some((100_000, 100_000, 100_000_000, Walk::File, 1, 0))),
    (
        &["--nodes", "5"],
        Some((5, 100_000, 100_000_000, Walk::File, 1, 0)),
    ),
    (
        &["--nodes=1000000"],
        Some((1_000_000, 100_000, 100_000_000, Walk::File, 1, 0)),
    ),
    (&["--nodes=1000001"], None),
    (&["--nodes=0"], None),
    (
        &["--pivots=1"],
        Some((100_000, 1, 100_000_000, Walk::File, 1, 0)),
    ),
    (
        &["--pivots", "1000000000"],
        Some((100_000, 1_000_000_000, 100_000_000, Walk::File, 1, 0)),
    ),
    (&["--pivots=1000000001"], None),
    (
        &["--looks=1000000000000000000"],
        Some((
            100_000,
            100_000,
            1_000_000_000_000_000_000,
            Walk::File,
            1,
            0,
        )),
    ),
    (&["--looks=1000000000000000001"], None),
    (&["--looks=01"], None),
    (
        &["--order=best", "--lanes=8"],
        Some((100_000, 100_000, 100_000_000, Walk::Best, 8, 0)),
    ),
    (
        &["--seed", "18446744073709551615", "--order", "seeded"],
        Some((100_000, 100_000, 100_000_000, Walk::Seeded, 1, u64::MAX)),
    ),
    (
        &["--lanes=2", "--looks=3", "--pivots=4", "--nodes=6"],
        Some((6, 4, 3, Walk::File, 2, 0)),
    ),
    (&["--lanes=9"], None),
    (&["--lanes=0"], None),
    (&["--lanes=256"], None),
    (&["--order=bes"], None),
    (&["--order", "--lanes=2"], None),
    (&["--family=dense"], None),
    (
        &["--family=auto"],
        Some((100_000, 100_000, 100_000_000, Walk::File, 1, 0)),
    ),
    (&["--lanes=1", "--lanes=1"], None),
];

/// Words and the game that they ask to solve, if any, by hand.
static WORDS: [(&[&str], Option<&str>); 67] = [
    // One name, and one positional word after it.
    (&[], None),
    (&["solve"], None),
    (&["solve", "g"], Some("g")),
    (&["solve", "g", "h"], None),
    (&["solve", "g", "h", "i"], None),
    (&["solve", ""], Some("")),
    (&["solve", "", ""], None),
    (&["solve", "a game.toml"], Some("a game.toml")),
    (&["solve", "jeu-équilibré"], Some("jeu-équilibré")),
    (&["solve", "solve"], Some("solve")),
    (&["solve", "5"], Some("5")),
    (&["solve", "g=5"], Some("g=5")),
    // No other name.
    (&["g"], None),
    (&["", "g"], None),
    (&["SOLVE", "g"], None),
    (&["solv", "g"], None),
    (&["solver", "g"], None),
    (&["solve ", "g"], None),
    (&["g", "solve"], None),
    // `--`, which is no name and no value, and all that comes after it.
    (&["--"], None),
    (&["--", "solve", "g"], None),
    (&["solve", "--"], None),
    (&["solve", "--", "g"], Some("g")),
    (&["solve", "g", "--"], Some("g")),
    (&["solve", "--", "g", "h"], None),
    (&["solve", "g", "--", "h"], None),
    (&["solve", "--", "-x"], Some("-x")),
    (&["solve", "--", "--"], Some("--")),
    (&["solve", "--", "--help"], Some("--help")),
    (&["solve", "--", ""], Some("")),
    (&["solve", "g", "--", "-x"], None),
    // No options, and no other word with a hyphen in front.
    (&["-"], None),
    (&["--="], None),
    (&["--nodes", "5", "solve", "g"], None),
    (&["solve", "--seed", "3", "g", "--seed=3"], None),
    (&["solve", "-x", "g"], None),
    (&["solve", "g", "-x"], None),
    (&["solve", "-"], None),
    (&["solve", "-5"], None),
    // No help and no version.
    (&["help"], None),
    (&["help", "solve"], None),
    (&["solve", "help"], Some("help")),
    (&["--help"], None),
    (&["solve", "g", "--version"], None),
    // Help or a version.
    (&["-h"], None),
    (&["-V"], None),
    (&["--version"], None),
    (&["solve", "--help"], None),
    (&["solve", "g", "--help"], None),
    (&["solve", "-V"], None),
    (&["help", "check"], None),
    (&["help", "show"], None),
    (&["--help", "check", "g", "r"], None),
    // Almost a name.
    (&["CHECK", "g", "r"], None),
    (&["chec", "g", "r"], None),
    (&["checks", "g", "r"], None),
    (&["check ", "g", "r"], None),
    (&["Show", "g", "r"], None),
    (&["sho", "g", "r"], None),
    (&["shown", "g", "r"], None),
    (&["", "g", "r"], None),
    // A name at another place.
    (&["g", "check", "r"], None),
    (&["g", "show", "r"], None),
    (&["--", "check", "g", "r"], None),
    (&["--", "show", "g", "r"], None),
    (&["-x", "check", "g", "r"], None),
    (&["solve", "check", "g", "r"], None),
];

/// The words after `check` or `show`, and the game and the report that they name, by hand.
static PAIRS: [(&[&str], Option<(&str, &str)>); 42] = [
    // Exactly two positional words, the game first.
    (&[], None),
    (&["g"], None),
    (&["g", "r"], Some(("g", "r"))),
    (&["r", "g"], Some(("r", "g"))),
    (&["g", "g"], Some(("g", "g"))),
    (&["g", "r", "x"], None),
    (&["g", "r", "x", "y"], None),
    (&[""], None),
    (&["", ""], Some(("", ""))),
    (&["", "r"], Some(("", "r"))),
    (&["g", ""], Some(("g", ""))),
    (
        &["a game.toml", "its report"],
        Some(("a game.toml", "its report")),
    ),
    (
        &["jeu-équilibré", "réponse"],
        Some(("jeu-équilibré", "réponse")),
    ),
    (&["check", "show"], Some(("check", "show"))),
    (&["help", "solve"], Some(("help", "solve"))),
    (&["g=5", "5"], Some(("g=5", "5"))),
    // `--`, which is no value, and all that comes after it.
    (&["--"], None),
    (&["--", "g"], None),
    (&["g", "--"], None),
    (&["--", "g", "r"], Some(("g", "r"))),
    (&["g", "--", "r"], Some(("g", "r"))),
    (&["g", "r", "--"], Some(("g", "r"))),
    (&["--", "g", "r", "x"], None),
    (&["g", "--", "r", "x"], None),
    (&["g", "r", "--", "x"], None),
    (&["g", "--", "-r"], Some(("g", "-r"))),
    (&["--", "-g", "--report"], Some(("-g", "--report"))),
    (&["g", "--", "--"], Some(("g", "--"))),
    (&["--", "--", "--"], Some(("--", "--"))),
    (&["--", "", ""], Some(("", ""))),
    (&["--", "g", "--help"], Some(("g", "--help"))),
    // No options, and no other word with a hyphen in front.
    (&["g", "-r"], None),
    (&["-g", "r"], None),
    (&["-", "r"], None),
    (&["g", "-"], None),
    (&["g", "-5"], None),
    (&["g", "r", "-x"], None),
    (&["--seed", "3", "g", "r"], None),
    (&["g", "r", "--seed=3"], None),
    // No help and no version.
    (&["--help"], None),
    (&["g", "r", "-h"], None),
    (&["g", "r", "--version"], None),
];

/// The words, and the words behind them.
fn words_in(alloc: Global, texts: &[&str], behind: &[&str]) -> Result<Vec<String>, AllocError> {
    let mut words = Vec::new(alloc);
    for text in texts {
        words.push(text.to_string(alloc)?)?;
    }
    for text in behind {
        words.push(text.to_string(alloc)?)?;
    }
    Ok(words)
}

/// Whether the words give this command.
fn give(
    alloc: Global,
    texts: &[&str],
    behind: &[&str],
    want: Option<Command<'_>>,
) -> Result<bool, AllocError> {
    let words = words_in(alloc, texts, behind)?;
    Ok(command_of(alloc, &words)? == want)
}

fn solve<'a>(game: Option<&'a str>) -> Option<Command<'a>> {
    match game {
        Some(game) => Some(Command::Solve {
            game,
            budget: USUAL_BUDGET,
            order: USUAL_ORDER,
        }),
        None => None,
    }
}

fn check<'a>(pair: Option<(&'a str, &'a str)>) -> Option<Command<'a>> {
    match pair {
        Some((game, report)) => Some(Command::Check { game, report }),
        None => None,
    }
}

fn show<'a>(pair: Option<(&'a str, &'a str)>) -> Option<Command<'a>> {
    match pair {
        Some((game, report)) => Some(Command::Show { game, report }),
        None => None,
    }
}

/// The first words, counted from 0, that ask for another game.
fn first_wrong_game(
    alloc: Global,
    rows: &[(&[&str], Option<&str>)],
) -> Result<Option<usize>, AllocError> {
    for k in 0..rows.len() {
        let (texts, want) = rows[k];
        if !give(alloc, texts, &[], solve(want))? {
            return Ok(Some(k));
        }
    }
    Ok(None)
}

/// The search of the game `g` by these numbers, with the family that is chosen where none is given.
fn search(wanted: Option<(u64, u64, u64, Walk, u8, u64)>) -> Option<Command<'static>> {
    match wanted {
        Some((nodes, pivots, looks, walk, lanes, seed)) => Some(Command::Solve {
            game: "g",
            budget: Budget {
                nodes,
                pivots,
                looks,
            },
            order: Order {
                walk,
                lanes,
                seed,
                family: Choice::Auto,
            },
        }),
        None => None,
    }
}

/// The first words, counted from 0, that ask for another search.
fn first_wrong_search(
    alloc: Global,
    rows: &[(&[&str], Option<(u64, u64, u64, Walk, u8, u64)>)],
) -> Result<Option<usize>, AllocError> {
    for k in 0..rows.len() {
        let (texts, want) = rows[k];
        if !give(alloc, &["solve", "g"], texts, search(want))? {
            return Ok(Some(k));
        }
    }
    Ok(None)
}

#[test]
fn searches_have_options(rt: HostRuntime) -> Result<(), AllocError> {
    words_are_in_range();
    worked_solves();
    assert_eq!(rt; first_wrong_search(rt.alloc(), &SEARCHES)?, None);
    let listed = Command::Solve {
        game: "g",
        budget: USUAL_BUDGET,
        order: Order {
            family: Choice::Listed,
            ..USUAL_ORDER
        },
    };
    assert!(rt;
        give(
            rt.alloc(),
            &["solve", "g"],
            &["--family", "listed"],
            Some(listed)
        )?
    );
    Ok(())
}

/// The first words, counted from 0, that name another pair behind `check` or behind `show`.
fn first_wrong_pair(
    alloc: Global,
    rows: &[(&[&str], Option<(&str, &str)>)],
) -> Result<Option<usize>, AllocError> {
    for k in 0..rows.len() {
        let (texts, want) = rows[k];
        let is_checked = give(alloc, &["check"], texts, check(want))?;
        let is_shown = give(alloc, &["show"], texts, show(want))?;
        if !is_checked || !is_shown {
            return Ok(Some(k));
        }
    }
    Ok(None)
}

#[test]
fn words_name_files(rt: HostRuntime) -> Result<(), AllocError> {
    words_give();
    worked_words();
    refused_words();
    assert_eq!(rt; first_wrong_game(rt.alloc(), &WORDS)?, None);
    assert_eq!(rt; first_wrong_pair(rt.alloc(), &PAIRS)?, None);
    Ok(())
}

#[test]
fn long_words_are_names(rt: HostRuntime) -> Result<(), AllocError> {
    let alloc = rt.alloc();
    let long = "g".repeat(alloc, 100_000)?;
    let word = long.as_str();
    assert!(rt; give(alloc, &["solve", word], &[], solve(Some(word)))?);
    assert!(rt;
        give(
            alloc,
            &["check", word, word],
            &[],
            check(Some((word, word)))
        )?
    );
    Ok(())
}

/// A made-up table: options of each kind, and a positional word that is fixed.
static TABLE: [Usage<'static>; 2] = [
    Usage {
        name: "list",
        positionals: &[Kind::Any, Kind::Any],
        options: &[Setting {
            name: "seed",
            kind: Kind::Number {
                least: 0,
                greatest: u64::MAX,
            },
            default: "0",
        }],
    },
    Usage {
        name: "try",
        positionals: &[Kind::Fixed("game"), Kind::Any],
        options: &[
            Setting {
                name: "lanes",
                kind: Kind::Number {
                    least: 2,
                    greatest: 8,
                },
                default: "2",
            },
            Setting {
                name: "order",
                kind: Kind::Choice(&["file", "best", "seeded"]),
                default: "file",
            },
        ],
    },
];

/// The words after `list`, and the arguments that they give, by hand: two names, and the seed.
static LISTS: [(&[&str], Option<&[&str]>); 62] = [
    // The option at any place, apart or joined, and its default.
    (&["g", "r"], Some(&["g", "r", "0"])),
    (&["g", "r", "--seed", "3"], Some(&["g", "r", "3"])),
    (&["g", "--seed", "3", "r"], Some(&["g", "r", "3"])),
    (&["--seed", "3", "g", "r"], Some(&["g", "r", "3"])),
    (&["g", "r", "--seed=3"], Some(&["g", "r", "3"])),
    (&["--seed=3", "g", "r"], Some(&["g", "r", "3"])),
    (&["", "", "--seed", "0"], Some(&["", "", "0"])),
    // Whole numbers of the range, in their one spelling.
    (&["g", "r", "--seed", "0"], Some(&["g", "r", "0"])),
    (&["g", "r", "--seed", "9"], Some(&["g", "r", "9"])),
    (&["g", "r", "--seed", "10"], Some(&["g", "r", "10"])),
    (
        &["g", "r", "--seed", "18446744073709551615"],
        Some(&["g", "r", "18446744073709551615"]),
    ),
    (&["g", "r", "--seed", "18446744073709551616"], None),
    (&["g", "r", "--seed", "99999999999999999999"], None),
    (&["g", "r", "--seed", "100000000000000000000"], None),
    (&["g", "r", "--seed", "000000000000000000001"], None),
    (&["g", "r", "--seed", "01"], None),
    (&["g", "r", "--seed", "00"], None),
    (&["g", "r", "--seed=03"], None),
    (&["g", "r", "--seed", "+1"], None),
    (&["g", "r", "--seed=+1"], None),
    (&["g", "r", "--seed=-1"], None),
    (&["g", "r", "--seed", " 1"], None),
    (&["g", "r", "--seed", "1 "], None),
    (&["g", "r", "--seed", "1.0"], None),
    (&["g", "r", "--seed", "1e3"], None),
    (&["g", "r", "--seed", "0x1"], None),
    (&["g", "r", "--seed", "1_000"], None),
    (&["g", "r", "--seed", "three"], None),
    (&["g", "r", "--seed", "\u{663}"], None),
    (&["g", "r", "--seed", ":"], None),
    (&["g", "r", "--seed", "/"], None),
    // A value, and one that isn't behind a hyphen.
    (&["g", "r", "--seed"], None),
    (&["g", "r", "--seed", ""], None),
    (&["g", "r", "--seed="], None),
    (&["g", "r", "--seed", "-1"], None),
    (&["g", "r", "--seed", "-"], None),
    (&["g", "r", "--seed", "--", "5"], None),
    (&["g", "--seed", "--", "5"], None),
    (&["g", "r", "--seed", "--seed=3"], None),
    (&["g", "r", "--seed==3"], None),
    (&["g", "r", "--seed=3=3"], None),
    // At most once.
    (&["g", "r", "--seed=3", "--seed=3"], None),
    (&["g", "r", "--seed", "3", "--seed", "3"], None),
    (&["--seed", "3", "g", "r", "--seed=3"], None),
    (&["--seed=3", "g", "r", "--seed", "4"], None),
    // The whole name, and no other.
    (&["g", "r", "--see", "3"], None),
    (&["g", "r", "--see=3"], None),
    (&["g", "r", "--seeds", "3"], None),
    (&["g", "r", "--Seed", "3"], None),
    (&["g", "r", "-seed", "3"], None),
    (&["g", "r", "-s", "3"], None),
    (&["g", "r", "--=3"], None),
    (&["g", "r", "--lanes", "3"], None),
    (&["g", "r", "--help"], None),
    // What stands behind `--` is a name.
    (&["--", "--seed", "3"], Some(&["--seed", "3", "0"])),
    (&["g", "--", "--seed=3"], Some(&["g", "--seed=3", "0"])),
    (&["--seed", "3", "--", "g", "-r"], Some(&["g", "-r", "3"])),
    (&["g", "--seed=3", "--", "--"], Some(&["g", "--", "3"])),
    (&["--", "g", "r", "--seed=3"], None),
    (&["--seed", "3"], None),
    (&["g", "--seed", "3"], None),
    (&["g", "r", "x", "--seed", "3"], None),
];

/// The words after `try`, and the arguments that they give, by hand: a fixed word, a name, the lanes and the order.
static TRIES: [(&[&str], Option<&[&str]>); 30] = [
    (&["game", "f"], Some(&["game", "f", "2", "file"])),
    (&["game", "game"], Some(&["game", "game", "2", "file"])),
    (&["--", "game", "f"], Some(&["game", "f", "2", "file"])),
    (&["game", "--", "-f"], Some(&["game", "-f", "2", "file"])),
    (&["Game", "f"], None),
    (&["gam", "f"], None),
    (&["games", "f"], None),
    (&["f", "game"], None),
    (&["game"], None),
    (&["game", "f", "f"], None),
    (&[], None),
    // Both ends of a range, and one past them.
    (
        &["game", "f", "--lanes", "2"],
        Some(&["game", "f", "2", "file"]),
    ),
    (
        &["game", "f", "--lanes", "8"],
        Some(&["game", "f", "8", "file"]),
    ),
    (
        &["game", "--lanes=5", "f"],
        Some(&["game", "f", "5", "file"]),
    ),
    (&["game", "f", "--lanes", "1"], None),
    (&["game", "f", "--lanes", "9"], None),
    (&["game", "f", "--lanes", "0"], None),
    (&["game", "f", "--lanes", "02"], None),
    (&["game", "f", "--lanes", "18446744073709551618"], None),
    // One of the words.
    (
        &["game", "f", "--order", "file"],
        Some(&["game", "f", "2", "file"]),
    ),
    (
        &["game", "--order=best", "f"],
        Some(&["game", "f", "2", "best"]),
    ),
    (
        &["--order", "seeded", "game", "f"],
        Some(&["game", "f", "2", "seeded"]),
    ),
    (&["game", "f", "--order", "Best"], None),
    (&["game", "f", "--order", "bes"], None),
    (&["game", "f", "--order", ""], None),
    (&["game", "f", "--order", "best", "--order", "best"], None),
    // Options in any order, each with its own value.
    (
        &["--order", "best", "game", "--lanes=3", "f"],
        Some(&["game", "f", "3", "best"]),
    ),
    (
        &["--lanes=3", "game", "f", "--order", "best"],
        Some(&["game", "f", "3", "best"]),
    ),
    (&["game", "f", "--lanes", "best", "--order", "3"], None),
    (&["game", "f", "--lanes", "--order", "best"], None),
];

/// The roster that these arguments ask for.
fn roster<'a>(arguments: Option<&[&'a str]>) -> Option<Command<'a>> {
    match arguments {
        Some([game, report, seed]) => Some(Command::Roster {
            game: *game,
            report: *report,
            seed: number(*seed),
        }),
        _ => None,
    }
}

/// The first words, counted from 0, that ask for another roster.
fn first_wrong_roster(
    alloc: Global,
    rows: &[(&[&str], Option<&[&str]>)],
) -> Result<Option<usize>, AllocError> {
    for k in 0..rows.len() {
        let (texts, want) = rows[k];
        if !give(alloc, &["roster"], texts, roster(want))? {
            return Ok(Some(k));
        }
    }
    Ok(None)
}

#[test]
fn rosters_name_a_seed(rt: HostRuntime) -> Result<(), AllocError> {
    worked_rosters();
    assert_eq!(rt; first_wrong_roster(rt.alloc(), &LISTS)?, None);
    Ok(())
}

/// The words after `make`, and the shape and the seed that they name, by hand.
static MAKES: [(&[&str], Option<(&str, u64)>); 17] = [
    (&["free-1-0", "0"], Some(("free-1-0", 0))),
    (
        &["free-1-0", "18446744073709551615"],
        Some(("free-1-0", u64::MAX)),
    ),
    (&["free-1-0", "18446744073709551616"], None),
    // What is no shape is no matter of words.
    (&["no shape", "7"], Some(("no shape", 7))),
    (&["", "7"], Some(("", 7))),
    // Seeds in their one spelling.
    (&["free-1-0", "07"], None),
    (&["free-1-0", ""], None),
    (&["free-1-0", "+7"], None),
    (&["free-1-0", "-7"], None),
    // What stands behind `--`.
    (&["free-1-0", "--", "7"], Some(("free-1-0", 7))),
    (&["--", "-x", "7"], Some(("-x", 7))),
    (&["--", "free-1-0", "-7"], None),
    // Exactly two words, and no option.
    (&[], None),
    (&["free-1-0"], None),
    (&["free-1-0", "7", "8"], None),
    (&["free-1-0", "--seed", "7"], None),
    (&["7", "free-1-0"], None),
];

fn make<'a>(named: Option<(&'a str, u64)>) -> Option<Command<'a>> {
    match named {
        Some((shape, seed)) => Some(Command::Make { shape, seed }),
        None => None,
    }
}

/// The first words, counted from 0, that ask for another generated game.
fn first_wrong_make(
    alloc: Global,
    rows: &[(&[&str], Option<(&str, u64)>)],
) -> Result<Option<usize>, AllocError> {
    for k in 0..rows.len() {
        let (texts, want) = rows[k];
        if !give(alloc, &["make"], texts, make(want))? {
            return Ok(Some(k));
        }
    }
    Ok(None)
}

#[test]
fn makes_name_a_shape_and_a_seed(rt: HostRuntime) -> Result<(), AllocError> {
    worked_makes();
    assert_eq!(rt; first_wrong_make(rt.alloc(), &MAKES)?, None);
    Ok(())
}

/// Whether the words give these arguments of a command of the made-up table.
fn are_read(
    alloc: Global,
    name: &str,
    behind: &[&str],
    want: Option<&[&str]>,
) -> Result<bool, AllocError> {
    let words = words_in(alloc, &[name], behind)?;
    match (read_words(alloc, &TABLE, &words)?, want) {
        (Some(given), Some(texts)) => {
            Ok(given.name == name && given.arguments.as_slice() == texts)
        }
        (None, None) => Ok(true),
        _ => Ok(false),
    }
}

/// The first words, counted from 0, that give other arguments.
fn first_misread(
    alloc: Global,
    name: &str,
    rows: &[(&[&str], Option<&[&str]>)],
) -> Result<Option<usize>, AllocError> {
    for k in 0..rows.len() {
        let (texts, want) = rows[k];
        if !are_read(alloc, name, texts, want)? {
            return Ok(Some(k));
        }
    }
    Ok(None)
}

#[test]
fn options_are_read(rt: HostRuntime) -> Result<(), AllocError> {
    let alloc = rt.alloc();
    assert_eq!(rt; first_misread(alloc, "list", &LISTS)?, None);
    assert_eq!(rt; first_misread(alloc, "try", &TRIES)?, None);
    assert!(rt; are_read(alloc, "lists", &["g", "r"], None)?);
    assert!(rt; are_read(alloc, "--seed", &["3", "list", "g", "r"], None)?);
    Ok(())
}

#[test]
fn numbers_are_read(rt: HostRuntime) {
    assert_eq!(rt; number("0"), 0);
    assert_eq!(rt; number("10"), 10);
    assert_eq!(rt; number("18446744073709551615"), u64::MAX);
}
