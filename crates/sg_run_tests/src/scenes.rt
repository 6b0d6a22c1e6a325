//! What runs are given, and what they answer.

use sg_cli::run;
use sg_shelf::{MemShelf, MemSink, NamedBytes, Shelf};
use std::alloc::{AllocError, Global};

/// What a run ends with, and what the two outputs take.
#[derive(Clone, Copy)]
pub(crate) struct Answer<'a> {
    pub(crate) status: u8,
    pub(crate) out: &'a str,
    pub(crate) err: &'a str,
}

/// Which puts of the two outputs fail, by their numbers, and how many bytes each then takes.
#[derive(Clone, Copy)]
pub(crate) struct Failing<'a> {
    pub(crate) out: (&'a [u64], usize),
    pub(crate) err: (&'a [u64], usize),
}

/// No put fails.
pub(crate) const NO_PUT: Failing<'static> = Failing {
    out: (&[], 0),
    err: (&[], 0),
};

/// A game of the given top keys, whose one attacker has these payoffs.
pub(crate) fn game_text(alloc: Global, keys: &str, payoffs: &str) -> Result<String, AllocError> {
    format!(in alloc;
        "version = 1\nform = \"security\"\n{keys}\n\n[[type]]\nname = \"thief\"\nprior = 1\npayoffs = {payoffs}\n"
    )
}

/// The words, as a program is given them.
pub(crate) fn words_of(alloc: Global, words: &[&str]) -> Result<Vec<String>, AllocError> {
    let mut all = Vec::new(alloc);
    for word in words {
        all.push(String::from_str(alloc, word)?)?;
    }
    Ok(all)
}

/// A file of these bytes.
fn file_of(alloc: Global, name: &str, bytes: &[u8]) -> Result<NamedBytes, AllocError> {
    Ok(NamedBytes {
        name: String::from_str(alloc, name)?,
        bytes: Vec::from_slice(alloc, bytes)?,
    })
}

/// A shelf of the files `game.toml` and `report`, whose reads with these numbers fail.
pub(crate) fn shelf_of(
    alloc: Global,
    game: &[u8],
    report: Option<&str>,
    fails: &[u64],
) -> Result<MemShelf, AllocError> {
    let mut files = Vec::new(alloc);
    files.push(file_of(alloc, "game.toml", game)?)?;
    if let Some(report) = report {
        files.push(file_of(alloc, "report", report.as_bytes())?)?;
    }
    Ok(MemShelf::new(files, Vec::from_slice(alloc, fails)?))
}

/// An output, of which the puts with these numbers fail after so many bytes.
pub(crate) fn sink_of(alloc: Global, fails: &[u64], keep: usize) -> Result<MemSink, AllocError> {
    MemSink::new(alloc, Vec::from_slice(alloc, fails)?, keep)
}

/// Whether a run on this shelf answers so.
pub(crate) fn answers_on<S: Shelf>(
    alloc: Global,
    words: &[&str],
    shelf: &mut S,
    failing: &Failing,
    expected: &Answer,
) -> Result<bool, AllocError> {
    let words = words_of(alloc, words)?;
    let mut out = sink_of(alloc, failing.out.0, failing.out.1)?;
    let mut err = sink_of(alloc, failing.err.0, failing.err.1)?;
    let status = run(alloc, &words, shelf, &mut out, &mut err);
    Ok(
        status == expected.status
            && out.bytes() == expected.out.as_bytes()
            && err.bytes() == expected.err.as_bytes(),
    )
}

/// Whether a run on these files, with no fault of the outside, answers so.
pub(crate) fn answers(
    alloc: Global,
    words: &[&str],
    game: &[u8],
    report: Option<&str>,
    expected: &Answer,
) -> Result<bool, AllocError> {
    let mut shelf = shelf_of(alloc, game, report, &[])?;
    answers_on(alloc, words, &mut shelf, &NO_PUT, expected)
}
