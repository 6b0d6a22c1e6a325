//! The arguments of a command in what a parse found: each text is of its kind, and each option has one value.

ghost use Rattle.std.specs.Prelude.{◌≡◌, ◌++◌, IfOk, map, option_map, if◌then◌else◌};
ghost use Rattle.clap.specs.Words.{found_of, rows_of};
ghost use Rattle.sg_words.specs.Kinds.{kind_written};
ghost use Rattle.sg_words.specs.Usages.{are_of, option_value, setting_of, usage_of, values_by};
ghost use Rattle.sg_words.specs.Line.{arguments_in, texts_in, words_id};

use crate::kind::Kind;
use crate::usage::{Setting, Usage};
use clap::ArgMatches;
use std::alloc::{AllocError, Global};

/// The id of the positional words, which no option's name is.
pub(crate) const WORDS: &str = "=";

/// The positional words that a parse found.
fn words_in<'a>(alloc: Global, found: &ArgMatches<'a>) -> Result<Vec<&'a str>, AllocError>
    ensures { IfOk result (λ words. map (λ word. word.now) words.items ≡ texts_in words_id (rows_of (found_of found.now))) }
{
    match found.get_raw(WORDS) {
        Some(words) => Vec::from_slice(alloc, words),
        None => Ok(Vec::new(alloc)),
    }
}

/// Whether there are as many texts as kinds, each of its kind.
fn are_of(kinds: &[Kind<'_>], texts: &[&str]) -> bool
    ensures { result ≡ are_of (map kind_written kinds.now) (map (λ text. text.now) texts.now) }
{
    if kinds.len() != texts.len() {
        return false;
    }
    for k in 0..kinds.len() {
        if !kinds[k].is_of(texts[k]) {
            return false;
        }
    }
    true
}

/// The value of an option, by the values that the words give to it.
fn option_value<'a>(setting: &Setting<'a>, values: &[&'a str]) -> Option<&'a str>
    ensures { option_map (λ text. text.now) result ≡ option_value (setting_of setting.now) (map (λ text. text.now) values.now) }
{
    match values {
        [] => Some(setting.default),
        [value] => {
            if setting.kind.is_of(value) {
                Some(*value)
            } else {
                None
            }
        }
        _ => None,
    }
}

/// The value of an option in what a parse found.
fn value_in<'a>(setting: &Setting<'a>, found: &ArgMatches<'a>) -> Option<&'a str>
    ensures { option_map (λ text. text.now) result
        ≡ option_value (setting_of setting.now) (texts_in setting.now.name.now (rows_of (found_of found.now))) }
{
    match found.get_raw(setting.name) {
        Some(values) => option_value(setting, values),
        None => Some(setting.default),
    }
}

/// Puts the value of each option behind the texts. Whether each has one.
fn push_values<'a>(
    settings: &[Setting<'a>],
    found: &ArgMatches<'a>,
    texts: &mut Vec<&'a str>,
) -> Result<bool, AllocError>
    ensures { IfOk result (λ all. (if all then Some (map (λ text. text.now) texts.new.items) else None)
        ≡ option_map (λ values. map (λ text. text.now) texts.old.items ++ values)
        (values_by (map setting_of settings.now) (λ name. texts_in name (rows_of (found_of found.now))))) }
{
    for setting in settings {
        match value_in(setting, found) {
            Some(value) => texts.push(value)?,
            None => return Ok(false),
        }
    }
    Ok(true)
}

/// The arguments of a command in what a parse found, or `None` where the words give none.
pub(crate) fn arguments_in<'a>(
    alloc: Global,
    usage: &Usage<'a>,
    found: &ArgMatches<'a>,
) -> Result<Option<Vec<&'a str>>, AllocError>
    ensures { IfOk result (λ r. option_map (λ texts. map (λ text. text.now) texts.items) r
        ≡ arguments_in (usage_of usage.now) (rows_of (found_of found.now))) }
{
    let mut texts = words_in(alloc, found)?;
    if !are_of(usage.positionals, texts.as_slice()) {
        return Ok(None);
    }
    if push_values(usage.options, found, &mut texts)? {
        Ok(Some(texts))
    } else {
        Ok(None)
    }
}
