//! The refusal that comes before the parse: a word before the first `--` that begins with a hyphen and isn't written as an option of
//! the command.

ghost use Rattle.std.specs.Prelude.{◌≡◌, ◌==◌, map, string_bytes};
ghost use Rattle.std.specs.List.{before_first};
ghost use Rattle.sg_words.specs.Words.{begins_with_hyphen, has_name};
ghost use Rattle.sg_words.specs.Stray.{is_stray, is_written, has_stray};

use crate::usage::Setting;

fn begins_with_hyphen(word: &str) -> bool
    ensures { result ≡ begins_with_hyphen word.now }
{
    match word.as_bytes() {
        [first, ..] => *first == b'-',
        [] => false,
    }
}

/// Whether one of the options has this name.
fn has_name(settings: &[Setting<'_>], name: &[u8]) -> bool
    ensures { result ≡ has_name (map (λ setting. setting.name.now) settings.now) name.now }
{
    for setting in settings {
        if setting.name.as_bytes() == name {
            return true;
        }
    }
    false
}

/// What stands before the first `=`, or all where there is none.
fn name_in(text: &[u8]) -> &[u8]
    ensures { result.now ≡ before_first (λ code. code == 61) text.now }
{
    for k in 0..text.len() {
        if text[k] == b'=' {
            return &text[..k];
        }
    }
    text
}

/// Whether the word is `--name` or `--name=value` of one of the options.
fn is_written(settings: &[Setting<'_>], word: &str) -> bool
    ensures { result ≡ is_written (map (λ setting. setting.name.now) settings.now) word.now }
{
    match word.as_bytes() {
        [b'-', b'-', _, ..] => has_name(settings, name_in(&word.as_bytes()[2..])),
        _ => false,
    }
}

/// Whether the word begins with a hyphen and is none of the options.
fn is_stray(settings: &[Setting<'_>], word: &str) -> bool
    ensures { result ≡ is_stray (map (λ setting. setting.name.now) settings.now) word.now }
{
    begins_with_hyphen(word) && !is_written(settings, word)
}

/// A word before the first `--` begins with a hyphen and is no option of the command.
pub(crate) fn has_stray(settings: &[Setting<'_>], words: &[String]) -> bool
    ensures { result ≡ has_stray (map (λ setting. setting.name.now) settings.now) (map string_bytes words.now) }
{
    for word in words {
        if word.as_str() == "--" {
            return false;
        }
        if is_stray(settings, word.as_str()) {
            return true;
        }
    }
    false
}
