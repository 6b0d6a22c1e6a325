//! What a positional word or an option's value must be.

ghost use Rattle.std.specs.Prelude.{◌≡◌, bytes_eq, map};
ghost use Rattle.std.specs.List.{list_all, list_any};
ghost use Rattle.sg_words.specs.Kinds.{has_leading_zero, is_decimal_digit, is_number, is_of, kind_written, number_in, number_read};

/// What a positional word or an option's value must be.
#[derive(Clone, Copy, Debug)]
pub enum Kind<'a> {
    /// Any text, also an empty one.
    Any,
    /// This word.
    Fixed(&'a str),
    /// A whole number of this range, written in 1 to 20 decimal digits with no sign and no leading zero.
    Number {
        /// The first number of the range.
        least: u64,
        /// The last number of the range.
        greatest: u64,
    },
    /// One of these words.
    Choice(&'a [&'a str]),
}

fn is_digit(code: u8) -> bool
    ensures { result ≡ is_decimal_digit code }
{
    b'0' <= code && code <= b'9'
}

fn are_digits(text: &[u8]) -> bool
    ensures { result ≡ list_all is_decimal_digit text.now }
{
    for code in text {
        if !is_digit(*code) {
            return false;
        }
    }
    true
}

fn has_leading_zero(text: &[u8]) -> bool
    ensures { result ≡ has_leading_zero text.now }
{
    match text {
        [first, _, ..] => *first == b'0',
        _ => false,
    }
}

fn is_number(text: &[u8]) -> bool
    ensures { result ≡ is_number text.now }
{
    1 <= text.len() && text.len() <= 20 && are_digits(text) && !has_leading_zero(text)
}

/// The number that a text writes in its one spelling, if it fits 64 bits.
fn number_in(text: &str) -> Option<u64>
    ensures { result ≡ number_in text.now }
{
    if !is_number(text.as_bytes()) {
        return None;
    }
    match text.parse::<u64>() {
        Ok(number) => Some(number),
        Err(_) => None,
    }
}

fn is_one_of(words: &[&str], text: &str) -> bool
    ensures { result ≡ list_any (λ word. bytes_eq word text.now) (map (λ word. word.now) words.now) }
{
    for word in words {
        if *word == text {
            return true;
        }
    }
    false
}

impl<'a> Kind<'a> {
    /// Whether the text is of this kind.
    pub fn is_of(&self, text: &str) -> bool
        ensures { result ≡ is_of (kind_written self.now) text.now }
    {
        match *self {
            Kind::Any => true,
            Kind::Fixed(word) => word == text,
            Kind::Number { least, greatest } => match number_in(text) {
                Some(number) => least <= number && number <= greatest,
                None => false,
            },
            Kind::Choice(words) => is_one_of(words, text),
        }
    }
}

/// The number that a text of a kind `Number` writes, and 0 for another text.
pub fn number(text: &str) -> u64
    ensures { result ≡ number_read text.now }
{
    match number_in(text) {
        Some(number) => number,
        None => 0,
    }
}
