//! The fields of a line, and the numbers that they are.

ghost use Rattle.std.specs.Prelude.{◌≡◌, ◌∷◌, [], ◌+◌, ◌-◌, ◌<◌, ◌≤◌, ◌≤ℤ◌, ◌^◌, List, ℕ, true, MatchOption, IfSome, IfOk, codes, bytes_eq, slice_get, drop, ◌==◌, position, IsTrue, ◌↔◌, length, min};
ghost use Rattle.std.specs.Option.{option_map, option_copied};
ghost use Rattle.std.specs.List.{list_all, count_by};
ghost use Rattle.std.specs.Str.Parse.{digits_value};
ghost use Rattle.sg_cert.specs.Fields.{fields, is_natural, is_digit, is_number_text, value_of, fitting, split_once, natural_of, natural_next, whole_of, whole_next, numbers_of, is_word, has_word, word_at, words_of, spelled_at, spelled_of, count_is, count_follows, shaped_if, shaped_as, shaped_to};
ghost use Rattle.sg_cert_reader.specs.Steps.{Steps};

use sqlite_items::Items;
use std::alloc::{AllocError, Global};
use std::marker::Model;

/// The fields of a line that are left.
#[derive(Drop)]
pub struct Fields<'a> {
    rest: &'a [u8],
    ended: bool,
}

impl<'a> Model for Fields<'a> {
    ghost use Rattle.std.specs.Prelude.{List, ℕ};

    ghost Value = { List (List ℕ) };

    ghost use Rattle.sg_cert_reader.specs.Steps.{fields_left};

    ghost view = { λ f. fields_left f.rest.now f.ended };
}

/// Where such a byte stands first.
fn find_byte(bytes: &[u8], byte: u8) -> Option<usize>
    ensures place { result ≡ position (λ x. x == byte) bytes.now }
    ensures within { IfSome result (λ i. i < length bytes.now) }
{
    bytes.iter().position(|x| *x == byte)
}

/// The bytes before the first such byte and the bytes after it.
pub fn split_at_byte(bytes: &[u8], byte: u8) -> Option<(&[u8], &[u8])>
    ensures parts { option_map (λ x. (x.0.now, x.1.now)) result ≡ split_once byte bytes.now }
    ensures shorter { IfSome result (λ x. length x.1.now < length bytes.now) }
{
    match find_byte(bytes, byte) {
        None => None,
        Some(at) => Some((&bytes[..at], &bytes[at + 1..])),
    }
}

impl<'a> Fields<'a> {
    pub fn new(line: &'a [u8]) -> Fields<'a>
        ensures { result ≡ fields line.now }
    {
        Fields {
            rest: line,
            ended: false,
        }
    }

    /// The next field.
    pub fn take(&mut self) -> Option<&'a [u8]>
        ensures taken { MatchOption result ((self.old ≡ []) × (self.new ≡ [])) (λ f. self.old ≡ f.now ∷ self.new) }
        ensures first { option_copied result ≡ slice_get self.old 0 }
        ensures rest { self.new ≡ drop 1 self.old }
    {
        if self.ended {
            return None;
        }
        match split_at_byte(self.rest, b' ') {
            Some((field, after)) => {
                self.rest = after;
                Some(field)
            }
            None => {
                self.ended = true;
                Some(self.rest)
            }
        }
    }
}

fn is_digit_byte(b: u8) -> bool
    ensures { result ≡ is_digit b }
{
    b'0' <= b && b <= b'9'
}

fn are_digits(text: &[u8]) -> bool
    ensures { result ≡ list_all is_digit text.now }
{
    text.iter().all(|b| is_digit_byte(*b))
}

/// Digits of which the first isn't 0, or just 0.
fn is_plain(text: &[u8]) -> bool
    ensures { result ≡ is_natural text.now }
{
    match text {
        [] => false,
        [b] => is_digit_byte(*b),
        [b, others @ ..] => b'0' < *b && *b <= b'9' && are_digits(others),
    }
}

/// Whether a field is a number in the one spelling.
pub fn is_number(text: &[u8]) -> bool
    ensures { result ≡ is_number_text text.now }
{
    match text {
        [] => false,
        [b'-', digits @ ..] => is_plain(digits) && digits != b"0".as_slice(),
        _ => is_plain(text),
    }
}

/// The value of the digits, or the greatest number where that is less.
fn magnitude(digits: &[u8]) -> u128
    requires { list_all is_digit digits.now ≡ true }
    ensures { result ≡ min (digits_value 10 digits.now) (2 ^ 128 - 1) }
{
    let mut value: u128 = 0;
    for b in digits {
        value = value
            .saturating_mul(10)
            .saturating_add(u128::from(*b - b'0'));
    }
    value
}

/// The number that a field spells, where it spells one that fits.
pub fn number(text: &[u8]) -> Option<i128>
    ensures { result ≡ fitting text.now }
{
    const TOP: u128 = 1 << 127;
    if !is_number(text) {
        return None;
    }
    match text {
        [b'-', digits @ ..] => {
            let size = magnitude(digits);
            if size < TOP {
                Some(-(size as i128))
            } else if size == TOP {
                Some(i128::MIN)
            } else {
                None
            }
        }
        _ => {
            let size = magnitude(text);
            if size < TOP { Some(size as i128) } else { None }
        }
    }
}

/// A field as a whole number from `low` to `high`.
pub fn natural(field: &[u8], low: u128, high: u128) -> Result<u128, u8>
    ensures read { result ≡ natural_of low high (fitting field.now) }
    ensures within { IfOk result (λ n. (low ≤ n) × (n ≤ high)) }
{
    match number(field) {
        None => Err(6),
        Some(z) => {
            if z < 0 {
                Err(6)
            } else {
                let n = z as u128;
                if low <= n && n <= high { Ok(n) } else { Err(6) }
            }
        }
    }
}

/// A field as a whole number from `low` to `high`, of either sign.
fn whole(field: &[u8], low: i128, high: i128) -> Result<i128, u8>
    ensures read { result ≡ whole_of low high (fitting field.now) }
    ensures within { IfOk result (λ z. (low ≤ℤ z) × (z ≤ℤ high)) }
{
    match number(field) {
        None => Err(6),
        Some(z) => if low <= z && z <= high { Ok(z) } else { Err(6) },
    }
}

impl<'a> Fields<'a> {
    /// The fields of a line from a place on, from 0.
    pub fn after(at: usize, line: &'a [u8]) -> Fields<'a>
        ensures { result ≡ drop at (fields line.now) }
    {
        let mut left = Fields::new(line);
        for _ in 0..at {
            left.skip();
        }
        left
    }

    /// Leaves out the next field.
    pub fn skip(&mut self)
        ensures { self.new ≡ drop 1 self.old }
    {
        let _ = self.take();
    }

    /// The next field as a whole number from `low` to `high`.
    pub fn natural(&mut self, low: u128, high: u128) -> Result<u128, u8>
        ensures read { Steps result self.new (natural_next low high self.old) }
        ensures within { IfOk result (λ n. (low ≤ n) × (n ≤ high)) }
    {
        match self.take() {
            None => Err(6),
            Some(field) => natural(field, low, high),
        }
    }

    /// The next field as a whole number from `low` to `high`, of either sign.
    pub fn whole(&mut self, low: i128, high: i128) -> Result<i128, u8>
        ensures read { Steps result self.new (whole_next low high self.old) }
        ensures within { IfOk result (λ z. (low ≤ℤ z) × (z ≤ℤ high)) }
    {
        match self.take() {
            None => Err(6),
            Some(field) => whole(field, low, high),
        }
    }
}

/// All fields that are left, as numbers from 0 or 1 to 65,535.
pub fn numbers(alloc: Global, left: Fields, low: u128) -> Result<Result<Items<u16>, u8>, AllocError>
    ensures { IfOk result (λ read. read ≡ numbers_of low 65535 [] left.entry) }
{
    let mut left = left;
    let mut numbers = Items::new(alloc);
    while let Some(field) = left.take() {
        match natural(field, low, 65_535) {
            Ok(n) => numbers.push(n as u16)?,
            Err(reason) => return Ok(Err(reason)),
        }
    }
    Ok(Ok(numbers))
}

/// Whether a word is the field at a place, from 0.
pub fn has_word_at(at: usize, word: &[u8], line: &[u8]) -> bool
    ensures { result ≡ has_word at word.now (fields line.now) }
{
    match field_at(at, line) {
        None => false,
        Some(field) => word == field,
    }
}

/// The field at a place, from 0.
fn field_at(at: usize, line: &[u8]) -> Option<&[u8]>
    ensures { option_copied result ≡ slice_get (fields line.now) at }
{
    let mut left = Fields::after(at, line);
    left.take()
}

fn is_place(word: &[u8]) -> bool
    ensures { result ≡ bytes_eq word.now (codes "#") }
{
    word == b"#".as_slice()
}

/// Whether a field is the word that is due.
fn fits_word(word: &[u8], field: Option<&[u8]>) -> Result<(), u8>
    ensures { result ≡ word_at word.now (option_copied field.entry) }
{
    match field {
        None => { if is_place(word) { Ok(()) } else { Err(4) } }
        Some(field) => {
            if is_place(word) || word == field {
                Ok(())
            } else {
                Err(3)
            }
        }
    }
}

/// Whether the fixed words stand where they are due.
fn has_words(words: &[u8], line: &[u8]) -> Result<(), u8>
    ensures { result ≡ words_of (fields words.now) (fields line.now) }
{
    let mut words = Fields::new(words);
    let mut left = Fields::new(line);
    while let Some(word) = words.take() {
        match fits_word(word, left.take()) {
            Ok(()) => {}
            Err(reason) => return Err(reason),
        }
    }
    Ok(())
}

/// Whether a field is a number in the one spelling, where a number is due.
fn is_spelled_field(word: Option<&[u8]>, field: &[u8]) -> bool
    ensures { result ≡ spelled_at (option_copied word.entry) field.now }
{
    match word {
        None => is_number(field),
        Some(word) => !is_place(word) || is_number(field),
    }
}

/// Whether all other fields are numbers in the one spelling.
fn is_spelled(words: &[u8], line: &[u8]) -> bool
    ensures { result ≡ spelled_of (fields words.now) (fields line.now) }
{
    let mut words = Fields::new(words);
    let mut left = Fields::new(line);
    while let Some(field) = left.take() {
        if !is_spelled_field(words.take(), field) {
            return false;
        }
    }
    true
}

fn spaces_count(line: &[u8]) -> usize
    ensures { result ≡ count_by (λ b. b == 32) line.now }
{
    line.iter().filter(|b| **b == b' ').count()
}

/// The words, then the count of fields as was tested, then the spelling of the numbers.
#[tactic(auto, unfolding(sg_cert::specs::Fields::shaped_if))]
fn shaped_where(counted: bool, words: &[u8], line: &[u8]) -> Result<(), u8>
    ensures { result ≡ shaped_if counted words.now (fields line.now) }
{
    has_words(words, line)?;
    if counted {
        if is_spelled(words, line) {
            Ok(())
        } else {
            Err(5)
        }
    } else {
        Err(4)
    }
}

/// The words, then a count of fields from `low` to `high`, then the spelling of the numbers.
pub fn shaped(words: &[u8], low: usize, high: usize, line: &[u8]) -> Result<(), u8>
    ensures { result ≡ shaped_as words.now low high (fields line.now) }
{
    shaped_where(has_count(low, high, line), words, line)
}

/// The same, where the field at a place says how many fields follow it.
pub fn shaped_by(words: &[u8], at: usize, line: &[u8]) -> Result<(), u8>
    requires { at < 100 }
    ensures { result ≡ shaped_to words.now at (fields line.now) }
{
    shaped_where(has_count_after(at, line), words, line)
}

pub fn fields_count(line: &[u8]) -> usize
    ensures { result ≡ length (fields line.now) }
{
    spaces_count(line) + 1
}

fn has_count(low: usize, high: usize, line: &[u8]) -> bool
    ensures { result ≡ count_is low high (fields line.now) }
{
    let count = fields_count(line);
    low <= count && count <= high
}

/// Whether so many fields stand behind a place as the field there says.
fn has_count_after(at: usize, line: &[u8]) -> bool
    requires { at < 100 }
    ensures { result ≡ count_follows at (length (fields line.now)) (slice_get (fields line.now) at) }
{
    let count = fields_count(line);
    match field_at(at, line) {
        None => false,
        Some(field) => !is_plain(field) || is_sum(count, at, magnitude_of(field)),
    }
}

/// The value of plain digits, or the greatest number where that is less.
fn magnitude_of(field: &[u8]) -> u128
    requires { is_natural field.now ≡ true }
    ensures { result ≡ min (digits_value 10 field.now) (2 ^ 128 - 1) }
{
    magnitude(field)
}

/// Whether a count is one more than a place and a number.
fn is_sum(count: usize, at: usize, more: u128) -> bool
    requires { at < 100 }
    ensures { result ≡ count == at + 1 + more }
{
    let past = at + 1;
    past <= count && (count - past) as u128 == more
}
