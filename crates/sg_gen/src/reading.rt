//! Shapes read from their texts.

ghost use Rattle.std.specs.Prelude.{◌≡◌, ◌≢◌, ◌≤◌, ◌<◌, ◌^◌, ◌++◌, ◌∷◌, ◌*◌, ℕ, List, MatchOption, codes, decimal};
ghost use Rattle.sg_gen.specs.Shapes.{ReadsShape};

use crate::shape::Shape;
use sg_words::{Kind, number};

/// The number of a range that a text spells.
fn number_within(text: &str, least: u64, greatest: u64) -> Option<u64>
    ensures { MatchOption result ((n : ℕ) → least ≤ n → n ≤ greatest → text.now ≢ decimal n) (λ n. (least ≤ n) × (n ≤ greatest) × (text.now ≡ decimal n)) }
{
    if !(Kind::Number { least, greatest }).is_of(text) {
        return None;
    }
    Some(number(text))
}

/// What stands behind a word.
fn after<'a>(text: &'a str, word: &str) -> Option<&'a str>
    ensures { MatchOption result ((rest : List ℕ) → text.now ≢ word.now ++ rest) (λ rest. text.now ≡ word.now ++ rest.now) }
{
    text.strip_prefix(word)
}

/// The number of a range that stands before a dash, and what stands behind it.
fn number_before_dash(text: &str, least: u64, greatest: u64) -> Option<(u64, &str)>
    ensures { MatchOption result ((n : ℕ) (rest : List ℕ) → least ≤ n → n ≤ greatest → text.now ≢ decimal n ++ 45 ∷ rest) (λ x. (least ≤ x.0) × (x.0 ≤ greatest) × (text.now ≡ decimal x.0 ++ 45 ∷ x.1.now)) }
{
    match text.split_once('-') {
        None => None,
        Some((front, rest)) => match number_within(front, least, greatest) {
            None => None,
            Some(n) => Some((n, rest)),
        },
    }
}

/// A shape of identical patrols, from its numbers.
fn read_free(numbers: &str) -> Option<Shape>
    ensures { ReadsShape (codes "free-" ++ numbers.now) result }
{
    match number_before_dash(numbers, 1, 10_000) {
        None => None,
        Some((targets, rest)) => match number_within(rest, 0, 200) {
            None => None,
            Some(patrols) => Some(Shape::Free {
                targets: targets as u16,
                patrols: patrols as u16,
            }),
        },
    }
}

/// A shape of blocks, from its numbers.
fn read_blocks(numbers: &str) -> Option<Shape>
    ensures { ReadsShape (codes "blocks-" ++ numbers.now) result }
{
    match number_before_dash(numbers, 1, 8) {
        None => None,
        Some((resources, others)) => match number_before_dash(others, 2, 10) {
            None => None,
            Some((width, rest)) => match number_within(rest, 1, 1_000) {
                None => None,
                Some(span) => Some(Shape::Blocks {
                    resources: resources as u16,
                    width: width as u16,
                    span: span as u16,
                }),
            },
        },
    }
}

/// A shape in matrix form, whose product is in its range.
fn table_of(rows: u64, actions: u64, types: u64) -> Option<Shape>
    requires rows { rows ≤ 4096 }
    requires actions { actions ≤ 64 }
    requires types { types ≤ 8 }
    ensures { MatchOption result (200000 < rows * actions * types) (λ shape. (shape ≡ Shape.Table rows actions types) × (rows * actions * types ≤ 200000)) }
{
    if rows * actions * types > 200_000 {
        return None;
    }
    Some(Shape::Table {
        rows: rows as u16,
        actions: actions as u16,
        types: types as u8,
    })
}

/// A shape in matrix form, from its numbers.
fn read_table(numbers: &str) -> Option<Shape>
    ensures { ReadsShape (codes "matrix-" ++ numbers.now) result }
{
    match number_before_dash(numbers, 1, 4_096) {
        None => None,
        Some((rows, others)) => match number_before_dash(others, 1, 64) {
            None => None,
            Some((actions, rest)) => match number_within(rest, 1, 8) {
                None => None,
                Some(types) => table_of(rows, actions, types),
            },
        },
    }
}

impl Shape {
    /// The shape that a text spells: its kind and its numbers, each in its one spelling and in its range. `None` for any
    /// other text.
    pub fn read(text: &str) -> Option<Shape>
        ensures { ReadsShape text.now result }
    {
        if let Some(numbers) = after(text, "free-") {
            return read_free(numbers);
        }
        if let Some(numbers) = after(text, "blocks-") {
            return read_blocks(numbers);
        }
        match after(text, "matrix-") {
            None => None,
            Some(numbers) => read_table(numbers),
        }
    }
}
