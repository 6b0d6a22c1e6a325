//! Reading facts.

ghost use Rattle.std.specs.Prelude.{◌≡◌, ◌-◌, ◌^◌, ◌≤◌, [], Ok, Err, codes};
ghost use Rattle.sg_cert.specs.Fields.{fields};
ghost use Rattle.sg_cert_reader.specs.Steps.{ReadsLines, GivesLines};
ghost use Rattle.sg_cert.specs.LineReading.{mark_follows, mark_of, row_follows, multiplier_of, header_of, spent_of, target_of, water_of};
ghost use Rattle.sg_cert.specs.Reading.{repeat, last, mark_at, row_at, plays_from, cover_from, water_from, fact_from, fact_at};

use crate::error::ReportError;
use crate::field::{Fields, has_word_at, shaped};
use crate::fraction::next_fraction;
use crate::lines::Lines;
use crate::ticket::ordered;
use sg_cert::ReportFault;
use sg_model::Level;
use sg_tree::{Fact, Line, Mark};
use sqlite_items::Items;
use std::alloc::Global;

fn mark_may_follow(before: Option<Mark>, l: u8, a: u16) -> bool
    ensures { result ≡ mark_follows before l a }
{
    match before {
        None => true,
        Some(m) => m.l < l || (m.l == l && m.a < a),
    }
}

#[tactic(auto, unfolding(sg_cert::specs::LineReading::mark_of))]
fn mark_in(line: &[u8], before: Option<Mark>) -> Result<Mark, u8>
    ensures { result ≡ mark_of before (fields line.now) }
{
    shaped(b"m", 4, 4, line)?;
    let mut left = Fields::after(1, line);
    let l = left.natural(1, 8)? as u8;
    let a = left.natural(1, 65_535)? as u16;
    let v = left.whole(1, i128::MAX)?;
    ordered(mark_may_follow(before, l, a))?;
    Ok(Mark { l, a, v })
}

/// The last item, if any.
fn last_item<T: Copy>(items: &[T]) -> Option<T>
    ensures { result ≡ last items.now }
{
    if items.is_empty() {
        None
    } else {
        items.get(items.len() - 1).copied()
    }
}

#[tactic(auto, unfolding(sg_cert::specs::Reading::mark_at))]
fn next_mark(lines: &mut Lines, done: &[Mark]) -> Result<Mark, ReportFault>
    ensures { ReadsLines (λ m. m) result lines.new (mark_at done.now lines.old) }
{
    let line = lines.next()?;
    lines.within(mark_in(line, last_item(done)))
}

fn marks(alloc: Global, lines: &mut Lines, k: u128) -> Result<Items<Mark>, ReportError>
    ensures { GivesLines (λ ms. ms) result lines.new (repeat mark_at [] k lines.old) }
{
    let mut marks = Items::new(alloc);
    for _ in 0..k {
        match next_mark(lines, marks.as_slice()) {
            Ok(mark) => marks.push(mark)?,
            Err(fault) => return Err(ReportError::Refused(fault)),
        }
    }
    Ok(marks)
}

fn row_may_follow(before: Option<Line>, row: u32) -> bool
    ensures { result ≡ row_follows before row }
{
    match before {
        None => true,
        Some(c) => c.row < row,
    }
}

#[tactic(auto, unfolding(sg_cert::specs::LineReading::multiplier_of))]
fn row_in(line: &[u8], before: Option<Line>) -> Result<Line, u8>
    ensures { result ≡ multiplier_of before (fields line.now) }
{
    shaped(b"c", 3, 3, line)?;
    let mut left = Fields::after(1, line);
    let row = left.natural(1, 1_535)? as u32;
    let v = left.whole(1, i128::MAX)?;
    ordered(row_may_follow(before, row))?;
    Ok(Line { row, v })
}

#[tactic(auto, unfolding(sg_cert::specs::Reading::row_at))]
fn next_row(lines: &mut Lines, done: &[Line]) -> Result<Line, ReportFault>
    ensures { ReadsLines (λ c. c) result lines.new (row_at done.now lines.old) }
{
    let line = lines.next()?;
    lines.within(row_in(line, last_item(done)))
}

fn rows(alloc: Global, lines: &mut Lines, k: u128) -> Result<Items<Line>, ReportError>
    ensures { GivesLines (λ cs. cs) result lines.new (repeat row_at [] k lines.old) }
{
    let mut rows = Items::new(alloc);
    for _ in 0..k {
        match next_row(lines, rows.as_slice()) {
            Ok(row) => rows.push(row)?,
            Err(fault) => return Err(ReportError::Refused(fault)),
        }
    }
    Ok(rows)
}

#[tactic(auto, unfolding(sg_cert::specs::LineReading::header_of))]
fn header_in(word: &[u8], line: &[u8]) -> Result<(i128, i128, u128), u8>
    ensures { result ≡ header_of word.now (fields line.now) }
{
    shaped(word, 4, 4, line)?;
    let mut left = Fields::after(1, line);
    let rho = left.whole(1, i128::MAX)?;
    let mu = left.whole(0, i128::MAX)?;
    let k = left.natural(0, (1 << 127) - 1)?;
    Ok((rho, mu, k))
}

#[tactic(auto, unfolding(sg_cert::specs::LineReading::spent_of))]
fn spent_in(line: &[u8]) -> Result<Fact, u8>
    ensures { result ≡ spent_of (fields line.now) }
{
    shaped(b"water # # resources", 4, 4, line)?;
    let mut left = Fields::after(1, line);
    let level = next_fraction(&mut left)?;
    Ok(Fact::Water {
        level,
        reason: Level::Resources,
    })
}

#[tactic(auto, unfolding(sg_cert::specs::LineReading::target_of))]
fn target_in(line: &[u8]) -> Result<Fact, u8>
    ensures { result ≡ target_of (fields line.now) }
{
    shaped(b"water # # target #", 5, 5, line)?;
    let mut left = Fields::after(1, line);
    let level = next_fraction(&mut left)?;
    let mut left = Fields::after(4, line);
    let target = left.natural(1, 65_535)? as u16;
    Ok(Fact::Water {
        level,
        reason: Level::Target(target),
    })
}

fn water_in(line: &[u8]) -> Result<Fact, u8>
    ensures { result ≡ water_of (fields line.now) }
{
    if has_word_at(3, b"resources", line) {
        spent_in(line)
    } else {
        target_in(line)
    }
}

#[tactic(auto, unfolding(sg_cert::specs::Reading::plays_from))]
fn plays_after(alloc: Global, lines: &mut Lines, line: &[u8]) -> Result<Fact, ReportError>
    ensures { GivesLines (λ f. f) result lines.new (plays_from (fields line.now) lines.old) }
{
    let (rho, mu, k) = lines.within(header_in(b"plays", line))?;
    let marks = marks(alloc, lines, k)?;
    Ok(Fact::Plays { rho, mu, marks })
}

#[tactic(auto, unfolding(sg_cert::specs::Reading::cover_from))]
fn cover_after(alloc: Global, lines: &mut Lines, line: &[u8]) -> Result<Fact, ReportError>
    ensures { GivesLines (λ f. f) result lines.new (cover_from (fields line.now) lines.old) }
{
    let (rho, mu, k) = lines.within(header_in(b"cover", line))?;
    let rows = rows(alloc, lines, k)?;
    Ok(Fact::Cover {
        rho,
        mu,
        lines: rows,
    })
}

#[tactic(auto, unfolding(sg_cert::specs::Reading::water_from))]
fn water_after(lines: &Lines, line: &[u8]) -> Result<Fact, ReportFault>
    ensures { ReadsLines (λ f. f) result lines.now (water_from (fields line.now) lines.now) }
{
    lines.within(water_in(line))
}

/// A fact, whose first line was read.
pub fn fact_after(alloc: Global, lines: &mut Lines, line: &[u8]) -> Result<Fact, ReportError>
    ensures { GivesLines (λ f. f) result lines.new (fact_from (fields line.now) lines.old) }
{
    if has_word_at(0, b"plays", line) {
        plays_after(alloc, lines, line)
    } else if has_word_at(0, b"cover", line) {
        cover_after(alloc, lines, line)
    } else if has_word_at(0, b"water", line) {
        match water_after(lines, line) {
            Ok(fact) => Ok(fact),
            Err(fault) => Err(ReportError::Refused(fault)),
        }
    } else {
        Err(ReportError::Refused(lines.fault(3)))
    }
}

/// The fact on the next lines.
#[tactic(auto, unfolding(sg_cert::specs::Reading::fact_at))]
pub fn fact(alloc: Global, lines: &mut Lines) -> Result<Fact, ReportError>
    ensures { GivesLines (λ f. f) result lines.new (fact_at lines.old) }
{
    let line = lines.next()?;
    fact_after(alloc, lines, line)
}
