//! Reading caps and the tree.

ghost use Rattle.std.specs.Prelude.{◌≡◌, ◌-◌, ◌^◌, ◌≤◌, ◌≤ℤ◌, [], IfOk, Ok, Err, codes, length, negsuc, pos};
ghost use Rattle.sg_cert.specs.Fields.{fields};
ghost use Rattle.sg_cert.specs.Lines.{at_line, next_line};
ghost use Rattle.sg_cert_reader.specs.Steps.{Steps, ReadsLines, GivesLines};
ghost use Rattle.sg_cert.specs.LineReading.{bound_next, plain_of, proved_of, cap_head_of, split_of};
ghost use Rattle.sg_cert.specs.Reading.{repeat, fact_at, cap_from, cap_at, caps_at, line_begins, open_from, closed_from, base_from, base_at, leaf_of, leaf_from, split_from, deep_from, node_at};

use crate::error::ReportError;
use crate::fact::{fact, fact_after};
use crate::field::{Fields, has_word_at, shaped};
use crate::lines::Lines;
use sg_cert::ReportFault;
use sg_tree::{Cap, Fact, Tree};
use sqlite_items::Items;
use std::alloc::Global;

/// The next field as a bound.
fn next_bound(left: &mut Fields) -> Result<i64, u8>
    ensures { Steps result left.new (bound_next left.old) }
{
    match left.whole(i64::MIN as i128, i64::MAX as i128) {
        Ok(v) => Ok(v as i64),
        Err(reason) => Err(reason),
    }
}

#[tactic(auto, unfolding(sg_cert::specs::LineReading::plain_of))]
fn plain_in(line: &[u8]) -> Result<(u8, i64, u16), u8>
    ensures { result ≡ plain_of (fields line.now) }
{
    shaped(b"cap # plain #", 4, 4, line)?;
    let mut left = Fields::after(1, line);
    let l = left.natural(1, 8)? as u8;
    let mut left = Fields::after(3, line);
    let v = next_bound(&mut left)?;
    Ok((l, v, 0))
}

#[tactic(auto, unfolding(sg_cert::specs::LineReading::proved_of))]
fn proved_in(line: &[u8]) -> Result<(u8, i64, u16), u8>
    ensures { result ≡ proved_of (fields line.now) }
{
    shaped(b"cap # proved # #", 5, 5, line)?;
    let mut left = Fields::after(1, line);
    let l = left.natural(1, 8)? as u8;
    let mut left = Fields::after(3, line);
    let v = next_bound(&mut left)?;
    match left.natural(1, 65_535) {
        Ok(n) => Ok((l, v, n as u16)),
        Err(reason) => Err(reason),
    }
}

/// The type, the bound and the number of facts.
fn cap_in(line: &[u8]) -> Result<(u8, i64, u16), u8>
    ensures { result ≡ cap_head_of (fields line.now) }
{
    if has_word_at(2, b"plain", line) {
        plain_in(line)
    } else {
        proved_in(line)
    }
}

fn facts(alloc: Global, lines: &mut Lines, n: u16) -> Result<Items<Fact>, ReportError>
    ensures { GivesLines (λ fs. fs) result lines.new (repeat (λ done q. fact_at q) [] n lines.old) }
{
    let mut facts = Items::new(alloc);
    for _ in 0..n {
        match fact(alloc, lines) {
            Ok(fact) => facts.push(fact)?,
            Err(error) => return Err(error),
        }
    }
    Ok(facts)
}

#[tactic(auto, unfolding(sg_cert::specs::Reading::cap_from))]
fn cap_after(alloc: Global, lines: &mut Lines, line: &[u8]) -> Result<Cap, ReportError>
    ensures { GivesLines (λ c. c) result lines.new (cap_from (fields line.now) lines.old) }
{
    let (l, v, n) = lines.within(cap_in(line))?;
    let proof = facts(alloc, lines, n)?;
    Ok(Cap { l, v, proof })
}

#[tactic(auto, unfolding(sg_cert::specs::Reading::cap_at))]
fn cap(alloc: Global, lines: &mut Lines) -> Result<Cap, ReportError>
    ensures { GivesLines (λ c. c) result lines.new (cap_at lines.old) }
{
    let line = lines.next()?;
    cap_after(alloc, lines, line)
}

/// Whether the next line is there and begins with this word.
fn next_begins(lines: &Lines, word: &[u8]) -> bool
    ensures { result ≡ line_begins word.now (next_line lines.now) }
{
    match lines.peek() {
        Some(line) => has_word_at(0, word, line),
        None => false,
    }
}

/// The caps as long as lines begin with their word, and at most so many.
pub fn caps(alloc: Global, lines: &mut Lines, most: usize) -> Result<Items<Cap>, ReportError>
    ensures { GivesLines (λ cs. cs) result lines.new (caps_at [] most lines.old) }
{
    let mut caps = Items::new(alloc);
    for _ in 0..most {
        if !next_begins(lines, b"cap") {
            return Ok(caps);
        }
        match cap(alloc, lines) {
            Ok(cap) => caps.push(cap)?,
            Err(error) => return Err(error),
        }
    }
    Ok(caps)
}

#[tactic(auto, unfolding(sg_cert::specs::Reading::open_from))]
fn open_after(lines: &Lines, line: &[u8]) -> Result<Option<Fact>, ReportFault>
    ensures { ReadsLines (λ f. f) result lines.now (open_from (fields line.now) lines.now) }
{
    lines.within(shaped(b"open", 1, 1, line))?;
    Ok(None)
}

#[tactic(auto, unfolding(sg_cert::specs::Reading::closed_from))]
fn closed_after(alloc: Global, lines: &mut Lines, line: &[u8]) -> Result<Option<Fact>, ReportError>
    ensures { GivesLines (λ f. f) result lines.new (closed_from (fields line.now) lines.old) }
{
    let fact = fact_after(alloc, lines, line)?;
    Ok(Some(fact))
}

/// Open, or a fact, whose first line was read.
fn base_after(alloc: Global, lines: &mut Lines, line: &[u8]) -> Result<Option<Fact>, ReportError>
    ensures { GivesLines (λ f. f) result lines.new (base_from (fields line.now) lines.old) }
{
    if has_word_at(0, b"open", line) {
        match open_after(lines, line) {
            Ok(base) => Ok(base),
            Err(fault) => Err(ReportError::Refused(fault)),
        }
    } else {
        closed_after(alloc, lines, line)
    }
}

#[tactic(auto, unfolding(sg_cert::specs::Reading::base_at))]
fn base(alloc: Global, lines: &mut Lines) -> Result<Option<Fact>, ReportError>
    ensures { GivesLines (λ f. f) result lines.new (base_at lines.old) }
{
    let line = lines.next()?;
    base_after(alloc, lines, line)
}

#[tactic(auto, unfolding(sg_cert::specs::LineReading::split_of))]
fn split_in(line: &[u8]) -> Result<(u8, u16), u8>
    ensures { result ≡ split_of (fields line.now) }
{
    shaped(b"split", 3, 3, line)?;
    let mut left = Fields::after(1, line);
    let l = left.natural(1, 8)? as u8;
    let n = left.natural(1, 65_535)? as u16;
    Ok((l, n))
}

fn leaf(fact: Option<Fact>) -> Tree
    ensures { result ≡ leaf_of fact }
{
    match fact {
        None => Tree::Unproved,
        Some(fact) => Tree::Closed(fact),
    }
}

#[tactic(auto, unfolding(sg_cert::specs::Reading::leaf_from))]
fn leaf_after(alloc: Global, lines: &mut Lines, line: &[u8]) -> Result<Tree, ReportError>
    ensures { GivesLines (λ t. t) result lines.new (leaf_from (fields line.now) lines.old) }
{
    let fact = base_after(alloc, lines, line)?;
    Ok(leaf(fact))
}

/// The line of a split.
fn split_line(lines: &Lines, line: &[u8]) -> Result<(u8, u16), ReportFault>
    ensures { result ≡ at_line lines.now (split_of (fields line.now)) }
{
    lines.within(split_in(line))
}

/// A split that may not stand here.
#[tactic(auto, unfolding(sg_cert::specs::Reading::deep_from))]
fn deep_after(lines: &Lines, line: &[u8]) -> ReportFault
    ensures { deep_from (fields line.now) lines.now ≡ Err result }
{
    match split_line(lines, line) {
        Ok(_) => lines.fault(8),
        Err(fault) => fault,
    }
}

#[cycle(tree)]
fn parts(alloc: Global, lines: &mut Lines, left: u8, n: u16) -> Result<Items<Tree>, ReportError>
    ensures { GivesLines (λ ts. ts) result lines.new (repeat (λ done q. node_at left q) [] n lines.old) }
{
    let mut parts = Items::new(alloc);
    for _ in 0..n {
        match node(alloc, lines, left) {
            Ok(part) => parts.push(part)?,
            Err(error) => return Err(error),
        }
    }
    Ok(parts)
}

#[cycle(tree)]
fn split_after(alloc: Global, lines: &mut Lines, left: u8, line: &[u8]) -> Result<Tree, ReportError>
    ensures { GivesLines (λ t. t) result lines.new (split_from (node_at left) (fields line.now) lines.old) }
{
    let (l, n) = match split_line(lines, line) {
        Ok(split) => split,
        Err(fault) => return Err(ReportError::Refused(fault)),
    };
    let base = match base(alloc, lines) {
        Ok(base) => base,
        Err(error) => return Err(error),
    };
    match parts(alloc, lines, left, n) {
        Ok(parts) => Ok(Tree::Split { l, base, parts }),
        Err(error) => Err(error),
    }
}

/// A node with at most so many splits below one another.
#[cycle(tree)]
pub fn node(alloc: Global, lines: &mut Lines, left: u8) -> Result<Tree, ReportError>
    ensures { GivesLines (λ t. t) result lines.new (node_at left lines.old) }
{
    match lines.next() {
        Err(fault) => Err(ReportError::Refused(fault)),
        Ok(line) => {
            if !has_word_at(0, b"split", line) {
                leaf_after(alloc, lines, line)
            } else if left == 0 {
                Err(ReportError::Refused(deep_after(lines, line)))
            } else {
                split_after(alloc, lines, left - 1, line)
            }
        }
    }
}
