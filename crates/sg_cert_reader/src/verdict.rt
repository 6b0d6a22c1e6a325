//! Reading the verdict.

ghost use Rattle.std.specs.Prelude.{◌≡◌, ◌-◌, ◌^◌, ◌≤◌, [], IfOk, Ok, Err, codes};
ghost use Rattle.sg_cert.specs.Fields.{fields};
ghost use Rattle.sg_cert_reader.specs.Steps.{GivesLines};
ghost use Rattle.sg_cert.specs.LineReading.{fix_of, nodes_of, pivots_head_of, pivots_of, looks_head_of, looks_of, wide_head_of, wide_as, wide_of, cause_of, optimal_of, gap_of, verdict_of};
ghost use Rattle.sg_cert.specs.Reading.{verdict_at};
ghost use Rattle.sg_num.specs.declared.step.Op.TheVariants.{Sum, Less, Times};

use crate::error::ReportError;
use crate::field::{Fields, has_word_at, numbers, shaped, shaped_by};
use crate::lines::Lines;
use sg_num::{Op, Wide};
use sg_tree::{Cause, Ending, Fix};
use std::alloc::{AllocError, Global};

/// A node as the last fields name it.
#[tactic(auto, unfolding(sg_cert::specs::LineReading::fix_of))]
fn fix_in(alloc: Global, left: Fields) -> Result<Result<Fix, u8>, AllocError>
    ensures { IfOk result (λ read. read ≡ fix_of left.entry) }
{
    let mut left = left;
    let first = match left.natural(1, 8) {
        Ok(first) => first as u8,
        Err(reason) => return Ok(Err(reason)),
    };
    match left.natural(1, 8) {
        Ok(_) => {}
        Err(reason) => return Ok(Err(reason)),
    }
    match numbers(alloc, left, 1)? {
        Ok(acts) => Ok(Ok(Fix { first, acts })),
        Err(reason) => Ok(Err(reason)),
    }
}

#[tactic(auto, unfolding(sg_cert::specs::LineReading::nodes_of))]
fn nodes_in(line: &[u8]) -> Result<Cause, u8>
    ensures { result ≡ nodes_of (fields line.now) }
{
    shaped(b"verdict gap nodes", 4, 4, line)?;
    let mut left = Fields::after(3, line);
    let budget = left.natural(1, (1 << 64) - 1)? as u64;
    Ok(Cause::Nodes(budget))
}

fn pivots_head(line: &[u8]) -> Result<(u64, Fields<'_>), u8>
    ensures { result ≡ pivots_head_of (fields line.now) }
{
    shaped_by(b"verdict gap pivots", 5, line)?;
    let mut left = Fields::after(3, line);
    let budget = left.natural(1, (1 << 64) - 1)? as u64;
    Ok((budget, left))
}

#[tactic(auto, unfolding(sg_cert::specs::LineReading::pivots_of))]
fn pivots_in(alloc: Global, line: &[u8]) -> Result<Result<Cause, u8>, AllocError>
    ensures { IfOk result (λ read. read ≡ pivots_of (fields line.now)) }
{
    let (budget, left) = match pivots_head(line) {
        Ok(head) => head,
        Err(reason) => return Ok(Err(reason)),
    };
    match fix_in(alloc, left)? {
        Ok(fix) => Ok(Ok(Cause::Pivots { budget, fix })),
        Err(reason) => Ok(Err(reason)),
    }
}

#[tactic(auto, unfolding(sg_cert::specs::LineReading::looks_head_of))]
fn looks_head(line: &[u8]) -> Result<((u64, u64), Fields<'_>), u8>
    ensures { result ≡ looks_head_of (fields line.now) }
{
    shaped_by(b"verdict gap looks", 6, line)?;
    let mut left = Fields::after(3, line);
    let budget = left.natural(1, (1 << 64) - 1)? as u64;
    let step = left.natural(0, (1 << 64) - 1)? as u64;
    Ok(((budget, step), left))
}

#[tactic(auto, unfolding(sg_cert::specs::LineReading::looks_of))]
fn looks_in(alloc: Global, line: &[u8]) -> Result<Result<Cause, u8>, AllocError>
    ensures { IfOk result (λ read. read ≡ looks_of (fields line.now)) }
{
    let ((budget, step), left) = match looks_head(line) {
        Ok(head) => head,
        Err(reason) => return Ok(Err(reason)),
    };
    match fix_in(alloc, left)? {
        Ok(fix) => Ok(Ok(Cause::Looks { budget, step, fix })),
        Err(reason) => Ok(Err(reason)),
    }
}

#[tactic(auto, unfolding(sg_cert::specs::LineReading::wide_head_of))]
fn wide_head<'a>(op: Op, words: &[u8], line: &'a [u8]) -> Result<((u8, Wide, u64), Fields<'a>), u8>
    ensures { result ≡ wide_head_of op words.now (fields line.now) }
{
    shaped_by(words, 9, line)?;
    let mut left = Fields::after(3, line);
    let name = left.natural(1, 7)? as u8;
    let mut left = Fields::after(5, line);
    let operand = left.whole(i128::MIN, i128::MAX)?;
    let right = left.whole(i128::MIN, i128::MAX)?;
    let step = left.natural(0, (1 << 64) - 1)? as u64;
    Ok((
        (
            name,
            Wide {
                op,
                left: operand,
                right,
            },
            step,
        ),
        left,
    ))
}

#[tactic(auto, unfolding(sg_cert::specs::LineReading::wide_as))]
fn wide_with(
    alloc: Global,
    op: Op,
    words: &[u8],
    line: &[u8],
) -> Result<Result<Cause, u8>, AllocError>
    ensures { IfOk result (λ read. read ≡ wide_as op words.now (fields line.now)) }
{
    let ((name, wide, step), left) = match wide_head(op, words, line) {
        Ok(head) => head,
        Err(reason) => return Ok(Err(reason)),
    };
    match fix_in(alloc, left)? {
        Ok(fix) => Ok(Ok(Cause::Wide {
            name,
            wide,
            step,
            fix,
        })),
        Err(reason) => Ok(Err(reason)),
    }
}

fn wide_in(alloc: Global, line: &[u8]) -> Result<Result<Cause, u8>, AllocError>
    ensures { IfOk result (λ read. read ≡ wide_of (fields line.now)) }
{
    if has_word_at(4, b"sum", line) {
        wide_with(alloc, Op::Sum, b"verdict gap wide # sum", line)
    } else if has_word_at(4, b"less", line) {
        wide_with(alloc, Op::Less, b"verdict gap wide # less", line)
    } else {
        wide_with(alloc, Op::Times, b"verdict gap wide # times", line)
    }
}

fn cause_in(alloc: Global, line: &[u8]) -> Result<Result<Cause, u8>, AllocError>
    ensures { IfOk result (λ read. read ≡ cause_of (fields line.now)) }
{
    if has_word_at(2, b"nodes", line) {
        Ok(nodes_in(line))
    } else if has_word_at(2, b"pivots", line) {
        pivots_in(alloc, line)
    } else if has_word_at(2, b"looks", line) {
        looks_in(alloc, line)
    } else {
        wide_in(alloc, line)
    }
}

#[tactic(auto, unfolding(sg_cert::specs::LineReading::optimal_of))]
fn optimal_in(line: &[u8]) -> Result<Ending, u8>
    ensures { result ≡ optimal_of (fields line.now) }
{
    shaped(b"verdict optimal", 2, 2, line)?;
    Ok(Ending::Optimal)
}

#[tactic(auto, unfolding(sg_cert::specs::LineReading::gap_of))]
fn gap_in(alloc: Global, line: &[u8]) -> Result<Result<Ending, u8>, AllocError>
    ensures { IfOk result (λ read. read ≡ gap_of (fields line.now)) }
{
    match cause_in(alloc, line)? {
        Ok(cause) => Ok(Ok(Ending::Gap(cause))),
        Err(reason) => Ok(Err(reason)),
    }
}

fn verdict_in(alloc: Global, line: &[u8]) -> Result<Result<Ending, u8>, AllocError>
    ensures { IfOk result (λ read. read ≡ verdict_of (fields line.now)) }
{
    if has_word_at(1, b"optimal", line) {
        Ok(optimal_in(line))
    } else {
        gap_in(alloc, line)
    }
}

/// The verdict on the next line.
#[tactic(auto, unfolding(sg_cert::specs::Reading::verdict_at))]
pub fn verdict(alloc: Global, lines: &mut Lines) -> Result<Ending, ReportError>
    ensures { GivesLines (λ e. e) result lines.new (verdict_at lines.old) }
{
    let line = match lines.next() {
        Ok(line) => line,
        Err(fault) => return Err(ReportError::Refused(fault)),
    };
    let read = verdict_in(alloc, line)?;
    match lines.within(read) {
        Ok(ending) => Ok(ending),
        Err(fault) => Err(ReportError::Refused(fault)),
    }
}
