//! Reading a whole report.

ghost use Rattle.std.specs.Prelude.{◌≡◌, ◌-◌, ◌^◌, [], Ok, Err, codes, length};
ghost use Rattle.sg_cert.specs.Fields.{fields};
ghost use Rattle.sg_cert.specs.Lines.{line_at, at_line, start};
ghost use Rattle.sg_cert_reader.specs.Steps.{ReadsLines, GivesLines, GivesReport};
ghost use Rattle.sg_cert.specs.Reading.{word_line_at, first_at, head_at, proof_at, end_of, tail_of, report_of};

use crate::error::ReportError;
use crate::field::shaped;
use crate::fraction::fraction;
use crate::lines::Lines;
use crate::node::{caps, node};
use crate::ticket::claim;
use crate::verdict::verdict;
use sg_cert::ReportFault;
use sg_frac::Frac;
use sg_tree::{Cap, Claim, Ending, Report, Tree};
use sqlite_items::Items;
use std::alloc::Global;

/// A line of this word alone.
#[tactic(auto, unfolding(sg_cert::specs::Reading::word_line_at))]
fn word_line(lines: &mut Lines, word: &[u8]) -> Result<(), ReportFault>
    ensures { ReadsLines (λ x. x) result lines.new (word_line_at word.now lines.old) }
{
    let line = lines.next()?;
    lines.within(shaped(word, 1, 1, line))
}

/// The first line, which is just so.
#[tactic(auto, unfolding(sg_cert::specs::Reading::first_at))]
fn first(lines: &mut Lines, text: &[u8]) -> Result<(), ReportFault>
    ensures { ReadsLines (λ x. x) result lines.new (first_at text.now lines.old) }
{
    let line = lines.next()?;
    if line == text {
        Ok(())
    } else {
        Err(lines.fault(1))
    }
}

/// The first line, the tickets and their value.
#[tactic(auto, unfolding(sg_cert::specs::Reading::head_at))]
fn head(alloc: Global, lines: &mut Lines) -> Result<(Claim, Frac), ReportError>
    ensures { GivesLines (λ x. x) result lines.new (head_at lines.old) }
{
    first(lines, b"patrol-report 1")?;
    let tickets = claim(alloc, lines)?;
    match fraction(lines, b"value") {
        Ok(value) => Ok((tickets, value)),
        Err(fault) => Err(ReportError::Refused(fault)),
    }
}

/// The caps and the tree.
#[tactic(auto, unfolding(sg_cert::specs::Reading::proof_at))]
fn proof(alloc: Global, lines: &mut Lines) -> Result<(Items<Cap>, Tree), ReportError>
    ensures { GivesLines (λ x. x) result lines.new (proof_at lines.old) }
{
    let most = lines.left();
    let caps = caps(alloc, lines, most)?;
    match node(alloc, lines, 8) {
        Ok(tree) => Ok((caps, tree)),
        Err(error) => Err(error),
    }
}

/// The last line, behind which there is nothing.
#[tactic(auto, unfolding(sg_cert::specs::Reading::end_of))]
fn close(lines: &mut Lines) -> Result<(), ReportFault>
    ensures { result ≡ end_of lines.old }
{
    word_line(lines, b"end")?;
    lines.finished()
}

/// The upper bound and the verdict, up to the end of the bytes.
#[tactic(auto, unfolding(sg_cert::specs::Reading::tail_of))]
fn tail(alloc: Global, lines: &mut Lines) -> Result<(Frac, Ending), ReportError>
    ensures { GivesReport (λ x. x) result (tail_of lines.old) }
{
    let upper = fraction(lines, b"upper")?;
    let ending = verdict(alloc, lines)?;
    match close(lines) {
        Ok(()) => Ok((upper, ending)),
        Err(fault) => Err(ReportError::Refused(fault)),
    }
}

/// The report that the bytes spell, all of the bytes.
#[tactic(auto, unfolding(sg_cert::specs::Reading::report_of))]
pub fn read_report(alloc: Global, bytes: &[u8]) -> Result<Report, ReportError>
    ensures { GivesReport (λ r. r) result (report_of bytes.now) }
{
    let mut lines = Lines::new(bytes);
    let (tickets, value) = head(alloc, &mut lines)?;
    let (caps, tree) = proof(alloc, &mut lines)?;
    match tail(alloc, &mut lines) {
        Err(error) => Err(error),
        Ok((upper, ending)) => Ok(Report {
            tickets,
            value,
            caps,
            tree,
            upper,
            ending,
        }),
    }
}
