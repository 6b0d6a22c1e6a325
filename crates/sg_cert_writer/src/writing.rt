//! Writing a report.

ghost use Rattle.std.specs.Prelude.{◌≡◌, ◌++◌, ◌∷◌, [], ◌≤◌, ◌-◌, ◌^◌, length, map, codes, OnOk, OnErr};
ghost use Rattle.std.specs.List.{flat_map};
ghost use Rattle.std.specs.Prelude.{decimal, None};
ghost use Rattle.std.specs.Fmt.{signed_decimal};
ghost use Rattle.sg_tree.specs.declared.fact.Fact.TheVariants.{Plays, Cover};
ghost use Rattle.sg_shelf.specs.Faults.{HasRisen};
ghost use Rattle.sg_shelf.specs.Taken.{Takes, TakesFront};
ghost use Rattle.sg_cert.specs.Text.{spell, text_of, fraction_row, ticket_row, claim_rows, mark_row, line_row, fact_rows, cap_row, cap_rows, base_rows, split_row, node_rows, verdict_row, head_rows, tail_rows, report_rows, report_text};
ghost use Rattle.sg_cert_writer.specs.Writing.{Writes};

use crate::block::{Block, flush};
use crate::row::{
    put_cap_line, put_fraction, put_header, put_line, put_mark, put_row, put_split_line,
    put_ticket, put_verdict, put_water,
};
use sg_model::Ticket;
use sg_shelf::{Sink, SinkError};
use sg_tree::{Cap, Claim, Fact, Line, Mark, Report, Tree};

/// Tickets.
fn put_tickets<O: Sink>(out: &mut O, block: &mut Block, tickets: &[Ticket]) -> Result<(), SinkError>
    ensures { Writes result (O.state out.old) block.old (O.state out.new) block.new (text_of (map ticket_row tickets.now)) }
{
    for ticket in tickets {
        match put_ticket(out, block, ticket) {
            Ok(()) => {}
            Err(error) => return Err(error),
        }
    }
    Ok(())
}

/// The number and total of tickets, and the tickets.
fn put_claim<O: Sink>(out: &mut O, block: &mut Block, claim: &Claim) -> Result<(), SinkError>
    ensures { Writes result (O.state out.old) block.old (O.state out.new) block.new (text_of (claim_rows claim.now)) }
{
    match put_counts(out, block, claim) {
        Ok(()) => put_tickets(out, block, claim.tickets()),
        Err(error) => Err(error),
    }
}

/// The number and total of tickets.
fn put_counts<O: Sink>(out: &mut O, block: &mut Block, claim: &Claim) -> Result<(), SinkError>
    ensures { Writes result (O.state out.old) block.old (O.state out.new) block.new (spell (codes "tickets" ∷ decimal (length claim.now.tickets) ∷ signed_decimal claim.now.total ∷ [])) }
{
    put_line(
        out,
        block,
        b"tickets",
        &[claim.tickets().len() as i128, claim.total()],
    )
}

/// Multipliers of comparisons.
fn put_marks<O: Sink>(out: &mut O, block: &mut Block, marks: &[Mark]) -> Result<(), SinkError>
    ensures { Writes result (O.state out.old) block.old (O.state out.new) block.new (text_of (map mark_row marks.now)) }
{
    for mark in marks {
        match put_mark(out, block, mark) {
            Ok(()) => {}
            Err(error) => return Err(error),
        }
    }
    Ok(())
}

/// Multipliers of rows.
fn put_rows<O: Sink>(out: &mut O, block: &mut Block, rows: &[Line]) -> Result<(), SinkError>
    ensures { Writes result (O.state out.old) block.old (O.state out.new) block.new (text_of (map line_row rows.now)) }
{
    for row in rows {
        match put_row(out, block, row) {
            Ok(()) => {}
            Err(error) => return Err(error),
        }
    }
    Ok(())
}

/// A fact over plays: its multipliers behind their number.
fn put_plays<O: Sink>(
    out: &mut O,
    block: &mut Block,
    pair: (&i128, &i128),
    marks: &[Mark],
) -> Result<(), SinkError>
    ensures { Writes result (O.state out.old) block.old (O.state out.new) block.new (text_of (fact_rows (Plays pair.entry.0.now pair.entry.1.now marks.now))) }
{
    match put_header(out, block, b"plays", pair, marks.len()) {
        Ok(()) => put_marks(out, block, marks),
        Err(error) => Err(error),
    }
}

/// A fact over the coverage table: its multipliers behind their number.
fn put_cover<O: Sink>(
    out: &mut O,
    block: &mut Block,
    pair: (&i128, &i128),
    rows: &[Line],
) -> Result<(), SinkError>
    ensures { Writes result (O.state out.old) block.old (O.state out.new) block.new (text_of (fact_rows (Cover pair.entry.0.now pair.entry.1.now rows.now))) }
{
    match put_header(out, block, b"cover", pair, rows.len()) {
        Ok(()) => put_rows(out, block, rows),
        Err(error) => Err(error),
    }
}

/// A fact.
fn put_fact<O: Sink>(out: &mut O, block: &mut Block, fact: &Fact) -> Result<(), SinkError>
    ensures { Writes result (O.state out.old) block.old (O.state out.new) block.new (text_of (fact_rows fact.now)) }
{
    match fact {
        Fact::Plays { rho, mu, marks } => put_plays(out, block, (rho, mu), marks.as_slice()),
        Fact::Cover { rho, mu, lines } => put_cover(out, block, (rho, mu), lines.as_slice()),
        Fact::Water { level, reason } => put_water(out, block, level, *reason),
    }
}

/// Facts.
fn put_facts<O: Sink>(out: &mut O, block: &mut Block, facts: &[Fact]) -> Result<(), SinkError>
    ensures { Writes result (O.state out.old) block.old (O.state out.new) block.new (text_of (flat_map fact_rows facts.now)) }
{
    for fact in facts {
        match put_fact(out, block, fact) {
            Ok(()) => {}
            Err(error) => return Err(error),
        }
    }
    Ok(())
}

/// A cap: its facts behind its line.
fn put_cap<O: Sink>(out: &mut O, block: &mut Block, cap: &Cap) -> Result<(), SinkError>
    ensures { Writes result (O.state out.old) block.old (O.state out.new) block.new (text_of (cap_rows cap.now)) }
{
    match put_cap_line(out, block, cap) {
        Ok(()) => put_facts(out, block, cap.proof.as_slice()),
        Err(error) => Err(error),
    }
}

/// Caps.
fn put_caps<O: Sink>(out: &mut O, block: &mut Block, caps: &[Cap]) -> Result<(), SinkError>
    ensures { Writes result (O.state out.old) block.old (O.state out.new) block.new (text_of (flat_map cap_rows caps.now)) }
{
    for cap in caps {
        match put_cap(out, block, cap) {
            Ok(()) => {}
            Err(error) => return Err(error),
        }
    }
    Ok(())
}

/// A base: open, or a fact.
fn put_base<O: Sink>(out: &mut O, block: &mut Block, base: &Option<Fact>) -> Result<(), SinkError>
    ensures { Writes result (O.state out.old) block.old (O.state out.new) block.new (text_of (base_rows base.now)) }
{
    match base {
        None => put_open(out, block),
        Some(fact) => put_fact(out, block, fact),
    }
}

/// An open node or base.
fn put_open<O: Sink>(out: &mut O, block: &mut Block) -> Result<(), SinkError>
    ensures { Writes result (O.state out.old) block.old (O.state out.new) block.new (text_of (base_rows None)) }
{
    put_line(out, block, b"open", &[])
}

/// The line of a split, and its base.
fn put_split<O: Sink>(
    out: &mut O,
    block: &mut Block,
    l: u8,
    base: &Option<Fact>,
    count: usize,
) -> Result<(), SinkError>
    ensures { Writes result (O.state out.old) block.old (O.state out.new) block.new (text_of (split_row l count ∷ base_rows base.now)) }
{
    match put_split_line(out, block, l, count) {
        Ok(()) => put_base(out, block, base),
        Err(error) => Err(error),
    }
}

/// A node: open, a fact, or a split with its parts.
fn put_node<O: Sink>(out: &mut O, block: &mut Block, tree: &Tree) -> Result<(), SinkError>
    ensures { Writes result (O.state out.old) block.old (O.state out.new) block.new (text_of (node_rows tree.now)) }
{
    match tree {
        Tree::Unproved => put_open(out, block),
        Tree::Closed(fact) => put_fact(out, block, fact),
        Tree::Split { l, base, parts } => {
            match put_split(out, block, *l, base, parts.len()) {
                Ok(()) => {}
                Err(error) => return Err(error),
            }
            for part in parts.as_slice() {
                match put_node(out, block, part) {
                    Ok(()) => {}
                    Err(error) => return Err(error),
                }
            }
            Ok(())
        }
    }
}

/// The tickets and their value.
fn put_tickets_value<O: Sink>(
    out: &mut O,
    block: &mut Block,
    report: &Report,
) -> Result<(), SinkError>
    ensures { Writes result (O.state out.old) block.old (O.state out.new) block.new (text_of (claim_rows report.now.tickets) ++ spell (fraction_row (codes "value") report.now.value)) }
{
    match put_claim(out, block, &report.tickets) {
        Ok(()) => put_fraction(out, block, b"value", &report.value),
        Err(error) => Err(error),
    }
}

/// The lines up to the caps.
fn put_head<O: Sink>(out: &mut O, block: &mut Block, report: &Report) -> Result<(), SinkError>
    ensures { Writes result (O.state out.old) block.old (O.state out.new) block.new (text_of (head_rows report.now)) }
{
    match put_line(out, block, b"patrol-report 1", &[]) {
        Ok(()) => put_tickets_value(out, block, report),
        Err(error) => Err(error),
    }
}

/// The verdict and the last line.
fn put_end<O: Sink>(out: &mut O, block: &mut Block, report: &Report) -> Result<(), SinkError>
    ensures { Writes result (O.state out.old) block.old (O.state out.new) block.new (spell (verdict_row report.now.ending) ++ spell (codes "end" ∷ [])) }
{
    match put_verdict(out, block, &report.ending) {
        Ok(()) => put_line(out, block, b"end", &[]),
        Err(error) => Err(error),
    }
}

/// The lines behind the tree.
fn put_tail<O: Sink>(out: &mut O, block: &mut Block, report: &Report) -> Result<(), SinkError>
    ensures { Writes result (O.state out.old) block.old (O.state out.new) block.new (text_of (tail_rows report.now)) }
{
    match put_fraction(out, block, b"upper", &report.upper) {
        Ok(()) => put_end(out, block, report),
        Err(error) => Err(error),
    }
}

/// The tree and the lines behind it.
fn put_tree_tail<O: Sink>(out: &mut O, block: &mut Block, report: &Report) -> Result<(), SinkError>
    ensures { Writes result (O.state out.old) block.old (O.state out.new) block.new (text_of (node_rows report.now.tree ++ tail_rows report.now)) }
{
    match put_node(out, block, &report.tree) {
        Ok(()) => put_tail(out, block, report),
        Err(error) => Err(error),
    }
}

/// The lines from the caps on.
fn put_caps_tail<O: Sink>(out: &mut O, block: &mut Block, report: &Report) -> Result<(), SinkError>
    ensures { Writes result (O.state out.old) block.old (O.state out.new) block.new (text_of (flat_map cap_rows report.now.caps ++ (node_rows report.now.tree ++ tail_rows report.now))) }
{
    match put_caps(out, block, report.caps.as_slice()) {
        Ok(()) => put_tree_tail(out, block, report),
        Err(error) => Err(error),
    }
}

/// All lines.
fn put_report<O: Sink>(out: &mut O, block: &mut Block, report: &Report) -> Result<(), SinkError>
    ensures { Writes result (O.state out.old) block.old (O.state out.new) block.new (report_text report.now) }
{
    match put_head(out, block, report) {
        Ok(()) => put_caps_tail(out, block, report),
        Err(error) => Err(error),
    }
}

/// Puts the text of a report. It takes no memory. Where the sink fails, a front of the text was taken, and the count
/// of faults rose.
pub fn write_report<O: Sink>(report: &Report, out: &mut O) -> Result<(), SinkError>
    ensures count { (O.state out.old).faults ≤ (O.state out.new).faults }
    ensures last_count { (O.state out.new).faults ≤ 2 ^ 64 - 1 }
    ensures whole { OnOk result (Takes (O.state out.old).bytes (O.state out.new).bytes (report_text report.now)) }
    ensures front { OnErr result (TakesFront (O.state out.old).bytes (O.state out.new).bytes (report_text report.now)) }
    ensures failed { OnErr result (HasRisen (O.state out.old).faults (O.state out.new).faults) }
{
    let mut block = Block::new();
    match put_report(out, &mut block, report) {
        Ok(()) => flush(out, &mut block),
        Err(error) => Err(error),
    }
}
