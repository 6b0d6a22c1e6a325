//! Writing single lines.

ghost use Rattle.std.specs.Prelude.{◌≡◌, ◌++◌, ◌∷◌, [], ◌≤◌, ◌-◌, ◌^◌, length, map, decimal, codes};
ghost use Rattle.std.specs.Fmt.{signed_decimal};
ghost use Rattle.sg_model.specs.TextLines.{field_line};
ghost use Rattle.sg_tree.specs.declared.fact.Fact.TheVariants.{Water};
ghost use Rattle.sg_tree.specs.declared.report.Cause.TheVariants as causes;
ghost use Rattle.sg_cert.specs.Text.{spell, spaced, text_of, fraction_row, ticket_row, mark_row, line_row, fact_rows, cap_row, split_row, op_word, fix_fields, cause_fields, verdict_row};
ghost use Rattle.sg_cert_writer.specs.Writing.{Writes};

use crate::block::{Block, put_bytes, put_choices, put_part};
use sg_frac::Frac;
use sg_model::{Level, Ticket};
use sg_num::{Op, Wide};
use sg_shelf::{Sink, SinkError};
use sg_tree::{Cap, Cause, Ending, Fix, Line, Mark};

/// A line of words and numbers behind them.
pub fn put_line<O: Sink>(
    out: &mut O,
    block: &mut Block,
    words: &[u8],
    numbers: &[i128],
) -> Result<(), SinkError>
    ensures { Writes result (O.state out.old) block.old (O.state out.new) block.new (field_line words.now (map signed_decimal numbers.now)) }
{
    match put_part(out, block, words, numbers) {
        Ok(()) => put_bytes(out, block, b"\n"),
        Err(error) => Err(error),
    }
}

/// A line of words, numbers and choices.
fn put_list_line<O: Sink>(
    out: &mut O,
    block: &mut Block,
    words: &[u8],
    numbers: &[i128],
    choices: &[u16],
) -> Result<(), SinkError>
    ensures { Writes result (O.state out.old) block.old (O.state out.new) block.new (field_line words.now (map signed_decimal numbers.now ++ map decimal choices.now)) }
{
    match put_part(out, block, words, numbers) {
        Ok(()) => put_choices_end(out, block, choices),
        Err(error) => Err(error),
    }
}

/// Choices, and the end of their line.
fn put_choices_end<O: Sink>(
    out: &mut O,
    block: &mut Block,
    choices: &[u16],
) -> Result<(), SinkError>
    ensures { Writes result (O.state out.old) block.old (O.state out.new) block.new (spaced (map decimal choices.now) ++ 10 ∷ []) }
{
    match put_choices(out, block, choices) {
        Ok(()) => put_bytes(out, block, b"\n"),
        Err(error) => Err(error),
    }
}

/// A fraction behind a word.
pub fn put_fraction<O: Sink>(
    out: &mut O,
    block: &mut Block,
    word: &[u8],
    fraction: &Frac,
) -> Result<(), SinkError>
    ensures { Writes result (O.state out.old) block.old (O.state out.new) block.new (spell (fraction_row word.now fraction.now)) }
{
    put_line(out, block, word, &[fraction.num(), fraction.den()])
}

/// A ticket.
pub fn put_ticket<O: Sink>(out: &mut O, block: &mut Block, ticket: &Ticket) -> Result<(), SinkError>
    ensures { Writes result (O.state out.old) block.old (O.state out.new) block.new (spell (ticket_row ticket.now)) }
{
    put_list_line(
        out,
        block,
        b"t",
        &[ticket.weight],
        ticket.play.code.as_slice(),
    )
}

/// The multiplier of a comparison.
pub fn put_mark<O: Sink>(out: &mut O, block: &mut Block, mark: &Mark) -> Result<(), SinkError>
    ensures { Writes result (O.state out.old) block.old (O.state out.new) block.new (spell (mark_row mark.now)) }
{
    put_line(
        out,
        block,
        b"m",
        &[i128::from(mark.l), i128::from(mark.a), mark.v],
    )
}

/// The multiplier of a row of the coverage table.
pub fn put_row<O: Sink>(out: &mut O, block: &mut Block, row: &Line) -> Result<(), SinkError>
    ensures { Writes result (O.state out.old) block.old (O.state out.new) block.new (spell (line_row row.now)) }
{
    put_line(out, block, b"c", &[i128::from(row.row), row.v])
}

/// A word behind a space, numbers and choices, and the end of their line.
fn put_rest<O: Sink>(
    out: &mut O,
    block: &mut Block,
    word: &[u8],
    numbers: &[i128],
    choices: &[u16],
) -> Result<(), SinkError>
    ensures { Writes result (O.state out.old) block.old (O.state out.new) block.new (32 ∷ field_line word.now (map signed_decimal numbers.now ++ map decimal choices.now)) }
{
    match put_bytes(out, block, b" ") {
        Ok(()) => put_list_line(out, block, word, numbers, choices),
        Err(error) => Err(error),
    }
}

/// The numbers in front of a word within a line, and what follows it.
#[derive(Drop)]
struct Around<'a> {
    before: &'a [i128],
    after: &'a [i128],
    choices: &'a [u16],
}

/// A line of words and numbers, then a word, numbers and choices.
fn put_word_line<O: Sink>(
    out: &mut O,
    block: &mut Block,
    words: &[u8],
    word: &[u8],
    around: Around,
) -> Result<(), SinkError>
    ensures { Writes result (O.state out.old) block.old (O.state out.new) block.new (field_line words.now (map signed_decimal around.entry.before.now ++ word.now ∷ (map signed_decimal around.entry.after.now ++ map decimal around.entry.choices.now))) }
{
    match put_part(out, block, words, around.before) {
        Ok(()) => put_rest(out, block, word, around.after, around.choices),
        Err(error) => Err(error),
    }
}

/// The first line of a fact.
pub fn put_header<O: Sink>(
    out: &mut O,
    block: &mut Block,
    word: &[u8],
    pair: (&i128, &i128),
    count: usize,
) -> Result<(), SinkError>
    ensures { Writes result (O.state out.old) block.old (O.state out.new) block.new (spell (word.now ∷ signed_decimal pair.entry.0.now ∷ signed_decimal pair.entry.1.now ∷ decimal count ∷ [])) }
{
    put_line(out, block, word, &[*pair.0, *pair.1, count as i128])
}

/// A water fact.
pub fn put_water<O: Sink>(
    out: &mut O,
    block: &mut Block,
    level: &Frac,
    reason: Level,
) -> Result<(), SinkError>
    ensures { Writes result (O.state out.old) block.old (O.state out.new) block.new (text_of (fact_rows (Water level.now reason))) }
{
    let parts = [level.num(), level.den()];
    match reason {
        Level::Resources => put_word_line(
            out,
            block,
            b"water",
            b"resources",
            Around {
                before: &parts,
                after: &[],
                choices: &[],
            },
        ),
        Level::Target(target) => put_word_line(
            out,
            block,
            b"water",
            b"target",
            Around {
                before: &parts,
                after: &[],
                choices: &[target],
            },
        ),
    }
}

/// The first line of a cap.
pub fn put_cap_line<O: Sink>(out: &mut O, block: &mut Block, cap: &Cap) -> Result<(), SinkError>
    ensures { Writes result (O.state out.old) block.old (O.state out.new) block.new (spell (cap_row cap.now)) }
{
    let l = [i128::from(cap.l)];
    let v = i128::from(cap.v);
    match cap.proof.as_slice() {
        [] => put_word_line(
            out,
            block,
            b"cap",
            b"plain",
            Around {
                before: &l,
                after: &[v],
                choices: &[],
            },
        ),
        facts => put_word_line(
            out,
            block,
            b"cap",
            b"proved",
            Around {
                before: &l,
                after: &[v, facts.len() as i128],
                choices: &[],
            },
        ),
    }
}

/// The first line of a split.
pub fn put_split_line<O: Sink>(
    out: &mut O,
    block: &mut Block,
    l: u8,
    count: usize,
) -> Result<(), SinkError>
    ensures { Writes result (O.state out.old) block.old (O.state out.new) block.new (spell (split_row l count)) }
{
    put_line(out, block, b"split", &[i128::from(l), count as i128])
}

fn word_of(op: Op) -> &'static [u8]
    ensures { result.now ≡ op_word op }
{
    match op {
        Op::Sum => b"sum",
        Op::Less => b"less",
        Op::Times => b"times",
    }
}

/// A line of words and a number.
fn put_number_line<O: Sink>(
    out: &mut O,
    block: &mut Block,
    words: &[u8],
    number: u64,
) -> Result<(), SinkError>
    ensures { Writes result (O.state out.old) block.old (O.state out.new) block.new (field_line words.now (decimal number ∷ [])) }
{
    put_line(out, block, words, &[i128::from(number)])
}

/// A line of words, a number and a node.
fn put_node_line<O: Sink>(
    out: &mut O,
    block: &mut Block,
    words: &[u8],
    number: u64,
    fix: &Fix,
) -> Result<(), SinkError>
    ensures { Writes result (O.state out.old) block.old (O.state out.new) block.new (field_line words.now (decimal number ∷ fix_fields fix.now)) }
{
    put_list_line(
        out,
        block,
        words,
        &[
            i128::from(number),
            i128::from(fix.first),
            fix.acts.len() as i128,
        ],
        fix.acts.as_slice(),
    )
}

/// A line of words, a number, a count of steps and a node.
fn put_step_line<O: Sink>(
    out: &mut O,
    block: &mut Block,
    words: &[u8],
    number: u64,
    step: u64,
    fix: &Fix,
) -> Result<(), SinkError>
    ensures { Writes result (O.state out.old) block.old (O.state out.new) block.new (field_line words.now (decimal number ∷ decimal step ∷ fix_fields fix.now)) }
{
    put_list_line(
        out,
        block,
        words,
        &[
            i128::from(number),
            i128::from(step),
            i128::from(fix.first),
            fix.acts.len() as i128,
        ],
        fix.acts.as_slice(),
    )
}

/// A line of words, the name of a value, its operation and operands, a count of steps and a node.
fn put_value_line<O: Sink>(
    out: &mut O,
    block: &mut Block,
    words: &[u8],
    name: u8,
    wide: &Wide,
    step: u64,
    fix: &Fix,
) -> Result<(), SinkError>
    ensures { Writes result (O.state out.old) block.old (O.state out.new) block.new (field_line words.now (decimal name ∷ op_word wide.now.op ∷ signed_decimal wide.now.left ∷ signed_decimal wide.now.right ∷ decimal step ∷ fix_fields fix.now)) }
{
    put_word_line(
        out,
        block,
        words,
        word_of(wide.op),
        Around {
            before: &[i128::from(name)],
            after: &[
                wide.left,
                wide.right,
                i128::from(step),
                i128::from(fix.first),
                fix.acts.len() as i128,
            ],
            choices: fix.acts.as_slice(),
        },
    )
}

/// A budget of nodes that was spent.
fn put_spent_nodes<O: Sink>(out: &mut O, block: &mut Block, budget: u64) -> Result<(), SinkError>
    ensures { Writes result (O.state out.old) block.old (O.state out.new) block.new (spell (codes "verdict" ∷ codes "gap" ∷ cause_fields (causes.Nodes budget))) }
{
    put_number_line(out, block, b"verdict gap nodes", budget)
}

/// A budget of pivots that a node spent.
fn put_spent_pivots<O: Sink>(
    out: &mut O,
    block: &mut Block,
    budget: u64,
    fix: &Fix,
) -> Result<(), SinkError>
    ensures { Writes result (O.state out.old) block.old (O.state out.new) block.new (spell (codes "verdict" ∷ codes "gap" ∷ cause_fields (causes.Pivots budget fix.now))) }
{
    put_node_line(out, block, b"verdict gap pivots", budget, fix)
}

/// A budget of looks that a node spent.
fn put_spent_looks<O: Sink>(
    out: &mut O,
    block: &mut Block,
    budget: u64,
    step: u64,
    fix: &Fix,
) -> Result<(), SinkError>
    ensures { Writes result (O.state out.old) block.old (O.state out.new) block.new (spell (codes "verdict" ∷ codes "gap" ∷ cause_fields (causes.Looks budget step fix.now))) }
{
    put_step_line(out, block, b"verdict gap looks", budget, step, fix)
}

/// A value of a node that lies outside `i128`.
fn put_wide<O: Sink>(
    out: &mut O,
    block: &mut Block,
    name: u8,
    wide: &Wide,
    step: u64,
    fix: &Fix,
) -> Result<(), SinkError>
    ensures { Writes result (O.state out.old) block.old (O.state out.new) block.new (spell (codes "verdict" ∷ codes "gap" ∷ cause_fields (causes.Wide name wide.now step fix.now))) }
{
    put_value_line(out, block, b"verdict gap wide", name, wide, step, fix)
}

/// The verdict of a gap.
fn put_cause<O: Sink>(out: &mut O, block: &mut Block, cause: &Cause) -> Result<(), SinkError>
    ensures { Writes result (O.state out.old) block.old (O.state out.new) block.new (spell (codes "verdict" ∷ codes "gap" ∷ cause_fields cause.now)) }
{
    match cause {
        Cause::Nodes(budget) => put_spent_nodes(out, block, *budget),
        Cause::Pivots { budget, fix } => put_spent_pivots(out, block, *budget, fix),
        Cause::Looks { budget, step, fix } => put_spent_looks(out, block, *budget, *step, fix),
        Cause::Wide {
            name,
            wide,
            step,
            fix,
        } => put_wide(out, block, *name, wide, *step, fix),
    }
}

/// The verdict.
pub fn put_verdict<O: Sink>(
    out: &mut O,
    block: &mut Block,
    ending: &Ending,
) -> Result<(), SinkError>
    ensures { Writes result (O.state out.old) block.old (O.state out.new) block.new (spell (verdict_row ending.now)) }
{
    match ending {
        Ending::Optimal => put_line(out, block, b"verdict optimal", &[]),
        Ending::Gap(cause) => put_cause(out, block, cause),
    }
}
