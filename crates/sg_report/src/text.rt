//! The lines of the table.

ghost use Rattle.std.specs.Prelude.{◌≡◌, ◌<◌, ◌++◌, slice_index_or, [], ◌∷◌, true, false, ℕ, IfOk, IfSome, OnOk, codes, flat_map, length};
ghost use Rattle.std.specs.Fmt.{signed_decimal};
ghost use Rattle.sg_model.specs.Games.{attacker, is_matrix};
ghost use Rattle.sg_model.specs.TextLines.{field_line};
ghost use Rattle.sg_model.specs.Commitments.{cover_count, AreLegal};
ghost use Rattle.sg_model.specs.Sums.{numbers};
ghost use Rattle.sg_frac.specs.Fractions.{fraction_text};
ghost use Rattle.sg_game.specs.Counts.{IsActionOf, IsGoalOf, IsTypeOf, action_name};
ghost use Rattle.sg_game.specs.Tallies.{no_cell};
ghost use Rattle.sg_report.specs.Tables.{goal_line, row_line, target_line};
ghost use Rattle.sg_report.specs.Lines.{answer_line, target_text};

use itoa::Buffer;
use sg_commit::{Commitment, count_covers, played_count};
use sg_frac::Frac;
use sg_game::{Cell, Game};
use sg_model::Kind;
use std::alloc::{AllocError, Global};

/// Adds a field.
fn put_field(text: &mut Vec<u8>, field: &[u8]) -> Result<(), AllocError>
    ensures { OnOk result (text.new.items ≡ text.old.items ++ 32 ∷ field.now) }
{
    text.push(b' ')?;
    text.extend_from_slice(field)?;
    Ok(())
}

/// Adds a field with a number.
fn put_number(text: &mut Vec<u8>, number: i128) -> Result<(), AllocError>
    ensures { OnOk result (text.new.items ≡ text.old.items ++ 32 ∷ signed_decimal number) }
{
    let mut buffer = Buffer::new();
    put_field(text, buffer.format(number).as_bytes())
}

/// Adds a line of a word and a fraction.
pub(crate) fn put_fraction_line(
    text: &mut Vec<u8>,
    alloc: Global,
    word: &[u8],
    fraction: &Frac,
) -> Result<(), AllocError>
    ensures { OnOk result (text.new.items ≡ text.old.items ++ field_line word.now (fraction_text fraction.now ∷ [])) }
{
    let field = fraction.text(alloc)?;
    text.extend_from_slice(word)?;
    put_field(text, field.as_bytes())?;
    text.push(b'\n')?;
    Ok(())
}

/// Adds the line with the number of tickets.
pub(crate) fn put_tickets_line(text: &mut Vec<u8>, total: &i128) -> Result<(), AllocError>
    ensures { OnOk result (text.new.items ≡ text.old.items ++ field_line (codes "tickets") (signed_decimal total.now ∷ [])) }
{
    text.extend_from_slice(b"tickets")?;
    put_number(text, *total)?;
    text.push(b'\n')?;
    Ok(())
}

/// Adds a line of a word, a name and a count.
fn put_count_line(
    text: &mut Vec<u8>,
    word: &[u8],
    name: &str,
    count: &i128,
) -> Result<(), AllocError>
    ensures { OnOk result (text.new.items ≡ text.old.items ++ field_line word.now (name.now ∷ signed_decimal count.now ∷ [])) }
{
    text.extend_from_slice(word)?;
    put_field(text, name.as_bytes())?;
    put_number(text, *count)?;
    text.push(b'\n')?;
    Ok(())
}

/// How many targets there are.
fn targets_of(game: &Game) -> u16
    requires { is_matrix game.now ≡ false }
    ensures { result ≡ length game.now.goals }
{
    game.targets()
}

/// How many rows there are.
fn rows_of(game: &Game) -> u16
    requires { is_matrix game.now ≡ true }
    ensures { result ≡ length game.now.goals }
{
    game.rows()
}

/// How many tickets cover each target: those of target `t` at place `t`.
fn covers_of(alloc: Global, game: &Game, k: &Commitment) -> Result<Vec<Cell>, AllocError>
    requires security { is_matrix game.now ≡ false }
    requires legal { AreLegal game.now k.now.tickets }
    ensures room { IfOk result (λ cells. length game.now.goals < length cells.items) }
    ensures counts { IfOk result (λ cells. (t : ℕ) → t < length cells.items → (slice_index_or cells.items t no_cell).count ≡ cover_count game.now k.now.tickets t) }
{
    let mut cells = vec![in alloc; Cell { mark: 0, count: 0 }; targets_of(game) as usize + 1]?;
    count_covers(game, k, cells.as_mut_slice());
    Ok(cells)
}

/// Adds the line of a target with its count.
fn put_target_line(text: &mut Vec<u8>, game: &Game, t: u16, cell: &Cell) -> Result<(), AllocError>
    requires security { is_matrix game.now ≡ false }
    requires known { IsGoalOf game.now t }
    ensures { OnOk result (text.new.items ≡ text.old.items ++ target_text game.now t cell.now.count) }
{
    put_count_line(text, b"target", game.target_name(t), &cell.count)
}

/// Adds the lines of all targets, by the counts of the cells: that of target `t` at place `t`.
fn put_counts(text: &mut Vec<u8>, game: &Game, cells: &[Cell]) -> Result<(), AllocError>
    requires security { is_matrix game.now ≡ false }
    requires room { length game.now.goals < length cells.now }
    ensures { OnOk result (text.new.items ≡ text.old.items
        ++ flat_map (λ n. target_text game.now n (slice_index_or cells.now n no_cell).count) (numbers (length game.now.goals))) }
{
    for n in 0..targets_of(game) {
        put_target_line(text, game, n + 1, &cells[n as usize + 1])?;
    }
    Ok(())
}

/// Adds the lines of all targets.
fn put_target_lines(
    text: &mut Vec<u8>,
    alloc: Global,
    game: &Game,
    k: &Commitment,
) -> Result<(), AllocError>
    requires security { is_matrix game.now ≡ false }
    requires legal { AreLegal game.now k.now.tickets }
    ensures { OnOk result (text.new.items ≡ text.old.items ++ flat_map (target_line game.now k.now.tickets) (numbers (length game.now.goals))) }
{
    let cells = covers_of(alloc, game, k)?;
    put_counts(text, game, cells.as_slice())?;
    Ok(())
}

/// Adds the line of a row with the tickets that play it.
fn put_row_line(text: &mut Vec<u8>, game: &Game, k: &Commitment, i: u16) -> Result<(), AllocError>
    requires matrix { is_matrix game.now ≡ true }
    requires known { IsGoalOf game.now i }
    ensures { OnOk result (text.new.items ≡ text.old.items ++ row_line game.now k.now.tickets i) }
{
    let count = played_count(k, i);
    put_count_line(text, b"row", game.row_name(i), &count)
}

/// Adds the lines of all rows.
fn put_row_lines(text: &mut Vec<u8>, game: &Game, k: &Commitment) -> Result<(), AllocError>
    requires { is_matrix game.now ≡ true }
    ensures { OnOk result (text.new.items ≡ text.old.items ++ flat_map (row_line game.now k.now.tickets) (numbers (length game.now.goals))) }
{
    for n in 0..rows_of(game) {
        put_row_line(text, game, k, n + 1)?;
    }
    Ok(())
}

/// Adds the lines of all targets or rows.
pub(crate) fn put_goal_lines(
    text: &mut Vec<u8>,
    alloc: Global,
    game: &Game,
    k: &Commitment,
) -> Result<(), AllocError>
    requires { AreLegal game.now k.now.tickets }
    ensures { OnOk result (text.new.items ≡ text.old.items ++ flat_map (goal_line game.now k.now.tickets) (numbers (length game.now.goals))) }
{
    match game.kind() {
        Kind::Security => put_target_lines(text, alloc, game, k),
        Kind::Matrix => put_row_lines(text, game, k),
    }
}

/// Adds the line of a type that takes this action, if any.
pub(crate) fn put_answer_line(
    text: &mut Vec<u8>,
    game: &Game,
    l: u8,
    answer: Option<u16>,
) -> Result<(), AllocError>
    requires known_type { IsTypeOf game.now l }
    requires known_action { IfSome answer (IsActionOf game.now l) }
    ensures { OnOk result (text.new.items ≡ text.old.items ++ answer_line game.now l answer) }
{
    text.extend_from_slice(b"type")?;
    put_field(text, game.type_name(l).as_bytes())?;
    put_field(text, b"attacks")?;
    match answer {
        Some(a) => put_field(text, game.action_name(l, a).as_bytes())?,
        None => put_field(text, b"")?,
    }
    text.push(b'\n')?;
    Ok(())
}
