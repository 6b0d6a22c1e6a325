//! The whole table.

ghost use Rattle.std.specs.Prelude.{◌≡◌, ◌++◌, Err, IfErr, IfOk, IfSome, IsErrAnd, IsOk, OnOk, flat_map, length};
ghost use Rattle.sg_model.specs.Sums.{numbers};
ghost use Rattle.sg_model.specs.Commitments.{AreLegal};
ghost use Rattle.sg_game.specs.Counts.{IsActionOf, IsTypeOf};
ghost use Rattle.sg_commit.specs.Answers.{answer};
ghost use Rattle.sg_commit.specs.ExactSums.{exact_base, exact_take};
ghost use Rattle.sg_num.specs.declared.step.Wide.{Wide};
ghost use Rattle.sg_report.specs.Lines.{head_text};
ghost use Rattle.sg_report.specs.Tables.{IsReportTable, table_text, type_line};

use crate::text::{put_answer_line, put_fraction_line, put_goal_lines, put_tickets_line};
use sg_commit::{Commitment, answer, value};
use sg_frac::Frac;
use sg_game::Game;
use sg_num::Wide;
use std::alloc::{AllocError, Global};
use thiserror::Error;

/// The answer of a type whose sums are known to fit.
fn answer_of(game: &Game, k: &Commitment, l: u8) -> Option<u16>
    requires legal { AreLegal game.now k.now.tickets }
    requires known { IsTypeOf game.now l }
    requires fits { IsOk (exact_take game.now k.now.tickets l) }
    ensures answer { result ≡ answer game.now k.now.tickets l }
    ensures known { IfSome result (IsActionOf game.now l) }
{
    match answer(game, k, l) {
        Ok(told) => told,
        Err(_) => unreachable!(),
    }
}

/// Adds the lines of all types.
fn put_type_lines(text: &mut Vec<u8>, game: &Game, k: &Commitment) -> Result<(), AllocError>
    requires legal { AreLegal game.now k.now.tickets }
    requires fits { IsOk (exact_base game.now k.now.tickets) }
    ensures { OnOk result (text.new.items ≡ text.old.items ++ flat_map (type_line game.now k.now.tickets) (numbers (length game.now.types))) }
{
    for l in 0..game.types() {
        let answer = answer_of(game, k, l + 1);
        put_answer_line(text, game, l + 1, answer)?;
    }
    Ok(())
}

/// Adds the lines above those of the targets.
fn put_head(
    text: &mut Vec<u8>,
    alloc: Global,
    value: &Frac,
    upper: &Frac,
    total: &i128,
) -> Result<(), AllocError>
    ensures { OnOk result (text.new.items ≡ text.old.items ++ head_text value.now upper.now total.now) }
{
    put_fraction_line(text, alloc, b"value", value)?;
    put_fraction_line(text, alloc, b"upper", upper)?;
    put_tickets_line(text, total)?;
    Ok(())
}

/// The text of the table, with the value of the commitment.
fn table(
    alloc: Global,
    game: &Game,
    k: &Commitment,
    value: &Frac,
    upper: &Frac,
) -> Result<Vec<u8>, AllocError>
    requires legal { AreLegal game.now k.now.tickets }
    requires fits { IsOk (exact_base game.now k.now.tickets) }
    ensures { IfOk result (λ text. text.items ≡ table_text game.now k.now.tickets value.now upper.now) }
{
    let _tickets = k.tickets();
    let mut text = Vec::new(alloc);
    put_head(&mut text, alloc, value, upper, &k.total())?;
    put_goal_lines(&mut text, alloc, game, k)?;
    put_type_lines(&mut text, game, k)?;
    Ok(text)
}

/// Why there is no table.
#[derive(Clone, Copy, Debug, PartialEq, Eq, Error)]
pub enum ShowFault {
    /// The value of the commitment is not formed within 128 bits: the first operation that does not fit.
    #[error("the value does not fit 128 bits")]
    Wide(Wide),
    /// Memory ran out.
    #[error("memory ran out")]
    Memory,
}

/// A report as a table for people: value, upper bound and number of tickets, then each target with the tickets that
/// cover it, or in matrix form each row with its tickets, then each type of attacker with the action that it takes.
///
/// # Errors
///
/// `Wide` exactly where `sg_commit::value` gives it. Else only memory may be wanting.
pub fn show_text(
    alloc: Global,
    game: &Game,
    k: &Commitment,
    upper: Frac,
) -> Result<Vec<u8>, ShowFault>
    requires legal { AreLegal game.now k.now.tickets }
    ensures text { IfOk result (λ text. IsReportTable game.now k.now.tickets upper text.items) }
    ensures fits { IfOk result (λ text. IsOk (exact_base game.now k.now.tickets)) }
    ensures wide { (w : Wide) → (exact_base game.now k.now.tickets ≡ Err w) → IsErrAnd result (λ fault. fault ≡ ShowFault.Wide w) }
    ensures cause { IfErr result (λ fault. (w : Wide) → (fault ≡ ShowFault.Wide w) → (exact_base game.now k.now.tickets ≡ Err w)) }
{
    match value(game, k) {
        Ok(value) => match table(alloc, game, k, &value, &upper) {
            Ok(text) => Ok(text),
            Err(_) => Err(ShowFault::Memory),
        },
        Err(wide) => Err(ShowFault::Wide(wide)),
    }
}
