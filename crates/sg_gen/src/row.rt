//! Payoffs that are drawn.

ghost use Rattle.std.specs.Prelude.{◌≡◌, ◌+◌, ◌*◌, ◌%◌, ◌^◌, ◌<◌, ◌≤◌, ◌+ℤ◌, ◌-ℤ◌, ◌≤ℤ◌, ◌∷◌, [], pos, negsuc, IfOk, map};
ghost use Rattle.sg_game.specs.Seen.{number_lists};
ghost use Rattle.sg_gen.specs.Draws.{in_turn, word_of_seed};
ghost use Rattle.sg_gen.specs.Generated.{block_row, drawn_pay, drawn_table, free_row};
ghost use Rattle.sg_gen.specs.Making.{Draws};

use crate::draws::draw;
use rand_chacha::ChaCha20Rng;
use std::alloc::{AllocError, Global};

/// What is left of a word where it is divided by `n`.
fn draw_below(rng: &mut ChaCha20Rng, n: u32) -> i64
    requires some { 1 ≤ n }
    requires few { n ≤ 1000 }
    ensures draws { Draws rng.old rng.new 1 result (λ seed k. pos (word_of_seed seed k % n)) }
    ensures low { pos 0 ≤ℤ result }
    ensures high { result ≤ℤ pos 999 }
{
    i64::from(draw(rng) % n)
}

/// A gap: 2 to the power of 10 to 20.
fn draw_gap(rng: &mut ChaCha20Rng) -> i64
    ensures draws { Draws rng.old rng.new 1 result (λ seed k. pos (2 ^ (10 + word_of_seed seed k % 11))) }
    ensures low { pos 0 ≤ℤ result }
    ensures high { result ≤ℤ pos (2 ^ 20) }
{
    1i64 << (10 + draw(rng) % 11)
}

/// The payoffs of a target in the order of a game file.
fn row_of(alloc: Global, dc: i64, du: i64, ac: i64, au: i64) -> Result<Vec<i64>, AllocError>
    ensures { IfOk result (λ row. row.items ≡ dc ∷ du ∷ ac ∷ au ∷ []) }
{
    let mut row = Vec::with_capacity(alloc, 4)?;
    row.push(dc)?;
    row.push(du)?;
    row.push(ac)?;
    row.push(au)?;
    Ok(row)
}

/// The payoffs of a target of identical patrols, from what was drawn for it.
fn free_row_of(
    alloc: Global,
    gap: i64,
    loss: i64,
    gain: i64,
    open_loss: i64,
) -> Result<Vec<i64>, AllocError>
    requires gap_low { pos 0 ≤ℤ gap }
    requires gap_high { gap ≤ℤ pos (2 ^ 20) }
    requires loss_low { pos 0 ≤ℤ loss }
    requires loss_high { loss ≤ℤ pos 999 }
    requires open_low { pos 0 ≤ℤ open_loss }
    requires open_high { open_loss ≤ℤ pos 999 }
    ensures { IfOk result (λ row. row.items ≡ gain ∷ (negsuc 0 -ℤ open_loss) ∷ (pos 0 -ℤ loss) ∷ ((pos 0 -ℤ loss) +ℤ gap) ∷ []) }
{
    let covered = -loss;
    row_of(alloc, gain, -1 - open_loss, covered, covered + gap)
}

/// The payoffs of a target of identical patrols.
fn draw_free_row(alloc: Global, rng: &mut ChaCha20Rng) -> Result<Vec<i64>, AllocError>
    ensures { IfOk result (λ row. Draws rng.old rng.new 4 row.items free_row) }
{
    let gap = draw_gap(rng);
    let loss = draw_below(rng, 1000);
    let gain = draw_below(rng, 1000);
    let open_loss = draw_below(rng, 1000);
    let row = free_row_of(alloc, gap, loss, gain, open_loss)?;
    Ok(row)
}

/// The payoffs of so many such targets.
pub(crate) fn draw_free_rows(
    alloc: Global,
    rng: &mut ChaCha20Rng,
    targets: u16,
) -> Result<Vec<Vec<i64>>, AllocError>
    ensures { IfOk result (λ rows. Draws rng.old rng.new (targets * 4) (number_lists rows.items) (in_turn free_row 4 targets)) }
{
    let mut rows = Vec::new(alloc);
    for _i in 0..targets {
        rows.push(draw_free_row(alloc, rng)?)?;
    }
    Ok(rows)
}

/// The payoffs of a target of a block.
fn draw_block_row(alloc: Global, rng: &mut ChaCha20Rng, span: u16) -> Result<Vec<i64>, AllocError>
    requires some { 1 ≤ span }
    requires few { span ≤ 1000 }
    ensures { IfOk result (λ row. Draws rng.old rng.new 1 row.items (block_row span)) }
{
    let u = 1 + draw_below(rng, u32::from(span));
    row_of(alloc, 0, -u, 0, u)
}

/// The payoffs of so many such targets.
pub(crate) fn draw_block_rows(
    alloc: Global,
    rng: &mut ChaCha20Rng,
    targets: u16,
    span: u16,
) -> Result<Vec<Vec<i64>>, AllocError>
    requires some { 1 ≤ span }
    requires few { span ≤ 1000 }
    ensures { IfOk result (λ rows. Draws rng.old rng.new (targets * 1) (number_lists rows.items) (in_turn (block_row span) 1 targets)) }
{
    let mut rows = Vec::new(alloc);
    for _i in 0..targets {
        rows.push(draw_block_row(alloc, rng, span)?)?;
    }
    Ok(rows)
}

/// A payoff of a game in matrix form.
fn draw_pay(rng: &mut ChaCha20Rng) -> i64
    ensures { Draws rng.old rng.new 1 result drawn_pay }
{
    draw_below(rng, 21) - 10
}

/// What is got from one row by each of so many actions.
fn draw_pays(alloc: Global, rng: &mut ChaCha20Rng, actions: u16) -> Result<Vec<i64>, AllocError>
    ensures { IfOk result (λ row. Draws rng.old rng.new (actions * 1) row.items (in_turn drawn_pay 1 actions)) }
{
    let mut row = Vec::new(alloc);
    for _j in 0..actions {
        row.push(draw_pay(rng))?;
    }
    Ok(row)
}

/// A table of payoffs, row by row.
pub(crate) fn draw_table(
    alloc: Global,
    rng: &mut ChaCha20Rng,
    rows: u16,
    actions: u16,
) -> Result<Vec<Vec<i64>>, AllocError>
    ensures { IfOk result (λ table. Draws rng.old rng.new (rows * actions) (number_lists table.items) (drawn_table rows actions)) }
{
    let mut table = Vec::new(alloc);
    for _i in 0..rows {
        table.push(draw_pays(alloc, rng, actions)?)?;
    }
    Ok(table)
}
