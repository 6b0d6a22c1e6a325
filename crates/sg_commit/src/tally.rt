//! Counts of the tickets that cover each target, made in one walk over the tickets.

ghost use Rattle.std.specs.Prelude.{◌≡◌, ◌≤◌, ◌<◌, ◌^◌, false, length, pos, ◌≤ℤ◌, All, ℕ, replicate, slice_index_or};
ghost use Rattle.sg_model.specs.declared.limit.TheConstants.{SCALED_TARGET_LIMIT};
ghost use Rattle.sg_model.specs.Games.{is_matrix, payoff, resource_schedules, schedule_targets};
ghost use Rattle.sg_model.specs.Plays.{IsLegal};
ghost use Rattle.sg_model.specs.Sums.{nth};
ghost use Rattle.sg_game.specs.Tallies.{IsTally, marked, no_cell, tallied, touched, touched_all, touched_from};
ghost use Rattle.sg_game.specs.Counts.{IsActionOf, IsGoalOf, IsResourceOf, IsTypeOf};
ghost use Rattle.sg_model.specs.Commitments.{cover_count, AreLegal};
ghost use Rattle.sg_commit.specs.Sides.{covered_to, exact_sum_to, uncovered_to};
ghost use Rattle.sg_commit.specs.Tallies.{counted_sum};

use crate::commitment::Commitment;
use crate::side::Side;
use crate::sums::sum_to;
use sg_game::{Cell, Game};
use sg_model::Ticket;
use sg_num::{Wide, dot_step, times};

/// One more than the greatest number of targets.
pub(crate) const ROOM: usize = 10001;

// The cell of a target that ticket `n` covers: the ticket counts once. The sum fits where the total of all weights does.
fn marked(cell: &Cell, n: usize, weight: i128) -> Cell
    ensures { result ≡ marked n weight cell.now }
{
    if cell.mark == n {
        *cell
    } else {
        Cell {
            mark: n,
            count: cell.count.wrapping_add(weight),
        }
    }
}

// Ticket `n` covers target `t`.
fn touch(cells: &mut [Cell], t: u16, n: usize, weight: i128)
    requires { t < length cells.old }
    ensures { cells.new ≡ touched cells.old t n weight }
{
    let cell = marked(&cells[t as usize], n, weight);
    cells[t as usize] = cell;
}

// Ticket `n` covers these targets.
fn touch_all(cells: &mut [Cell], targets: &[u16], n: usize, weight: i128)
    requires { All (λ t. t < length cells.old) targets.now }
    ensures { cells.new ≡ touched_all cells.old targets.now n weight }
{
    for t in targets {
        touch(cells, *t, n, weight);
    }
}

// Ticket `n` has choice `c` of resource `r`.
fn touch_choice(game: &Game, cells: &mut [Cell], r: u16, c: u16, n: usize, weight: i128)
    requires resource { IsResourceOf game.now r }
    requires choice { c ≤ length (resource_schedules game.now r) }
    requires room { length game.now.goals < length cells.old }
    ensures { cells.new ≡ touched_all cells.old (schedule_targets game.now (nth (resource_schedules game.now r) c 0)) n weight }
{
    if c == 0 {
        return;
    }
    let s = game.resource_schedules(r)[c as usize - 1];
    touch_all(cells, game.schedule_targets(s), n, weight);
}

// Ticket `n` has this play.
fn touch_play(game: &Game, cells: &mut [Cell], code: &[u16], n: usize, weight: i128)
    requires security { is_matrix game.now ≡ false }
    requires legal { IsLegal game.now code.now }
    requires room { length game.now.goals < length cells.old }
    ensures { cells.new ≡ touched_from game.now 1 cells.old code.now n weight }
{
    for i in 0..game.resources() {
        touch_choice(game, cells, i + 1, code[i as usize], n, weight);
    }
}

// Counts the tickets for each target that they cover: the cell of target `t` is that at place `t`.
fn tally(game: &Game, tickets: &[Ticket], cells: &mut [Cell])
    requires security { is_matrix game.now ≡ false }
    requires legal { AreLegal game.now tickets.now }
    requires room { length game.now.goals < length cells.old }
    ensures { cells.new ≡ tallied game.now cells.old 1 tickets.now }
{
    for i in 0..tickets.len() {
        let ticket = &tickets[i];
        touch_play(
            game,
            cells,
            ticket.play.code.as_slice(),
            i + 1,
            ticket.weight,
        );
    }
}

/// Counts the tickets that cover each target of a game in security form, in one walk over the tickets, in cells in which
/// nothing is counted yet: those of target `t` at place `t`.
pub fn count_covers(game: &Game, k: &Commitment, cells: &mut [Cell])
    requires security { is_matrix game.now ≡ false }
    requires legal { AreLegal game.now k.now.tickets }
    requires room { length game.now.goals < length cells.old }
    requires fresh { cells.old ≡ replicate (length cells.old) no_cell }
    ensures size { length cells.new ≡ length cells.old }
    ensures counts { (t : ℕ) → t < length cells.old → (slice_index_or cells.new t no_cell).count ≡ cover_count game.now k.now.tickets t }
{
    let _total = k.total();
    tally(game, k.tickets(), cells);
}

/// Counts all tickets of the commitment in cells in which nothing is counted yet.
pub(crate) fn count_all(game: &Game, k: &Commitment, cells: &mut [Cell])
    requires security { is_matrix game.now ≡ false }
    requires few { k.now.total ≤ℤ pos (2 ^ 95) }
    requires legal { AreLegal game.now k.now.tickets }
    requires room { SCALED_TARGET_LIMIT < length cells.old }
    requires fresh { cells.old ≡ replicate (length cells.old) no_cell }
    ensures { IsTally game.now k.now.tickets cells.new }
{
    let _targets = game.targets();
    tally(game, k.tickets(), cells);
}

// The count of a target.
fn count_at(cells: &[Cell], t: u16) -> i128
    requires { t < length cells.now }
    ensures { result ≡ (slice_index_or cells.now t no_cell).count }
{
    cells[t as usize].count
}

// The sum where so many tickets have the covered payoff, and the others the uncovered one.
fn mixed(total: i128, count: i128, covered: i64, uncovered: i64) -> Result<i128, Wide>
    ensures { result ≡ counted_sum total count covered uncovered }
{
    let more = i128::from(covered) - i128::from(uncovered);
    match times(i128::from(uncovered), total) {
        Ok(all) => dot_step(all, more, count),
        Err(wide) => Err(wide),
    }
}

// A side's sum of a target, by its count.
fn counted(side: Side, game: &Game, total: i128, count: i128, l: u8, t: u16) -> Result<i128, Wide>
    requires security { is_matrix game.now ≡ false }
    requires known_type { IsTypeOf game.now l }
    requires known_target { IsGoalOf game.now t }
    ensures { result ≡ counted_sum total count (covered_to side (payoff game.now l t)) (uncovered_to side (payoff game.now l t)) }
{
    let pays = side.pays(game, l, t);
    mixed(total, count, pays.covered, pays.uncovered)
}

/// `sum_to`, by the table of counts where there is one.
pub(crate) fn table_sum(
    side: Side,
    game: &Game,
    k: &Commitment,
    table: &[Cell],
    l: u8,
    a: u16,
) -> Result<i128, Wide>
    requires legal { AreLegal game.now k.now.tickets }
    requires table { IsTally game.now k.now.tickets table.now }
    requires known_type { IsTypeOf game.now l }
    requires known_action { IsActionOf game.now l a }
    ensures { result ≡ exact_sum_to side game.now k.now.tickets l a }
{
    if table.is_empty() {
        return sum_to(side, game, k, l, a);
    }
    game.promises();
    let _tickets = k.tickets();
    let count = count_at(table, a);
    counted(side, game, k.total(), count, l, a)
}
