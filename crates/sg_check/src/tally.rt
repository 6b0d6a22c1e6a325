//! Sums over tickets by the counts of those that cover each target, made in one walk over them.

ghost use Rattle.std.specs.Prelude.{◌≡◌, ◌↔◌, ◌≤◌, ◌<◌, ◌^◌, ◌+ℤ◌, ◌-ℤ◌, ◌*ℤ◌, ◌≤ℤ◌, All, IsTrue, false, length, pos, replicate, slice_index_or};
ghost use Rattle.sg_model.specs.Commitments.{sum_a, sum_d, weight_total, AreLegal};
ghost use Rattle.sg_model.specs.Games.{is_matrix, payoff, resource_schedules, schedule_targets};
ghost use Rattle.sg_model.specs.Limits.{IsPay};
ghost use Rattle.sg_model.specs.Plays.{IsLegal};
ghost use Rattle.sg_model.specs.Sums.{nth};
ghost use Rattle.sg_game.specs.Tallies.{IsTicketCount, IsTally, marked, no_cell, tallied, touched, touched_all, touched_from};
ghost use Rattle.sg_game.specs.Counts.{IsActionOf, IsGoalOf, IsResourceOf, IsTypeOf};
ghost use Rattle.sg_check.specs.Valuing.{Forms, under_a, under_d};

use crate::sums::{total_a, total_d};
use sg_game::{Cell, Game};
use sg_model::Ticket;

/// One more than the greatest number of targets.
pub(crate) const ROOM: usize = 10001;

/// The cell of a target that ticket `n` covers: the ticket counts once. The sum fits where the total of all weights does.
fn marked(cell: &Cell, n: usize, weight: i128) -> Cell
    ensures { result ≡ marked n weight cell.now }
{
    if cell.mark == n {
        *cell
    } else {
        Cell {
            mark: n,
            count: cell.count.wrapping_add(weight),
        }
    }
}

/// Ticket `n` covers target `t`.
fn touch(cells: &mut [Cell], t: u16, n: usize, weight: i128)
    requires { t < length cells.old }
    ensures { cells.new ≡ touched cells.old t n weight }
{
    let cell = marked(&cells[t as usize], n, weight);
    cells[t as usize] = cell;
}

/// Ticket `n` covers these targets.
fn touch_all(cells: &mut [Cell], targets: &[u16], n: usize, weight: i128)
    requires { All (λ t. t < length cells.old) targets.now }
    ensures { cells.new ≡ touched_all cells.old targets.now n weight }
{
    for t in targets {
        touch(cells, *t, n, weight);
    }
}

/// Ticket `n` has choice `c` of resource `r`.
fn touch_choice(game: &Game, cells: &mut [Cell], r: u16, c: u16, n: usize, weight: i128)
    requires resource { IsResourceOf game.now r }
    requires choice { c ≤ length (resource_schedules game.now r) }
    requires room { length game.now.goals < length cells.old }
    ensures { cells.new ≡ touched_all cells.old (schedule_targets game.now (nth (resource_schedules game.now r) c 0)) n weight }
{
    if c == 0 {
        return;
    }
    let s = game.resource_schedules(r)[c as usize - 1];
    touch_all(cells, game.schedule_targets(s), n, weight);
}

/// Ticket `n` has this play.
fn touch_play(game: &Game, cells: &mut [Cell], code: &[u16], n: usize, weight: i128)
    requires security { is_matrix game.now ≡ false }
    requires legal { IsLegal game.now code.now }
    requires room { length game.now.goals < length cells.old }
    ensures { cells.new ≡ touched_from game.now 1 cells.old code.now n weight }
{
    for i in 0..game.resources() {
        touch_choice(game, cells, i + 1, code[i as usize], n, weight);
    }
}

/// Counts the tickets for each target that they cover: the cell of target `t` is that at place `t`.
fn tally(game: &Game, tickets: &[Ticket], cells: &mut [Cell])
    requires security { is_matrix game.now ≡ false }
    requires legal { AreLegal game.now tickets.now }
    requires room { length game.now.goals < length cells.old }
    ensures { cells.new ≡ tallied game.now cells.old 1 tickets.now }
{
    for i in 0..tickets.len() {
        let ticket = &tickets[i];
        touch_play(
            game,
            cells,
            ticket.play.code.as_slice(),
            i + 1,
            ticket.weight,
        );
    }
}

/// Counts all tickets in cells in which nothing is counted yet.
pub(crate) fn count_all(game: &Game, tickets: &[Ticket], cells: &mut [Cell])
    requires security { is_matrix game.now ≡ false }
    requires positive { All (λ (x : Ticket). pos 1 ≤ℤ x.weight) tickets.now }
    requires few { weight_total tickets.now ≤ℤ pos (2 ^ 95) }
    requires legal { AreLegal game.now tickets.now }
    requires room { 10000 < length cells.old }
    requires fresh { cells.old ≡ replicate (length cells.old) no_cell }
    ensures { IsTally game.now tickets.now cells.new }
{
    let _targets = game.targets();
    tally(game, tickets, cells);
}

/// Whether the target has a cell.
fn has_cell(cells: &[Cell], t: u16) -> bool
    ensures { IsTrue result ↔ (t < length cells.now) }
{
    (t as usize) < cells.len()
}

/// The count of a target.
fn count_at(cells: &[Cell], t: u16) -> i128
    requires { t < length cells.now }
    ensures { result ≡ (slice_index_or cells.now t no_cell).count }
{
    cells[t as usize].count
}

/// How much more the one payoff is.
fn difference(covered: i64, uncovered: i64) -> i128
    requires inside { IsPay covered }
    requires outside { IsPay uncovered }
    ensures value { result ≡ covered -ℤ uncovered }
    ensures low { (pos 0 -ℤ pos (2 ^ 31)) ≤ℤ result }
    ensures high { result ≤ℤ pos (2 ^ 31) }
{
    i128::from(covered) - i128::from(uncovered)
}

/// The sum where all tickets have one payoff, and so many of them so much more.
fn mixed(total: i128, count: i128, uncovered: i128, more: i128) -> i128
    requires counts { IsTicketCount total count }
    requires outside { IsPay uncovered }
    requires least { (pos 0 -ℤ pos (2 ^ 31)) ≤ℤ more }
    requires most { more ≤ℤ pos (2 ^ 31) }
    ensures { result ≡ (uncovered *ℤ total) +ℤ (more *ℤ count) }
{
    uncovered * total + more * count
}

/// The sum of type `l` of a target, by its count.
fn counted_a(game: &Game, total: i128, count: i128, l: u8, t: u16) -> i128
    requires security { is_matrix game.now ≡ false }
    requires known_type { IsTypeOf game.now l }
    requires known { IsGoalOf game.now t }
    requires counts { IsTicketCount total count }
    ensures { result ≡ ((payoff game.now l t).au *ℤ total) +ℤ (((payoff game.now l t).ac -ℤ (payoff game.now l t).au) *ℤ count) }
{
    let [_, _, covered, uncovered] = game.payoffs(l, t);
    mixed(
        total,
        count,
        i128::from(uncovered),
        difference(covered, uncovered),
    )
}

/// The defender's sum of a target that type `l` takes, by its count.
fn counted_d(game: &Game, total: i128, count: i128, l: u8, t: u16) -> i128
    requires security { is_matrix game.now ≡ false }
    requires known_type { IsTypeOf game.now l }
    requires known { IsGoalOf game.now t }
    requires counts { IsTicketCount total count }
    ensures { result ≡ ((payoff game.now l t).du *ℤ total) +ℤ (((payoff game.now l t).dc -ℤ (payoff game.now l t).du) *ℤ count) }
{
    let [covered, uncovered, _, _] = game.payoffs(l, t);
    mixed(
        total,
        count,
        i128::from(uncovered),
        difference(covered, uncovered),
    )
}

/// What type `l` gets from action `a`, summed over the tickets: by the table of counts, where there is one.
pub(crate) fn table_a(
    game: &Game,
    tickets: &[Ticket],
    total: i128,
    table: &[Cell],
    l: u8,
    a: u16,
) -> Option<i128>
    requires known_type { IsTypeOf game.now l }
    requires legal { AreLegal game.now tickets.now }
    requires total { total ≡ weight_total tickets.now }
    requires table { IsTally game.now tickets.now table.now }
    requires known_action { IsActionOf game.now l a }
    ensures { Forms result (under_a game.now tickets.now l a) (sum_a game.now tickets.now l a) }
{
    game.promises();
    if has_cell(table, a) {
        let count = count_at(table, a);
        Some(counted_a(game, total, count, l, a))
    } else {
        total_a(game, tickets, l, a)
    }
}

/// What the defender gets where type `l` takes action `a`, summed over the tickets: by the table of counts, where there
/// is one.
pub(crate) fn table_d(
    game: &Game,
    tickets: &[Ticket],
    total: i128,
    table: &[Cell],
    l: u8,
    a: u16,
) -> Option<i128>
    requires known_type { IsTypeOf game.now l }
    requires legal { AreLegal game.now tickets.now }
    requires total { total ≡ weight_total tickets.now }
    requires table { IsTally game.now tickets.now table.now }
    requires known_action { IsActionOf game.now l a }
    ensures { Forms result (under_d game.now tickets.now l a) (sum_d game.now tickets.now l a) }
{
    game.promises();
    if has_cell(table, a) {
        let count = count_at(table, a);
        Some(counted_d(game, total, count, l, a))
    } else {
        total_d(game, tickets, l, a)
    }
}
