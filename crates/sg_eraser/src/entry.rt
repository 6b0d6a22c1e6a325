//! The entry of a row of the coverage table in a column.

ghost use Rattle.std.specs.Prelude.{◌≡◌, ◌≤◌, ◌-ℤ◌, length, if◌then◌else◌, negsuc, pos, nat_eq};
ghost use Rattle.std.specs.List.{list_any};
ghost use Rattle.sg_model.specs.declared.kind.Kind.TheVariants.{Security};
ghost use Rattle.sg_model.specs.Games.{payoff, resource_schedules};
ghost use Rattle.sg_model.specs.Limits.{IsPay};
ghost use Rattle.sg_game.specs.Counts.{IsGoalOf, IsResourceOf, IsTypeOf};
ghost use Rattle.sg_bounds.specs.Coverage.{choice_holds, covering, entry, gains, where_same};
ghost use Rattle.sg_bounds.specs.Regions.{IsFix};
ghost use Rattle.sg_eraser.specs.TableValues.{IsCoverColumn, IsCoverRow, meant_entry};

use crate::fixed::own_target;
use crate::table::{CoverColumn, CoverRow};
use sg_game::Game;
use sg_tree::Fix;

/// What a type gets at a covered target.
fn covered_pay(game: &Game, l: u8, t: u16) -> i64
    requires security { game.now.kind ≡ Security }
    requires known_type { IsTypeOf game.now l }
    requires known_target { IsGoalOf game.now t }
    ensures value { result ≡ (payoff game.now l t).ac }
    ensures within { IsPay result }
{
    let [_, _, covered, _] = game.payoffs(l, t);
    covered
}

/// What a type gets at an uncovered target.
fn uncovered_pay(game: &Game, l: u8, t: u16) -> i64
    requires security { game.now.kind ≡ Security }
    requires known_type { IsTypeOf game.now l }
    requires known_target { IsGoalOf game.now t }
    ensures value { result ≡ (payoff game.now l t).au }
    ensures within { IsPay result }
{
    let [_, _, _, uncovered] = game.payoffs(l, t);
    uncovered
}

/// How much more the one payoff is.
fn difference(one: i64, two: i64) -> i64
    requires one { IsPay one }
    requires two { IsPay two }
    ensures { result ≡ one -ℤ two }
{
    one - two
}

/// 1 where the two numbers are equal, else 0.
fn one_where_same(one: u16, two: u16) -> i64
    ensures { result ≡ where_same one two (pos 1) }
{
    if one == two { 1 } else { 0 }
}

/// Whether `t` is one of the members.
fn has(members: &[u16], t: u16) -> bool
    ensures { result ≡ list_any (λ x. nat_eq x t) members.now }
{
    members.iter().any(|x| *x == t)
}

/// Whether choice `j` of resource `r`, from 1, holds target `t`.
fn does_hold(game: &Game, r: u16, j: usize, t: u16) -> bool
    requires resource { IsResourceOf game.now r }
    requires from_one { 1 ≤ j }
    requires in_list { j ≤ length (resource_schedules game.now r) }
    ensures { result ≡ choice_holds game.now r j t }
{
    let s = game.resource_schedules(r)[j - 1];
    has(game.schedule_targets(s), t)
}

/// -1 where a test holds, else 0.
fn minus_where(holds: bool) -> i64
    ensures { result ≡ (if holds then negsuc 0 else pos 0) }
{
    if holds { -1 } else { 0 }
}

/// The entry of a row in the column of the whole.
fn whole_entry(game: &Game, fix: &Fix, row: CoverRow) -> i64
    requires security { game.now.kind ≡ Security }
    requires is_fix { IsFix game.now fix.now }
    requires row { IsCoverRow game.now fix.now row }
    ensures { result ≡ meant_entry game.now fix.now row CoverColumn.Always }
{
    game.promises();
    match row {
        CoverRow::Whole => 1,
        CoverRow::Spends(_) => -1,
        CoverRow::Held(_) => 0,
        CoverRow::Within(_) => -1,
        CoverRow::Gains { l, other } => {
            let own = own_target(game, fix, l);
            difference(uncovered_pay(game, l, other), uncovered_pay(game, l, own))
        }
    }
}

/// The entry of a row in the column of choice `j` of resource `r`.
fn choice_entry(game: &Game, fix: &Fix, row: CoverRow, r: u16, j: usize) -> i64
    requires column { IsCoverColumn game.now (CoverColumn.Chooses r j) }
    ensures { result ≡ meant_entry game.now fix.now row (CoverColumn.Chooses r j) }
{
    match row {
        CoverRow::Whole => 0,
        CoverRow::Spends(s) => one_where_same(s, r),
        CoverRow::Held(t) => minus_where(does_hold(game, r, j, t)),
        CoverRow::Within(_) => 0,
        CoverRow::Gains { .. } => 0,
    }
}

/// The entry of what type `l` gains by another target in the column of target `t`.
fn gains_entry(game: &Game, fix: &Fix, l: u8, other: u16, t: u16) -> i64
    requires security { game.now.kind ≡ Security }
    requires is_fix { IsFix game.now fix.now }
    requires row { IsCoverRow game.now fix.now (CoverRow.Gains l other) }
    ensures { result ≡ entry game.now fix.now (gains l other) (covering t) }
{
    game.promises();
    let own = own_target(game, fix, l);
    if t == other {
        difference(covered_pay(game, l, other), uncovered_pay(game, l, other))
    } else if t == own {
        difference(uncovered_pay(game, l, own), covered_pay(game, l, own))
    } else {
        0
    }
}

/// The entry of a row in the column of target `t`.
fn target_entry(game: &Game, fix: &Fix, row: CoverRow, t: u16) -> i64
    requires security { game.now.kind ≡ Security }
    requires is_fix { IsFix game.now fix.now }
    requires row { IsCoverRow game.now fix.now row }
    ensures { result ≡ meant_entry game.now fix.now row (CoverColumn.Covering t) }
{
    match row {
        CoverRow::Whole => 0,
        CoverRow::Spends(_) => 0,
        CoverRow::Held(s) => one_where_same(s, t),
        CoverRow::Within(s) => one_where_same(s, t),
        CoverRow::Gains { l, other } => gains_entry(game, fix, l, other, t),
    }
}

/// The entry of a row in a column.
pub(crate) fn entry_at(game: &Game, fix: &Fix, row: CoverRow, column: CoverColumn) -> i64
    requires security { game.now.kind ≡ Security }
    requires is_fix { IsFix game.now fix.now }
    requires row { IsCoverRow game.now fix.now row }
    requires column { IsCoverColumn game.now column }
    ensures { result ≡ meant_entry game.now fix.now row column }
{
    match column {
        CoverColumn::Always => whole_entry(game, fix, row),
        CoverColumn::Chooses { r, j } => choice_entry(game, fix, row, r, j),
        CoverColumn::Covering(t) => target_entry(game, fix, row, t),
    }
}
