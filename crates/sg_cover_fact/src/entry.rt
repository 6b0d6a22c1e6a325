//! The entries of a row, and what a line adds to the sums over lines.

ghost use Rattle.std.specs.Prelude.{◌≡◌, ◌<◌, ◌+ℤ◌, ◌-ℤ◌, ◌*ℤ◌, ℕ, length, pos, slice_index_or, slice_set};
ghost use Rattle.sg_model.specs.declared.kind.Kind.TheVariants.{Security};
ghost use Rattle.sg_model.specs.Games.{payoff};
ghost use Rattle.sg_model.specs.Limits.{IsPay};
ghost use Rattle.sg_game.specs.Counts.{IsGoalOf, IsTypeOf};
ghost use Rattle.sg_num.specs.Exact.{Fits};
ghost use Rattle.sg_bounds.specs.Coverage.{always, covering, entry, held, spends, where_same};
ghost use Rattle.sg_bounds.specs.Regions.{IsFix};
ghost use Rattle.sg_cover_fact.specs.LineSums.{holding, spending};
ghost use Rattle.sg_cover_fact.specs.TableRows.{IsTableRow, named_row};

use crate::row::{TableRow, own_action};
use crate::step::{add_at, times};
use sg_fixed::FixedTypes;
use sg_game::Game;

/// What a type gets at a covered target.
fn covered_pay(game: &Game, l: u8, t: u16) -> i64
    requires security { game.now.kind ≡ Security }
    requires known_type { IsTypeOf game.now l }
    requires known_target { IsGoalOf game.now t }
    ensures value { result ≡ (payoff game.now l t).ac }
    ensures within { IsPay result }
{
    let [_, _, covered, _] = game.payoffs(l, t);
    covered
}

/// What a type gets at an uncovered target.
fn uncovered_pay(game: &Game, l: u8, t: u16) -> i64
    requires security { game.now.kind ≡ Security }
    requires known_type { IsTypeOf game.now l }
    requires known_target { IsGoalOf game.now t }
    ensures value { result ≡ (payoff game.now l t).au }
    ensures within { IsPay result }
{
    let [_, _, _, uncovered] = game.payoffs(l, t);
    uncovered
}

/// How much more the one payoff is.
fn difference(one: i64, two: i64) -> i128
    requires one { IsPay one }
    requires two { IsPay two }
    ensures { result ≡ one -ℤ two }
{
    i128::from(one) - i128::from(two)
}

/// The entry of a row in the column of the whole.
pub(crate) fn whole_entry(game: &Game, fix: &FixedTypes, row: TableRow) -> i128
    requires security { game.now.kind ≡ Security }
    requires is_fix { IsFix game.now fix.now }
    requires row { IsTableRow game.now fix.now row }
    ensures { result ≡ entry game.now fix.now (named_row row) always }
{
    match row {
        TableRow::Spends(_) => -1,
        TableRow::Held(_) => 0,
        TableRow::Within(_) => -1,
        TableRow::Gains { l, other } => {
            let own = own_action(game, fix, l);
            difference(uncovered_pay(game, l, other), uncovered_pay(game, l, own))
        }
    }
}

/// The entry of a row of gains in the column of target `t`: of its own action or of the other one.
fn gains_entry(game: &Game, fix: &FixedTypes, l: u8, other: u16, t: u16) -> i128
    requires security { game.now.kind ≡ Security }
    requires is_fix { IsFix game.now fix.now }
    requires row { IsTableRow game.now fix.now (TableRow.Gains l other) }
    ensures { result ≡ entry game.now fix.now (named_row (TableRow.Gains l other)) (covering t) }
{
    let own = own_action(game, fix, l);
    if t == other {
        difference(covered_pay(game, l, other), uncovered_pay(game, l, other))
    } else if t == own {
        difference(uncovered_pay(game, l, own), covered_pay(game, l, own))
    } else {
        0
    }
}

/// 1 where the two numbers are equal, else 0.
fn one_where_same(one: u16, two: u16) -> i128
    ensures { result ≡ where_same one two (pos 1) }
{
    if one == two { 1 } else { 0 }
}

/// The entry of a row in the column of target `t`.
fn target_entry(game: &Game, fix: &FixedTypes, row: TableRow, t: u16) -> i128
    requires security { game.now.kind ≡ Security }
    requires is_fix { IsFix game.now fix.now }
    requires row { IsTableRow game.now fix.now row }
    ensures { result ≡ entry game.now fix.now (named_row row) (covering t) }
{
    match row {
        TableRow::Spends(_) => 0,
        TableRow::Held(s) => one_where_same(s, t),
        TableRow::Within(s) => one_where_same(s, t),
        TableRow::Gains { l, other } => gains_entry(game, fix, l, other, t),
    }
}

/// Adds a multiplier of a row to the sum of its resource.
pub(crate) fn add_spent(row: TableRow, v: i128, sums: &mut [i128])
    requires inside { (r : ℕ) → named_row row ≡ spends r → r < length sums.old }
    requires fits { (r : ℕ) → Fits (slice_index_or sums.old r (pos 0) +ℤ (v *ℤ spending (named_row row) r)) }
    ensures { (r : ℕ) → slice_index_or sums.new r (pos 0) ≡ slice_index_or sums.old r (pos 0) +ℤ (v *ℤ spending (named_row row) r) }
{
    match row {
        TableRow::Spends(r) => add_at(sums, r, v),
        TableRow::Held(_) => {}
        TableRow::Within(_) => {}
        TableRow::Gains { .. } => {}
    }
}

/// Adds a multiplier of a row to the sum of the target that is held in it.
pub(crate) fn add_held(row: TableRow, v: i128, sums: &mut [i128])
    requires inside { (t : ℕ) → named_row row ≡ held t → t < length sums.old }
    requires fits { (t : ℕ) → Fits (slice_index_or sums.old t (pos 0) +ℤ (v *ℤ holding (named_row row) t)) }
    ensures { (t : ℕ) → slice_index_or sums.new t (pos 0) ≡ slice_index_or sums.old t (pos 0) +ℤ (v *ℤ holding (named_row row) t) }
{
    match row {
        TableRow::Spends(_) => {}
        TableRow::Held(t) => add_at(sums, t, v),
        TableRow::Within(_) => {}
        TableRow::Gains { .. } => {}
    }
}

/// Adds a multiplier times an entry of its row to the sum of target `t`.
fn add_entry(game: &Game, fix: &FixedTypes, row: TableRow, t: u16, v: i128, covered: &mut [i128])
    requires security { game.now.kind ≡ Security }
    requires is_fix { IsFix game.now fix.now }
    requires row { IsTableRow game.now fix.now row }
    requires inside { t < length covered.old }
    requires product { Fits (v *ℤ entry game.now fix.now (named_row row) (covering t)) }
    requires sum { Fits (slice_index_or covered.old t (pos 0) +ℤ (v *ℤ entry game.now fix.now (named_row row) (covering t))) }
    ensures { covered.new ≡ slice_set covered.old t (slice_index_or covered.old t (pos 0) +ℤ (v *ℤ entry game.now fix.now (named_row row) (covering t))) }
{
    let more = times(v, target_entry(game, fix, row, t));
    add_at(covered, t, more);
}

/// Adds a multiplier of a row, times its entries in the columns of the targets, to the sums of these columns.
pub(crate) fn add_covered(
    game: &Game,
    fix: &FixedTypes,
    row: TableRow,
    v: i128,
    covered: &mut [i128],
)
    requires security { game.now.kind ≡ Security }
    requires is_fix { IsFix game.now fix.now }
    requires row { IsTableRow game.now fix.now row }
    requires room { length game.now.goals < length covered.old }
    requires products { (t : ℕ) → IsGoalOf game.now t → Fits (v *ℤ entry game.now fix.now (named_row row) (covering t)) }
    requires sums { (t : ℕ) → IsGoalOf game.now t → Fits (slice_index_or covered.old t (pos 0) +ℤ (v *ℤ entry game.now fix.now (named_row row) (covering t))) }
    ensures { (t : ℕ) → IsGoalOf game.now t → slice_index_or covered.new t (pos 0) ≡ slice_index_or covered.old t (pos 0) +ℤ (v *ℤ entry game.now fix.now (named_row row) (covering t)) }
{
    match row {
        TableRow::Spends(_) => {}
        TableRow::Held(t) => add_entry(game, fix, row, t, v, covered),
        TableRow::Within(t) => add_entry(game, fix, row, t, v, covered),
        TableRow::Gains { l, other } => {
            add_entry(game, fix, row, other, v, covered);
            add_entry(game, fix, row, own_action(game, fix, l), v, covered);
        }
    }
}
