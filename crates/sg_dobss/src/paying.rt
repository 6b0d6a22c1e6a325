//! What actions pay where each of the legal plays is played.

ghost use Rattle.std.specs.Prelude.{◌≡◌, ◌≤◌, ◌<◌, ◌∷◌, [], if◌then◌else◌, false, true, length, map, All, IfOk, ◌-ℤ◌};
ghost use Rattle.sg_model.specs.Games.{is_matrix};
ghost use Rattle.sg_model.specs.Limits.{IsPay};
ghost use Rattle.sg_game.specs.Counts.{IsActionOf, IsGoalOf, IsTypeOf};
ghost use Rattle.sg_dobss.specs.Covering.{AreCovered};
ghost use Rattle.sg_dobss.specs.Paying.{AreByPlay, AreNumbers, covered_pay, difference_at, pay, uncovered_pay};

use sg_game::{Game, Kind};
use sqlite_items::Items;
use std::alloc::{AllocError, Global};

/// Whose payoffs.
#[derive(Clone, Copy)]
pub(crate) enum Side {
    Defender,
    Attacker,
}

/// For each play the one payoff where it covers the target, else the other.
fn picked(
    alloc: Global,
    covered: &[bool],
    inside: i64,
    outside: i64,
) -> Result<Items<i64>, AllocError>
    ensures { IfOk result (λ pays. pays ≡ map (λ b. if b then inside else outside) covered.now) }
{
    let mut pays = Items::new(alloc);
    for b in covered {
        pays.push(if *b { inside } else { outside })?;
    }
    Ok(pays)
}

/// What an action pays at a covered target.
fn inside_pay(game: &Game, side: &Side, l: u8, a: u16) -> i64
    requires security { is_matrix game.now ≡ false }
    requires known_type { IsTypeOf game.now l }
    requires known_action { IsGoalOf game.now a }
    ensures { result ≡ covered_pay side.now game.now l a }
{
    let [dc, _, ac, _] = game.payoffs(l, a);
    match side {
        Side::Defender => dc,
        Side::Attacker => ac,
    }
}

/// What an action pays at an uncovered target.
fn outside_pay(game: &Game, side: &Side, l: u8, a: u16) -> i64
    requires security { is_matrix game.now ≡ false }
    requires known_type { IsTypeOf game.now l }
    requires known_action { IsGoalOf game.now a }
    ensures { result ≡ uncovered_pay side.now game.now l a }
{
    let [_, du, _, au] = game.payoffs(l, a);
    match side {
        Side::Defender => du,
        Side::Attacker => au,
    }
}

/// What an action pays where a row is played.
fn row_pay(game: &Game, side: &Side, l: u8, a: u16, row: u16) -> i64
    requires matrix { is_matrix game.now ≡ true }
    requires known_type { IsTypeOf game.now l }
    requires known_row { IsGoalOf game.now row }
    requires known_action { IsActionOf game.now l a }
    ensures { result ≡ pay side.now game.now l (row ∷ []) a }
{
    match side {
        Side::Defender => game.leader(l, row, a),
        Side::Attacker => game.follower(l, row, a),
    }
}

/// What an action pays where each of the joint schedules is played.
fn joint_pays(
    alloc: Global,
    game: &Game,
    coverage: &[Items<bool>],
    side: &Side,
    l: u8,
    a: u16,
) -> Result<Items<i64>, AllocError>
    requires security { is_matrix game.now ≡ false }
    requires covered { AreCovered game.now coverage.now }
    requires known_type { IsTypeOf game.now l }
    requires known_action { IsGoalOf game.now a }
    ensures { IfOk result (AreByPlay game.now (λ play. pay side.now game.now l play a)) }
{
    let covered = &coverage[a as usize - 1];
    let inside = inside_pay(game, side, l, a);
    let outside = outside_pay(game, side, l, a);
    let pays = picked(alloc, covered.as_slice(), inside, outside)?;
    Ok(pays)
}

/// What an action pays where each of the rows is played.
fn row_pays(
    alloc: Global,
    game: &Game,
    side: &Side,
    l: u8,
    a: u16,
) -> Result<Items<i64>, AllocError>
    requires matrix { is_matrix game.now ≡ true }
    requires known_type { IsTypeOf game.now l }
    requires known_action { IsActionOf game.now l a }
    ensures { IfOk result (AreByPlay game.now (λ play. pay side.now game.now l play a)) }
{
    let mut pays = Items::new(alloc);
    for i in 0..game.rows() {
        pays.push(row_pay(game, side, l, a, i + 1))?;
    }
    Ok(pays)
}

/// The same where each of the legal plays is played.
fn play_pays(
    alloc: Global,
    game: &Game,
    coverage: &[Items<bool>],
    side: &Side,
    l: u8,
    a: u16,
) -> Result<Items<i64>, AllocError>
    requires covered { AreCovered game.now coverage.now }
    requires known_type { IsTypeOf game.now l }
    requires known_action { IsActionOf game.now l a }
    ensures { IfOk result (AreByPlay game.now (λ play. pay side.now game.now l play a)) }
{
    match game.kind() {
        Kind::Security => joint_pays(alloc, game, coverage, side, l, a),
        Kind::Matrix => row_pays(alloc, game, side, l, a),
    }
}

/// What an action pays where each of the legal plays is played.
pub(crate) fn pays(
    alloc: Global,
    game: &Game,
    coverage: &[Items<bool>],
    side: &Side,
    l: u8,
    a: u16,
) -> Result<Items<i64>, AllocError>
    requires covered { AreCovered game.now coverage.now }
    requires known_type { IsTypeOf game.now l }
    requires known_action { IsActionOf game.now l a }
    ensures by_play { IfOk result (AreByPlay game.now (λ play. pay side.now game.now l play a)) }
    ensures within { IfOk result (All IsPay) }
{
    game.promises();
    let pays = play_pays(alloc, game, coverage, side, l, a)?;
    Ok(pays)
}

/// The difference of two payoffs.
fn difference(pay: i64, base: i64) -> i64
    requires pay { IsPay pay }
    requires base { IsPay base }
    ensures { result ≡ pay -ℤ base }
{
    pay - base
}

/// The difference of two payoffs at a place.
fn pay_difference(pays: &[i64], base: &[i64], k: usize) -> i64
    requires pays { All IsPay pays.now }
    requires base { All IsPay base.now }
    requires in_pays { k < length pays.now }
    requires in_base { k < length base.now }
    ensures { result ≡ difference_at pays.now base.now k }
{
    difference(pays[k], base[k])
}

/// What the one pays above the other, play by play.
pub(crate) fn differences(
    alloc: Global,
    pays: &[i64],
    base: &[i64],
) -> Result<Items<i64>, AllocError>
    requires pays { All IsPay pays.now }
    requires base { All IsPay base.now }
    requires long { length pays.now ≡ length base.now }
    ensures { IfOk result (AreNumbers (length pays.now) (difference_at pays.now base.now)) }
{
    let mut all = Items::new(alloc);
    for k in 0..pays.len() {
        all.push(pay_difference(pays, base, k))?;
    }
    Ok(all)
}
