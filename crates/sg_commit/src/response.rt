//! How a type of attacker answers a commitment, and what that leaves the defender.

ghost use Rattle.std.specs.Prelude.{◌≡◌, ◌≤◌, ◌-◌, ◌^◌, false, true, pos, ◌≤ℤ◌, None, Ok, IfOk, IfSome, IsTrue};
ghost use Rattle.std.specs.Ordering.{int_eq};
ghost use Rattle.std.specs.Int.{int_max};
ghost use Rattle.sg_model.specs.Sums.{numbers, numbers_from};
ghost use Rattle.sg_model.specs.Games.{action_count, is_matrix};
ghost use Rattle.sg_model.specs.Commitments.{is_best, sum_d, take_of, AreLegal};
ghost use Rattle.sg_game.specs.Counts.{IsActionOf, IsTypeOf};
ghost use Rattle.sg_commit.specs.Answers.{IsExactAnswer, answer, is_answer};
ghost use Rattle.sg_commit.specs.ExactSums.{compared, exact_is_best, exact_take, unless};
ghost use Rattle.sg_game.specs.Tallies.{IsTally};
ghost use Rattle.sg_commit.specs.Responses.{settled, take_from, take_step, taken_with, top_from, top_sum};

use crate::commitment::Commitment;
use crate::side::Side;
use crate::tally::{ROOM, count_all, table_sum};
use sg_game::{Cell, Game, Kind};
use sg_num::Wide;

// The greatest total for which the sums come from counts.
const MOST: i128 = 39614081257132168796771975168; // 2^95

// The greater of two sums.
fn greater(a: i128, b: i128) -> i128
    ensures { result ≡ int_max a b }
{
    if a < b { b } else { a }
}

// The greatest of a first sum of type `l` and those of its actions from 2 on.
fn top_after(game: &Game, k: &Commitment, table: &[Cell], l: u8, first: i128) -> Result<i128, Wide>
    requires legal { AreLegal game.now k.now.tickets }
    requires table { IsTally game.now k.now.tickets table.now }
    requires known_type { IsTypeOf game.now l }
    ensures { result ≡ top_from game.now k.now.tickets l first (numbers_from 2 (action_count game.now l - 1)) }
{
    let mut top = first;
    for i in 1..game.actions(l) {
        match table_sum(Side::Attacker, game, k, table, l, i + 1) {
            Ok(sum) => top = greater(top, sum),
            Err(wide) => return Err(wide),
        }
    }
    Ok(top)
}

// Nothing: its contract says that each type has an action.
fn has_action(game: &Game, l: u8)
    requires { IsTypeOf game.now l }
    ensures { 1 ≤ action_count game.now l }
{
    let _count = game.actions(l);
}

// The greatest sum of type `l` over its actions.
fn top_of(game: &Game, k: &Commitment, table: &[Cell], l: u8) -> Result<i128, Wide>
    requires legal { AreLegal game.now k.now.tickets }
    requires table { IsTally game.now k.now.tickets table.now }
    requires known_type { IsTypeOf game.now l }
    ensures { result ≡ unless (compared game.now k.now.tickets l) (Ok (top_sum game.now k.now.tickets l)) }
{
    has_action(game, l);
    match table_sum(Side::Attacker, game, k, table, l, 1) {
        Ok(first) => top_after(game, k, table, l, first),
        Err(wide) => Err(wide),
    }
}

// Whether the sum of action `a` is the greatest, where all are known to fit.
fn attains(game: &Game, k: &Commitment, table: &[Cell], l: u8, a: u16, top: i128) -> bool
    requires legal { AreLegal game.now k.now.tickets }
    requires table { IsTally game.now k.now.tickets table.now }
    requires known_type { IsTypeOf game.now l }
    requires known_action { IsActionOf game.now l a }
    requires compared { compared game.now k.now.tickets l ≡ None }
    requires top { top ≡ top_sum game.now k.now.tickets l }
    ensures { result ≡ is_best game.now k.now.tickets l a }
{
    match table_sum(Side::Attacker, game, k, table, l, a) {
        Ok(sum) => top <= sum,
        Err(_) => unreachable!(),
    }
}

// The greater of what was taken before, if anything, and of one sum more.
fn taken_with(taken: Option<i128>, sum: i128) -> i128
    ensures { result ≡ taken_with taken sum }
{
    match taken {
        None => sum,
        Some(best) => greater(best, sum),
    }
}

// What is taken where action `a` is looked at too.
fn look(
    game: &Game,
    k: &Commitment,
    table: &[Cell],
    l: u8,
    a: u16,
    top: i128,
    taken: Option<i128>,
) -> Result<Option<i128>, Wide>
    requires legal { AreLegal game.now k.now.tickets }
    requires table { IsTally game.now k.now.tickets table.now }
    requires known_type { IsTypeOf game.now l }
    requires known_action { IsActionOf game.now l a }
    requires compared { compared game.now k.now.tickets l ≡ None }
    requires top { top ≡ top_sum game.now k.now.tickets l }
    ensures { result ≡ take_step game.now k.now.tickets l taken a }
{
    if !attains(game, k, table, l, a, top) {
        return Ok(taken);
    }
    match table_sum(Side::Defender, game, k, table, l, a) {
        Ok(sum) => Ok(Some(taken_with(taken, sum))),
        Err(wide) => Err(wide),
    }
}

// What is taken where all actions are looked at.
fn look_at_all(
    game: &Game,
    k: &Commitment,
    table: &[Cell],
    l: u8,
    top: i128,
) -> Result<Option<i128>, Wide>
    requires legal { AreLegal game.now k.now.tickets }
    requires table { IsTally game.now k.now.tickets table.now }
    requires known_type { IsTypeOf game.now l }
    requires compared { compared game.now k.now.tickets l ≡ None }
    requires top { top ≡ top_sum game.now k.now.tickets l }
    ensures { result ≡ take_from game.now k.now.tickets l None (numbers (action_count game.now l)) }
{
    let mut taken = None;
    for i in 0..game.actions(l) {
        match look(game, k, table, l, i + 1, top, taken) {
            Ok(next) => taken = next,
            Err(wide) => return Err(wide),
        }
    }
    Ok(taken)
}

// What is taken in the end.
fn settle(taken: Result<Option<i128>, Wide>) -> Result<i128, Wide>
    ensures { result ≡ settled taken }
{
    match taken {
        Ok(Some(taken)) => Ok(taken),
        Ok(None) => Ok(0),
        Err(wide) => Err(wide),
    }
}

// `is_best`, by the table of counts where there is one.
fn table_is_best(game: &Game, k: &Commitment, table: &[Cell], l: u8, a: u16) -> Result<bool, Wide>
    requires legal { AreLegal game.now k.now.tickets }
    requires table { IsTally game.now k.now.tickets table.now }
    requires known_type { IsTypeOf game.now l }
    requires known_action { IsActionOf game.now l a }
    ensures { result ≡ exact_is_best game.now k.now.tickets l a }
{
    match top_of(game, k, table, l) {
        Ok(top) => Ok(attains(game, k, table, l, a, top)),
        Err(wide) => Err(wide),
    }
}

// `take`, by the table of counts where there is one.
fn table_take(game: &Game, k: &Commitment, table: &[Cell], l: u8) -> Result<i128, Wide>
    requires legal { AreLegal game.now k.now.tickets }
    requires table { IsTally game.now k.now.tickets table.now }
    requires known_type { IsTypeOf game.now l }
    ensures { result ≡ exact_take game.now k.now.tickets l }
{
    match top_of(game, k, table, l) {
        Ok(top) => settle(look_at_all(game, k, table, l, top)),
        Err(wide) => Err(wide),
    }
}

// Whether two sums are one.
fn is_same(a: i128, b: i128) -> bool
    ensures { result ≡ int_eq a b }
{
    a == b
}

// Whether the best action `a` gives the defender what is taken, where it is known to be formed.
fn gives(game: &Game, k: &Commitment, table: &[Cell], l: u8, a: u16, taken: i128) -> bool
    requires legal { AreLegal game.now k.now.tickets }
    requires table { IsTally game.now k.now.tickets table.now }
    requires known_type { IsTypeOf game.now l }
    requires known_action { IsActionOf game.now l a }
    requires best { is_best game.now k.now.tickets l a ≡ true }
    requires taken { exact_take game.now k.now.tickets l ≡ Ok taken }
    ensures { result ≡ int_eq (sum_d game.now k.now.tickets l a) (take_of game.now k.now.tickets l) }
{
    match table_sum(Side::Defender, game, k, table, l, a) {
        Ok(sum) => is_same(sum, taken),
        Err(_) => unreachable!(),
    }
}

// Whether type `l` may answer by action `a`, where the greatest sum and what is taken are known.
fn may_answer(
    game: &Game,
    k: &Commitment,
    table: &[Cell],
    l: u8,
    a: u16,
    top: i128,
    taken: i128,
) -> bool
    requires legal { AreLegal game.now k.now.tickets }
    requires table { IsTally game.now k.now.tickets table.now }
    requires known_type { IsTypeOf game.now l }
    requires known_action { IsActionOf game.now l a }
    requires compared { compared game.now k.now.tickets l ≡ None }
    requires top { top ≡ top_sum game.now k.now.tickets l }
    requires taken { exact_take game.now k.now.tickets l ≡ Ok taken }
    ensures { result ≡ is_answer game.now k.now.tickets l a }
{
    if attains(game, k, table, l, a, top) {
        gives(game, k, table, l, a, taken)
    } else {
        false
    }
}

// The answer of type `l`, where the greatest sum and what is taken are known.
fn first_answer(
    game: &Game,
    k: &Commitment,
    table: &[Cell],
    l: u8,
    top: i128,
    taken: i128,
) -> Option<u16>
    requires legal { AreLegal game.now k.now.tickets }
    requires table { IsTally game.now k.now.tickets table.now }
    requires known_type { IsTypeOf game.now l }
    requires compared { compared game.now k.now.tickets l ≡ None }
    requires top { top ≡ top_sum game.now k.now.tickets l }
    requires taken { exact_take game.now k.now.tickets l ≡ Ok taken }
    ensures answer { result ≡ answer game.now k.now.tickets l }
    ensures known { IfSome result (IsActionOf game.now l) }
{
    for i in 0..game.actions(l) {
        if may_answer(game, k, table, l, i + 1, top, taken) {
            return Some(i + 1);
        }
    }
    None
}

// The answer of type `l`, where the greatest sum is known.
fn answer_under(
    game: &Game,
    k: &Commitment,
    table: &[Cell],
    l: u8,
    top: i128,
) -> Result<Option<u16>, Wide>
    requires legal { AreLegal game.now k.now.tickets }
    requires table { IsTally game.now k.now.tickets table.now }
    requires known_type { IsTypeOf game.now l }
    requires compared { compared game.now k.now.tickets l ≡ None }
    requires top { top ≡ top_sum game.now k.now.tickets l }
    ensures { IsExactAnswer game.now k.now.tickets l result }
{
    match settle(look_at_all(game, k, table, l, top)) {
        Ok(taken) => Ok(first_answer(game, k, table, l, top, taken)),
        Err(wide) => Err(wide),
    }
}

// `answer`, by the table of counts where there is one.
fn table_answer(game: &Game, k: &Commitment, table: &[Cell], l: u8) -> Result<Option<u16>, Wide>
    requires legal { AreLegal game.now k.now.tickets }
    requires table { IsTally game.now k.now.tickets table.now }
    requires known_type { IsTypeOf game.now l }
    ensures { IsExactAnswer game.now k.now.tickets l result }
{
    match top_of(game, k, table, l) {
        Ok(top) => answer_under(game, k, table, l, top),
        Err(wide) => Err(wide),
    }
}

// Whether the sums can come from counts: in security form, with a total of at most 2^95.
fn is_countable(game: &Game, k: &Commitment) -> bool
    ensures security { IsTrue result → is_matrix game.now ≡ false }
    ensures few { IsTrue result → k.now.total ≤ℤ pos (2 ^ 95) }
{
    match game.kind() {
        Kind::Security => k.total() <= MOST,
        Kind::Matrix => false,
    }
}

// `is_best`, by counts.
fn counted_is_best(game: &Game, k: &Commitment, l: u8, a: u16) -> Result<bool, Wide>
    requires security { is_matrix game.now ≡ false }
    requires few { k.now.total ≤ℤ pos (2 ^ 95) }
    requires legal { AreLegal game.now k.now.tickets }
    requires known_type { IsTypeOf game.now l }
    requires known_action { IsActionOf game.now l a }
    ensures { result ≡ exact_is_best game.now k.now.tickets l a }
{
    let mut cells = [Cell { mark: 0, count: 0 }; ROOM];
    count_all(game, k, &mut cells);
    table_is_best(game, k, &cells, l, a)
}

// `take`, by counts.
fn counted_take(game: &Game, k: &Commitment, l: u8) -> Result<i128, Wide>
    requires security { is_matrix game.now ≡ false }
    requires few { k.now.total ≤ℤ pos (2 ^ 95) }
    requires legal { AreLegal game.now k.now.tickets }
    requires known_type { IsTypeOf game.now l }
    ensures { result ≡ exact_take game.now k.now.tickets l }
{
    let mut cells = [Cell { mark: 0, count: 0 }; ROOM];
    count_all(game, k, &mut cells);
    table_take(game, k, &cells, l)
}

// `answer`, by counts.
fn counted_answer(game: &Game, k: &Commitment, l: u8) -> Result<Option<u16>, Wide>
    requires security { is_matrix game.now ≡ false }
    requires few { k.now.total ≤ℤ pos (2 ^ 95) }
    requires legal { AreLegal game.now k.now.tickets }
    requires known_type { IsTypeOf game.now l }
    ensures { IsExactAnswer game.now k.now.tickets l result }
{
    let mut cells = [Cell { mark: 0, count: 0 }; ROOM];
    count_all(game, k, &mut cells);
    table_answer(game, k, &cells, l)
}

/// Whether action `a` is best for type `l`: no action has a greater sum.
///
/// # Errors
///
/// The first operation that does not fit, where the sums of all actions are formed by rising action.
pub fn is_best(game: &Game, k: &Commitment, l: u8, a: u16) -> Result<bool, Wide>
    requires legal { AreLegal game.now k.now.tickets }
    requires known_type { IsTypeOf game.now l }
    requires known_action { IsActionOf game.now l a }
    ensures steps { result ≡ exact_is_best game.now k.now.tickets l a }
    ensures value { IfOk result (λ best. best ≡ is_best game.now k.now.tickets l a) }
{
    if is_countable(game, k) {
        counted_is_best(game, k, l, a)
    } else {
        table_is_best(game, k, &[], l, a)
    }
}

/// The defender's greatest sum over the best actions of type `l`: ties go to the defender.
///
/// # Errors
///
/// The first operation that does not fit, where the attacker's sums of all actions are formed by rising action, and
/// then the defender's sums of the best ones.
pub fn take(game: &Game, k: &Commitment, l: u8) -> Result<i128, Wide>
    requires legal { AreLegal game.now k.now.tickets }
    requires known_type { IsTypeOf game.now l }
    ensures steps { result ≡ exact_take game.now k.now.tickets l }
    ensures value { IfOk result (λ taken. taken ≡ take_of game.now k.now.tickets l) }
{
    if is_countable(game, k) {
        counted_take(game, k, l)
    } else {
        table_take(game, k, &[], l)
    }
}

/// The action by which type `l` answers: the first of its best actions that give the defender the most. There always is one.
///
/// # Errors
///
/// As `take`: the first operation that does not fit.
pub fn answer(game: &Game, k: &Commitment, l: u8) -> Result<Option<u16>, Wide>
    requires legal { AreLegal game.now k.now.tickets }
    requires known_type { IsTypeOf game.now l }
    ensures { IsExactAnswer game.now k.now.tickets l result }
{
    if is_countable(game, k) {
        counted_answer(game, k, l)
    } else {
        table_answer(game, k, &[], l)
    }
}
