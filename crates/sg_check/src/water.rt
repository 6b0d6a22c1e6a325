//! Water levels: the only fact of a game that declares a scale.

ghost use Rattle.std.specs.Prelude.{◌≡◌, ◌≢◌, ◌↔◌, ◌≤◌, ◌^◌, [], ◌∷◌, ◌+ℤ◌, ◌-ℤ◌, ◌*ℤ◌, ◌≤ℤ◌, IsTrue, MatchOption, int_div, length, map, pos, true};
ghost use Rattle.std.specs.Int.{int_max};
ghost use Rattle.sg_frac.specs.Fractions.{IsReducedForm};
ghost use Rattle.sg_model.specs.Games.{payoff, resource_count};
ghost use Rattle.sg_model.specs.Limits.{is_scaled};
ghost use Rattle.sg_model.specs.Origami.{IsFullyCovered, IsWater, SpendsAll, at_level, count_at, gap, water_bound};
ghost use Rattle.sg_model.specs.Sums.{numbers, total};
ghost use Rattle.sg_game.specs.Counts.{IsGoalOf};
ghost use Rattle.sg_bounds.specs.Checking.{root_line, root_stops};
ghost use Rattle.sg_bounds.specs.Leaves.{tree_bounds_of};
ghost use Rattle.sg_bounds.specs.Trees.{closed, node_of};
ghost use Rattle.sg_check.specs.Answering.{held_line};
ghost use Rattle.sg_check.specs.Watering.{ArePays, ArePaysOf, IsBounding, WaterTells, WaterTold, greatest_in, greater_of, part};
ghost use Rattle.sg_model.specs.Fillable.{IsFillable};

use crate::height::Height;
use crate::quotient::{Quotient, reduced};
use crate::refusal::Refusal;
use crate::step::multiplied;
use sg_frac::Frac;
use sg_game::Game;
use sg_model::Level;
use sg_tree::{Fact, Report, Tree};

/// What a target pays, for the sums of a level.
#[derive(Clone, Copy)]
pub(crate) struct Pays {
    /// What the attacker gets where the target is covered.
    pub(crate) covered: i128,
    /// What the attacker gets where it is uncovered.
    pub(crate) uncovered: i128,
    /// How often the difference of both goes into the scale.
    pub(crate) multiple: i128,
    /// What the defender gets where it is uncovered.
    pub(crate) least: i128,
    /// What the defender gets more where it is covered.
    pub(crate) gain: i128,
}

/// What the attacker gets at target `t` where it is covered.
fn covered(game: &Game, t: u16) -> i128
    requires fillable { IsFillable game.now }
    requires known { IsGoalOf game.now t }
    ensures value { result ≡ (payoff game.now 1 t).ac }
    ensures low { (pos 0 -ℤ pos (2 ^ 30)) ≤ℤ result }
    ensures high { result ≤ℤ pos (2 ^ 30) }
{
    i128::from(game.payoffs(1, t)[2])
}

/// What the attacker gets at target `t` where it is uncovered.
fn uncovered(game: &Game, t: u16) -> i128
    requires fillable { IsFillable game.now }
    requires known { IsGoalOf game.now t }
    ensures value { result ≡ (payoff game.now 1 t).au }
    ensures low { (pos 0 -ℤ pos (2 ^ 30)) ≤ℤ result }
    ensures high { result ≤ℤ pos (2 ^ 30) }
{
    i128::from(game.payoffs(1, t)[3])
}

/// What the defender gets at target `t` where it is covered.
fn defended(game: &Game, t: u16) -> i128
    requires fillable { IsFillable game.now }
    requires known { IsGoalOf game.now t }
    ensures value { result ≡ (payoff game.now 1 t).dc }
    ensures low { (pos 0 -ℤ pos (2 ^ 30)) ≤ℤ result }
    ensures high { result ≤ℤ pos (2 ^ 30) }
{
    i128::from(game.payoffs(1, t)[0])
}

/// What the defender gets at target `t` where it is uncovered.
fn undefended(game: &Game, t: u16) -> i128
    requires fillable { IsFillable game.now }
    requires known { IsGoalOf game.now t }
    ensures value { result ≡ (payoff game.now 1 t).du }
    ensures low { (pos 0 -ℤ pos (2 ^ 30)) ≤ℤ result }
    ensures high { result ≤ℤ pos (2 ^ 30) }
{
    i128::from(game.payoffs(1, t)[1])
}

/// The quotient by a number above 0.
fn quotient(a: i128, b: i128) -> i128
    requires { pos 1 ≤ℤ b }
    ensures { result ≡ int_div a b }
{
    a / b
}

/// How often the gap of target `t` goes into the scale.
fn multiple(game: &Game, t: u16) -> i128
    requires fillable { IsFillable game.now }
    requires known { IsGoalOf game.now t }
    ensures value { result ≡ int_div game.now.scale (gap (payoff game.now 1 t)) }
    ensures low { pos 1 ≤ℤ result }
    ensures high { result ≤ℤ pos (2 ^ 32) }
{
    let gap = uncovered(game, t) - covered(game, t);
    quotient(i128::from(game.scale()), gap)
}

/// What the defender gets more at target `t` where it is covered.
fn gain(game: &Game, t: u16) -> i128
    requires fillable { IsFillable game.now }
    requires known { IsGoalOf game.now t }
    ensures value { result ≡ (payoff game.now 1 t).dc -ℤ (payoff game.now 1 t).du }
    ensures low { pos 1 ≤ℤ result }
    ensures high { result ≤ℤ pos (2 ^ 31) }
{
    defended(game, t) - undefended(game, t)
}

/// What target `t` pays.
fn pays_of(game: &Game, t: u16) -> Pays
    requires fillable { IsFillable game.now }
    requires known { IsGoalOf game.now t }
    ensures { ArePaysOf game.now t result }
{
    Pays {
        covered: covered(game, t),
        uncovered: uncovered(game, t),
        multiple: multiple(game, t),
        least: undefended(game, t),
        gain: gain(game, t),
    }
}

/// How far the uncovered payoff is above the level, times the denominator.
fn excess(pays: &Pays, level: &Height) -> i128
    requires pays { ArePays pays.now }
    ensures value { result ≡ pays.now.uncovered *ℤ level.now.den -ℤ level.now.num }
    ensures low { (pos 0 -ℤ pos (2 ^ 78)) ≤ℤ result }
    ensures high { result ≤ℤ pos (2 ^ 78) }
{
    pays.uncovered * level.den() - level.num()
}

/// Whether the uncovered payoff is at least the level.
fn is_high(pays: &Pays, level: &Height) -> bool
    requires pays { ArePays pays.now }
    ensures { IsTrue result ↔ (level.now.num ≤ℤ (pays.now.uncovered *ℤ level.now.den)) }
{
    0 <= excess(pays, level)
}

/// The coverage that brings the target down to the level, times the denominator and the scale.
fn share(pays: &Pays, level: &Height) -> i128
    requires pays { ArePays pays.now }
    ensures value { result ≡ pays.now.multiple *ℤ (pays.now.uncovered *ℤ level.now.den -ℤ level.now.num) }
    ensures high { result ≤ℤ pos (2 ^ 110) }
{
    pays.multiple * excess(pays, level)
}

/// The same of target `t`, and 0 where it pays less than the level.
fn count(game: &Game, t: u16, level: &Height) -> i128
    requires fillable { IsFillable game.now }
    requires known { IsGoalOf game.now t }
    ensures value { result ≡ count_at game.now level.now.num level.now.den t }
    ensures low { pos 0 ≤ℤ result }
    ensures high { result ≤ℤ pos (2 ^ 110) }
{
    let pays = pays_of(game, t);
    if is_high(&pays, level) {
        share(&pays, level)
    } else {
        0
    }
}

/// What all targets need together.
fn needed(game: &Game, level: &Height) -> i128
    requires fillable { IsFillable game.now }
    ensures { result ≡ total (count_at game.now level.now.num level.now.den) (numbers (length game.now.goals)) }
{
    let mut sum = 0;
    for i in 0..game.targets() {
        sum += count(game, i + 1, level);
    }
    sum
}

/// What the patrols have, times the denominator and the scale.
fn available(game: &Game, level: &Height) -> i128
    requires fillable { IsFillable game.now }
    ensures { result ≡ (pos (resource_count game.now) *ℤ level.now.den) *ℤ game.now.scale }
{
    i128::from(game.resources()) * level.den() * i128::from(game.scale())
}

/// Whether some target pays at least the level.
fn has_target(game: &Game, level: &Height) -> bool
    requires fillable { IsFillable game.now }
    ensures { IsTrue result ↔ (at_level game.now level.now.num level.now.den ≢ []) }
{
    for i in 0..game.targets() {
        if is_high(&pays_of(game, i + 1), level) {
            return true;
        }
    }
    false
}

/// Whether both are the same.
fn is_equal(a: i128, b: i128) -> bool
    ensures { IsTrue result ↔ (a ≡ b) }
{
    a == b
}

/// Whether the patrols are just enough to bring all targets of the level down to it.
fn spends_all(game: &Game, level: &Height) -> bool
    requires fillable { IsFillable game.now }
    ensures { IsTrue result ↔ SpendsAll game.now level.now.num level.now.den }
{
    if has_target(game, level) {
        is_equal(needed(game, level), available(game, level))
    } else {
        false
    }
}

/// Whether the product is this one.
fn is_product(a: i128, b: i128, product: i128) -> bool
    ensures { IsTrue result ↔ ((a *ℤ b) ≡ product) }
{
    match multiplied(a, b) {
        Some(made) => is_equal(made, product),
        None => false,
    }
}

/// Whether target `j`, covered for certain, pays the attacker the level.
fn is_floor(game: &Game, level: &Frac, j: u16) -> bool
    requires fillable { IsFillable game.now }
    ensures { IsTrue result ↔ IsFullyCovered game.now level.now.num level.now.den j }
{
    if j < 1 || game.targets() < j {
        return false;
    }
    is_product(pays_of(game, j).covered, level.den(), level.num())
}

/// Whether the level is held up by the patrols: it isn't where a part is so large that a sum might not fit.
fn is_spent(game: &Game, level: &Frac) -> bool
    requires fillable { IsFillable game.now }
    ensures { IsTrue result ↔ SpendsAll game.now level.now.num level.now.den }
{
    game.promises();
    let _lowest = level.den();
    match Height::of(level) {
        Some(height) => spends_all(game, &height),
        None => false,
    }
}

/// Whether the level holds for this reason.
fn is_level(game: &Game, level: &Frac, reason: &Level) -> bool
    requires fillable { IsFillable game.now }
    ensures { IsTrue result ↔ IsWater game.now level.now.num level.now.den reason.now }
{
    let _lowest = level.den();
    match reason {
        Level::Resources => is_spent(game, level),
        Level::Target(j) => is_floor(game, level, *j),
    }
}

/// What a target's part of the bound is over: the denominator times the scale.
fn whole_of(game: &Game, level: &Height) -> i128
    requires fillable { IsFillable game.now }
    ensures value { result ≡ level.now.den *ℤ game.now.scale }
    ensures low { pos 1 ≤ℤ result }
    ensures high { result ≤ℤ pos (2 ^ 78) }
{
    level.den() * i128::from(game.scale())
}

/// What the defender gets at a target of the level, times the whole.
fn part(pays: &Pays, level: &Height, whole: i128) -> i128
    requires pays { ArePays pays.now }
    requires low { pos 1 ≤ℤ whole }
    requires high { whole ≤ℤ pos (2 ^ 78) }
    requires of_level { level.now.num ≤ℤ (pays.now.uncovered *ℤ level.now.den) }
    requires few { (pays.now.multiple *ℤ (pays.now.uncovered *ℤ level.now.den -ℤ level.now.num)) ≤ℤ pos (2 ^ 86) }
    ensures { result ≡ pays.now.least *ℤ whole +ℤ pays.now.gain *ℤ (pays.now.multiple *ℤ (pays.now.uncovered *ℤ level.now.den -ℤ level.now.num)) }
{
    pays.least * whole + pays.gain * share(pays, level)
}

/// The same of target `t`, and none where it pays less than the level.
fn part_at(game: &Game, t: u16, level: &Height) -> Option<i128>
    requires fillable { IsFillable game.now }
    requires known { IsGoalOf game.now t }
    requires bounding { IsBounding game.now level.now }
    ensures { MatchOption result ((level.now.num ≤ℤ ((payoff game.now 1 t).au *ℤ level.now.den)) → ⊥) (λ z. (level.now.num ≤ℤ ((payoff game.now 1 t).au *ℤ level.now.den)) × (z ≡ part game.now level.now t)) }
{
    let pays = pays_of(game, t);
    if !is_high(&pays, level) {
        return None;
    }
    Some(part(&pays, level, whole_of(game, level)))
}

/// The greater of two numbers.
fn greater(a: i128, b: i128) -> i128
    ensures { result ≡ int_max a b }
{
    if a < b { b } else { a }
}

/// The greater of two numbers, where they are there.
fn join(best: Option<i128>, next: Option<i128>) -> Option<i128>
    ensures { result ≡ greater_of best next }
{
    match best {
        None => next,
        Some(best) => match next {
            None => Some(best),
            Some(next) => Some(greater(best, next)),
        },
    }
}

/// The greatest part of a target of the level, where there is one.
fn greatest_part(game: &Game, level: &Height) -> Option<i128>
    requires fillable { IsFillable game.now }
    requires bounding { IsBounding game.now level.now }
    ensures { result ≡ greatest_in (map (part game.now level.now) (at_level game.now level.now.num level.now.den)) }
{
    let mut best = None;
    for i in 0..game.targets() {
        best = join(best, part_at(game, i + 1, level));
    }
    best
}

/// The bound of a level.
fn bound(game: &Game, level: &Height) -> Frac
    requires fillable { IsFillable game.now }
    requires bounding { IsBounding game.now level.now }
    requires some { at_level game.now level.now.num level.now.den ≢ [] }
    ensures { IsReducedForm (water_bound game.now level.now.num level.now.den) (level.now.den *ℤ game.now.scale) result }
{
    let den = whole_of(game, level);
    match greatest_part(game, level) {
        Some(num) => reduced(&Quotient { num, den }),
        None => unreachable!(),
    }
}

/// The bound of a level that is small.
fn small_bound(game: &Game, level: &Frac) -> Frac
    requires fillable { IsFillable game.now }
    requires bounding { IsBounding game.now level.now }
    requires some { at_level game.now level.now.num level.now.den ≢ [] }
    ensures { IsReducedForm (water_bound game.now level.now.num level.now.den) (level.now.den *ℤ game.now.scale) result }
{
    match Height::of(level) {
        Some(height) => bound(game, &height),
        None => unreachable!(),
    }
}

/// The bound of a level, where it holds for this reason.
pub(crate) fn tested(game: &Game, level: &Frac, reason: &Level) -> Option<Frac>
    requires { is_scaled game.now ≡ true }
    ensures { MatchOption result (IsWater game.now level.now.num level.now.den reason.now → ⊥) (λ b. IsWater game.now level.now.num level.now.den reason.now × IsReducedForm (water_bound game.now level.now.num level.now.den) (level.now.den *ℤ game.now.scale) b) }
{
    game.promises();
    let _lowest = level.den();
    if is_level(game, level, reason) {
        Some(small_bound(game, level))
    } else {
        None
    }
}

/// The bound of a fact that is a water level and holds, or the reason why it isn't.
fn test_fact(game: &Game, fact: &Fact) -> Result<Frac, u8>
    requires { is_scaled game.now ≡ true }
    ensures { WaterTold game.now (closed fact.now) result }
{
    match fact {
        Fact::Plays { .. } => Err(5),
        Fact::Cover { .. } => Err(5),
        Fact::Water { level, reason } => match tested(game, level, reason) {
            Some(bound) => Ok(bound),
            None => Err(6),
        },
    }
}

/// The bound of a tree that is a water level and holds, or the reason why it isn't.
fn test_tree(game: &Game, tree: &Tree) -> Result<Frac, u8>
    requires { is_scaled game.now ≡ true }
    ensures { WaterTold game.now (node_of tree.now) result }
{
    match tree {
        Tree::Unproved => Err(5),
        Tree::Closed(fact) => test_fact(game, fact),
        Tree::Split { .. } => Err(5),
    }
}

/// Tests that the tree of a game that declares a scale is one water level, at this line, and that it holds. Its bound is
/// told.
pub(crate) fn test_water(game: &Game, report: &Report, line: u64) -> Result<Frac, Refusal>
    requires scaled { is_scaled game.now ≡ true }
    requires line { line ≡ held_line (root_line report.now) }
    ensures { WaterTells game.now report.now (root_stops game.now (root_line report.now) (node_of report.now.tree)) (tree_bounds_of game.now report.now.caps (node_of report.now.tree)) result }
{
    match test_tree(game, &report.tree) {
        Ok(bound) => Ok(bound),
        Err(reason) => Err(Refusal { line, reason }),
    }
}
