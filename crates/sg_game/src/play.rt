ghost use Rattle.std.specs.Prelude.{◌≡◌, ◌≤◌, ◌↔◌, ◌≢◌, length, false, true, IsTrue, pos, ◌≤ℤ◌, nat_eq, ◌^◌, ℕ};
ghost use Rattle.std.specs.List.{list_any};
ghost use Rattle.sg_model.specs.Games.{is_matrix, prior_total, resource_schedules, schedule_targets};
ghost use Rattle.sg_model.specs.Limits.{IsPay};
ghost use Rattle.sg_model.specs.Origami.{IsOrigami};
ghost use Rattle.sg_model.specs.Plays.{IsLegal, IsLegalJoint, IsRow, covers, pay_a, pay_d};
ghost use Rattle.sg_model.specs.Sums.{nth};
ghost use Rattle.sg_game.specs.Counts.{IsActionOf, IsGoalOf, IsResourceOf, IsTypeOf};

use crate::game::Game;
use sg_model::Kind;

/// Whether the code is one row number.
fn is_row(game: &Game, code: &[u16]) -> bool
    requires { is_matrix game.now ≡ true }
    ensures { IsTrue result ↔ IsRow game.now code.now }
{
    code.len() == 1 && 1 <= code[0] && code[0] <= game.rows()
}

/// Whether the code is one choice for each resource.
fn is_joint(game: &Game, code: &[u16]) -> bool
    requires { is_matrix game.now ≡ false }
    ensures { IsTrue result ↔ IsLegalJoint game.now code.now }
{
    if code.len() != game.resources() as usize {
        return false;
    }
    for k in 0..game.resources() {
        if code[k as usize] as usize > game.resource_schedules(k + 1).len() {
            return false;
        }
    }
    true
}

/// Whether `code` is a legal play: a choice for each resource, or in matrix form one row number.
pub fn legal(game: &Game, code: &[u16]) -> bool
    ensures { IsTrue result ↔ IsLegal game.now code.now }
{
    match game.kind() {
        Kind::Security => is_joint(game, code),
        Kind::Matrix => is_row(game, code),
    }
}

/// Whether `t` is one of the members.
fn has(members: &[u16], t: u16) -> bool
    ensures { result ≡ list_any (λ x. nat_eq x t) members.now }
{
    members.iter().any(|x| *x == t)
}

/// Whether choice `c` of resource `r` holds target `t`.
fn choice_holds(game: &Game, r: u16, c: u16, t: u16) -> bool
    requires resource { IsResourceOf game.now r }
    requires choice { c ≤ length (resource_schedules game.now r) }
    requires target { 1 ≤ t }
    ensures { result ≡ list_any (λ x. nat_eq x t) (schedule_targets game.now (nth (resource_schedules game.now r) c 0)) }
{
    if c == 0 {
        return false;
    }
    let s = game.resource_schedules(r)[c as usize - 1];
    has(game.schedule_targets(s), t)
}

/// Whether at least one chosen schedule of the play `code` holds the target.
pub fn covers(game: &Game, code: &[u16], target: u16) -> bool
    requires security { is_matrix game.now ≡ false }
    requires legal { IsLegal game.now code.now }
    requires known { IsGoalOf game.now target }
    ensures { result ≡ covers game.now code.now target }
{
    for k in 0..game.resources() {
        if choice_holds(game, k + 1, code[k as usize], target) {
            return true;
        }
    }
    false
}

/// What the defender gets against type `l` where `code` is played and `a` is attacked.
pub fn pay_d(game: &Game, l: u8, code: &[u16], a: u16) -> i64
    requires legal { IsLegal game.now code.now }
    requires known_type { IsTypeOf game.now l }
    requires known_action { IsActionOf game.now l a }
    ensures pay { result ≡ pay_d game.now l code.now a }
    ensures within { IsPay result }
{
    match game.kind() {
        Kind::Matrix => game.leader(l, code[0], a),
        Kind::Security => {
            let [covered, uncovered, _, _] = game.payoffs(l, a);
            if covers(game, code, a) {
                covered
            } else {
                uncovered
            }
        }
    }
}

/// What type `l` gets where `code` is played and it attacks `a`.
pub fn pay_a(game: &Game, l: u8, code: &[u16], a: u16) -> i64
    requires legal { IsLegal game.now code.now }
    requires known_type { IsTypeOf game.now l }
    requires known_action { IsActionOf game.now l a }
    ensures pay { result ≡ pay_a game.now l code.now a }
    ensures within { IsPay result }
{
    match game.kind() {
        Kind::Matrix => game.follower(l, code[0], a),
        Kind::Security => {
            let [_, _, covered, uncovered] = game.payoffs(l, a);
            if covers(game, code, a) {
                covered
            } else {
                uncovered
            }
        }
    }
}

/// The sum of the priors.
pub fn prior_total(game: &Game) -> i64
    ensures total { result ≡ prior_total game.now }
    ensures some { pos 1 ≤ℤ result }
    ensures few { result ≤ℤ pos (2 ^ 23) }
{
    let mut total = 0;
    for l in 0..game.types() {
        total += game.prior(l + 1);
    }
    total
}

/// Whether a scale is declared.
fn has_scale(game: &Game) -> bool
    ensures { IsTrue result ↔ (game.now.scale ≢ pos 0) }
{
    game.scale() != 0
}

/// Whether the game has identical patrols, one attacker of prior 1, and a scale: exactly where a scale is declared.
pub fn is_origami(game: &Game) -> bool
    ensures scaled { IsTrue result ↔ (game.now.scale ≢ pos 0) }
    ensures origami { IsTrue result ↔ IsOrigami game.now }
{
    game.promises();
    has_scale(game)
}
