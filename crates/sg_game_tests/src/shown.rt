//! What games show: facts on them, as they stand in a table.
use sg_game::{
    Game, Kind, covers, greatest, is_origami, is_single, least_play, legal, pay_a, pay_d,
    plays_count, prior_total, program_rows, shift,
};
use std::alloc::{AllocError, Global};

/// A fact on the parts of a game, which are numbered from 1.
#[derive(Clone, Copy)]
pub(crate) enum Part {
    /// The form, the scale, the patrols and the number of types.
    Form(Kind, i64, Option<u16>, u8),
    /// The numbers of targets, rows, resources and schedules.
    Sizes([u16; 4]),
    /// A type's name, its prior, the number of its actions, and the defender's greatest payoff against it.
    Type(u8, &'static str, i64, u16, i64),
    /// The name of a target or row.
    Goal(u16, &'static str),
    /// The name of an action of a type.
    Action(u8, u16, &'static str),
    /// A schedule's name and targets.
    Schedule(u16, &'static str, &'static [u16]),
    /// A resource's name and schedules.
    Resource(u16, &'static str, &'static [u16]),
}

/// A fact on what a game's plays cover and pay.
#[derive(Clone, Copy)]
pub(crate) enum Pay {
    /// What the defender and a type get at a target, if there are such.
    Target(u8, u16, Option<[i64; 4]>),
    /// What the defender and a type get where a row meets an action, if there are such.
    Cell(u8, u16, u16, Option<(i64, i64)>),
    /// What the defender and a type get where a play meets an action, if there are such.
    Play(u8, &'static [u16], u16, Option<(i64, i64)>),
    /// Whether a play covers a target.
    Covers(&'static [u16], u16, bool),
    /// Whether a play leaves open a target that pays -1 and 1 then, and else nothing.
    Open(&'static [u16], u16, bool),
    /// A play that is not legal.
    Illegal(&'static [u16]),
    /// The least play.
    Least(&'static [u16]),
    /// The sum of the priors and the shift.
    Ends(i64, i64),
    /// Whether the game is one of a scale, whether it is one of single schedules, its plays and its program rows.
    Counts(bool, bool, u64, u32),
}

fn has_form(game: &Game, kind: Kind, scale: i64, patrols: Option<u16>, types: u8) -> bool {
    let is_of_kind = game.kind() == kind && game.scale() == scale;
    is_of_kind && game.patrols() == patrols && game.types() == types
}

fn has_sizes(game: &Game, [targets, rows, resources, schedules]: [u16; 4]) -> bool {
    let has_goals = game.targets() == targets && game.rows() == rows;
    has_goals && game.resources() == resources && game.schedules() == schedules
}

fn has_type(game: &Game, l: u8, name: &str, prior: i64, actions: u16, most: i64) -> bool {
    if l == 0 || l > game.types() {
        return false;
    }
    let is_known = game.type_name(l) == name && game.prior(l) == prior;
    is_known && game.actions(l) == actions && greatest(game, l) == most
}

fn has_goal(game: &Game, n: u16, name: &str) -> bool {
    match game.kind() {
        Kind::Security => 1 <= n && n <= game.targets() && game.target_name(n) == name,
        Kind::Matrix => 1 <= n && n <= game.rows() && game.row_name(n) == name,
    }
}

fn has_action(game: &Game, l: u8, a: u16, name: &str) -> bool {
    if l == 0 || l > game.types() {
        return false;
    }
    if a == 0 || a > game.actions(l) {
        return false;
    }
    game.action_name(l, a) == name
}

fn has_schedule(game: &Game, s: u16, name: &str, targets: &[u16]) -> bool {
    if s == 0 || s > game.schedules() {
        return false;
    }
    game.schedule_name(s) == name && game.schedule_targets(s) == targets
}

fn has_resource(game: &Game, r: u16, name: &str, schedules: &[u16]) -> bool {
    if r == 0 || r > game.resources() {
        return false;
    }
    game.resource_name(r) == name && game.resource_schedules(r) == schedules
}

/// What a type and the defender get at a target, where there are such.
fn payoffs_at(game: &Game, l: u8, t: u16) -> Option<[i64; 4]> {
    if l == 0 || l > game.types() {
        return None;
    }
    match game.kind() {
        Kind::Security => {
            if 1 <= t && t <= game.targets() {
                Some(game.payoffs(l, t))
            } else {
                None
            }
        }
        Kind::Matrix => None,
    }
}

/// What the defender and a type get where a row meets an action, where there are such.
fn cell_at(game: &Game, l: u8, i: u16, a: u16) -> Option<(i64, i64)> {
    if l == 0 || l > game.types() || a == 0 || a > game.actions(l) {
        return None;
    }
    match game.kind() {
        Kind::Security => None,
        Kind::Matrix => {
            if 1 <= i && i <= game.rows() {
                Some((game.leader(l, i, a), game.follower(l, i, a)))
            } else {
                None
            }
        }
    }
}

/// Whether a play covers a target, where it is legal and there is such a target.
fn covers_at(game: &Game, code: &[u16], t: u16) -> Option<bool> {
    if !legal(game, code) {
        return None;
    }
    match game.kind() {
        Kind::Security => {
            if 1 <= t && t <= game.targets() {
                Some(covers(game, code, t))
            } else {
                None
            }
        }
        Kind::Matrix => None,
    }
}

/// What the defender and a type get where a play meets an action, where it is legal and there are such.
fn pays_at(game: &Game, l: u8, code: &[u16], a: u16) -> Option<(i64, i64)> {
    if l == 0 || l > game.types() || a == 0 || a > game.actions(l) || !legal(game, code) {
        return None;
    }
    Some((pay_d(game, l, code, a), pay_a(game, l, code, a)))
}

fn leaves_open(game: &Game, code: &[u16], t: u16, is_open: bool) -> bool {
    let pays = if is_open { (-1, 1) } else { (0, 0) };
    covers_at(game, code, t) == Some(!is_open) && pays_at(game, 1, code, t) == Some(pays)
}

fn has_counts(game: &Game, is_scaled: bool, has_singles: bool, plays: u64, rows: u32) -> bool {
    let is_of_form = is_origami(game) == is_scaled && is_single(game) == has_singles;
    is_of_form && plays_count(game) == Some(plays) && program_rows(game) == rows
}

fn has_least(alloc: Global, game: &Game, code: &[u16]) -> Result<bool, AllocError> {
    let play = least_play(alloc, game)?;
    Ok(play.code.as_slice() == code)
}

/// Whether a fact on parts of a game holds.
fn has_part(game: &Game, part: Part) -> bool {
    match part {
        Part::Form(kind, scale, patrols, types) => has_form(game, kind, scale, patrols, types),
        Part::Sizes(sizes) => has_sizes(game, sizes),
        Part::Type(l, name, prior, actions, most) => {
            has_type(game, l, name, prior, actions, most)
        }
        Part::Goal(n, name) => has_goal(game, n, name),
        Part::Action(l, a, name) => has_action(game, l, a, name),
        Part::Schedule(s, name, targets) => has_schedule(game, s, name, targets),
        Part::Resource(r, name, schedules) => has_resource(game, r, name, schedules),
    }
}

/// Whether a fact on plays and payoffs holds.
fn has_pay(alloc: Global, game: &Game, pay: Pay) -> Result<bool, AllocError> {
    Ok(match pay {
        Pay::Target(l, t, pays) => payoffs_at(game, l, t) == pays,
        Pay::Cell(l, i, a, pays) => cell_at(game, l, i, a) == pays,
        Pay::Play(l, code, a, pays) => pays_at(game, l, code, a) == pays,
        Pay::Covers(code, t, is_covered) => covers_at(game, code, t) == Some(is_covered),
        Pay::Open(code, t, is_open) => leaves_open(game, code, t, is_open),
        Pay::Illegal(code) => !legal(game, code),
        Pay::Least(code) => has_least(alloc, game, code)?,
        Pay::Ends(total, least) => prior_total(game) == total && shift(game) == least,
        Pay::Counts(is_scaled, has_singles, plays, rows) => {
            has_counts(game, is_scaled, has_singles, plays, rows)
        }
    })
}

fn has_parts(game: &Game, facts: &[Part]) -> bool {
    for fact in facts {
        if !has_part(game, *fact) {
            return false;
        }
    }
    true
}

fn has_pays(alloc: Global, game: &Game, facts: &[Pay]) -> Result<bool, AllocError> {
    for fact in facts {
        if !has_pay(alloc, game, *fact)? {
            return Ok(false);
        }
    }
    Ok(true)
}

/// Whether the facts hold.
pub(crate) fn shows(
    alloc: Global,
    game: &Game,
    parts: &[Part],
    pays: &[Pay],
) -> Result<bool, AllocError> {
    Ok(has_parts(game, parts) && has_pays(alloc, game, pays)?)
}
