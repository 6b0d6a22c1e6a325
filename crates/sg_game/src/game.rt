use sg_model::Kind;
use sqlite_items::Items;
use std::marker::Model;

/// A name, which contracts see as its bytes.
#[derive(Drop)]
pub(crate) struct Name {
    pub(crate) text: String,
}

impl Model for Name {
    ghost use Rattle.std.specs.Prelude.{List, ℕ, string_bytes};

    ghost Value = { List ℕ };

    ghost view = { λ n. string_bytes n.text };
}

/// What the defender and the attacker get at a target, covered and uncovered.
#[derive(Clone, Copy)]
pub(crate) struct Payoff {
    pub(crate) dc: i64,
    pub(crate) du: i64,
    pub(crate) ac: i64,
    pub(crate) au: i64,
}

impl Model for Payoff {
    ghost use Rattle.sg_model.specs.Games.{Payoff as View};

    ghost Value = { View };

    ghost view = { λ p. record { dc = p.dc; du = p.du; ac = p.ac; au = p.au } };

    ghost inverse = { λ p. record { dc = p.dc; du = p.du; ac = p.ac; au = p.au } };
}

/// A type of attacker.
#[derive(Drop)]
pub(crate) struct Attacker {
    pub(crate) name: Name,
    pub(crate) prior: i64,
    pub(crate) payoffs: Items<Payoff>,
    pub(crate) actions: Items<Name>,
    pub(crate) leader: Items<Items<i64>>,
    pub(crate) follower: Items<Items<i64>>,
}

impl Model for Attacker {
    ghost use Rattle.sg_model.specs.Games.{Attacker as View};

    ghost Value = { View };

    ghost view = { λ a. record { name = a.name; prior = a.prior; payoffs = a.payoffs; actions = a.actions; leader = a.leader; follower = a.follower } };
}

/// A schedule or a resource, with the numbers of its targets or schedules.
#[derive(Drop)]
pub(crate) struct Named {
    pub(crate) name: Name,
    pub(crate) members: Items<u16>,
}

impl Model for Named {
    ghost use Rattle.sg_model.specs.Games.{Named as View};

    ghost Value = { View };

    ghost view = { λ a. record { name = a.name; members = a.members } };
}

/// A game between a defender and attackers of up to eight types, that keeps every promise of a game file.
///
/// Targets, rows, schedules, resources, types and actions are numbered from 1. Payoffs are whole numbers from -2^30
/// to 2^30. With identical patrols each resource has one schedule for each target.
#[derive(Drop)]
pub struct Game {
    pub(crate) kind: Kind,
    pub(crate) scale: i64,
    pub(crate) patrols: Option<u16>,
    pub(crate) goals: Items<Name>,
    pub(crate) schedules: Items<Named>,
    pub(crate) resources: Items<Named>,
    pub(crate) types: Items<Attacker>,
    pub(crate) all: Items<u16>,
    pub(crate) patrol_names: Items<Name>,
}

impl Model for Game {
    ghost use Rattle.sg_model.specs.Games.{Game as View};
    ghost use Rattle.sg_game.specs.Stored.{IsStored};

    ghost Value = { View };

    ghost view = { λ g. record { kind = g.kind; scale = g.scale; patrols = g.patrols; goals = g.goals; schedules = g.schedules; resources = g.resources; types = g.types } };

    ghost invariant = { λ g. IsStored (record { kind = g.kind; scale = g.scale; patrols = g.patrols; goals = g.goals; schedules = g.schedules; resources = g.resources; types = g.types }) g.all g.patrol_names };
}
