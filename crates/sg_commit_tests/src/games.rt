//! Games and commitments, made of plain data.
ghost use Rattle.std.specs.Prelude.{◌≡◌, [], All, IfOk};
ghost use Rattle.sg_game.specs.Building.{IsSecurityParts};

use sg_commit::Commitment;
use sg_game::{Game, Kind, ListParts, Parts, TypeParts};
use sg_model::{Play, Ticket};
use sqlite_items::Items;
use std::alloc::{AllocError, Global};
use std::test::Fail;

/// Payoffs, a list for each target or row.
pub type Table = &'static [&'static [i64]];

/// Names with the numbers of members.
pub type Lists = &'static [(&'static str, &'static [u32])];

/// Parts of a commitment, each a weight and the choices of a play.
pub type Shares = &'static [(i128, &'static [u16])];

pub const MOST: i128 = i128::MAX; // 2^127 - 1

pub const HALF: i128 = 85070591730234615865843651857942052864; // 2^126

/// Payoffs that gain by cover alike.
pub const PAY: &'static [i64] = &[0, -1, 0, 1];

/// A type of attacker against rows, with what the defender gets and what it gets.
#[derive(Drop)]
pub struct Player {
    pub name: &'static str,
    pub actions: &'static [&'static str],
    pub leader: Table,
    pub follower: Table,
}

/// What a game has beside the priors of its types.
#[derive(Drop)]
pub enum Drawn {
    /// Identical patrols against a thief.
    Patrolled {
        scale: i64,
        patrols: i64,
        goals: &'static [&'static str],
        payoffs: Table,
    },
    /// Resources with listed schedules against a thief.
    Guarded {
        goals: &'static [&'static str],
        schedules: Lists,
        resources: Lists,
        payoffs: Table,
    },
    /// Rows against players.
    Rows {
        goals: &'static [&'static str],
        players: &'static [Player],
    },
}

/// Two targets and one patrol.
pub const GATE_AND_HALL: &'static Drawn = &Drawn::Patrolled {
    scale: 4,
    patrols: 1,
    goals: &["gate", "hall"],
    payoffs: &[&[2, -2, 0, 4], &[1, -1, 0, 2]],
};

/// Names.
fn names(alloc: Global, texts: &[&str]) -> Result<Vec<String>, AllocError> {
    let mut names = Vec::new(alloc);
    for text in texts {
        names.push(String::from_str(alloc, text)?)?;
    }
    Ok(names)
}

/// Names for so many targets.
pub fn numbered(alloc: Global, count: usize) -> Result<Vec<String>, AllocError> {
    let mut names = Vec::new(alloc);
    for i in 0..count {
        names.push(format!(in alloc; "t{i}")?)?;
    }
    Ok(names)
}

/// A table of payoffs.
fn table(alloc: Global, rows: &[&[i64]]) -> Result<Vec<Vec<i64>>, AllocError> {
    let mut table = Vec::new(alloc);
    for row in rows {
        table.push(Vec::from_slice(alloc, row)?)?;
    }
    Ok(table)
}

/// Schedules or resources, each with its name and its members.
fn lists(alloc: Global, entries: &[(&str, &[u32])]) -> Result<Vec<ListParts>, AllocError> {
    let mut lists = Vec::new(alloc);
    for (name, members) in entries {
        let name = String::from_str(alloc, name)?;
        let members = Vec::from_slice(alloc, members)?;
        lists.push(ListParts { name, members })?;
    }
    Ok(lists)
}

/// The only type of attacker against targets.
fn thief(alloc: Global, prior: i64, payoffs: &[&[i64]]) -> Result<Vec<TypeParts>, AllocError>
    ensures { IfOk result (λ types. All IsSecurityParts types.items) }
{
    let thief = TypeParts {
        name: String::from_str(alloc, "thief")?,
        prior,
        payoffs: table(alloc, payoffs)?,
        actions: Vec::new(alloc),
        leader: Vec::new(alloc),
        follower: Vec::new(alloc),
    };
    Ok(Vec::from_array(alloc, [thief])?)
}

/// A game of identical patrols.
pub fn patrolled(
    alloc: Global,
    scale: i64,
    patrols: i64,
    goals: Vec<String>,
    payoffs: &[&[i64]],
) -> Result<Game, Fail> {
    let types = thief(alloc, 1, payoffs)?;
    Ok(Game::of(
        alloc,
        Parts {
            kind: Kind::Security,
            scale: Some(scale),
            patrols: Some(patrols),
            goals,
            schedules: Vec::new(alloc),
            resources: Vec::new(alloc),
            types,
        },
    )?)
}

/// A game of resources with listed schedules.
fn guarded(
    alloc: Global,
    goals: &[&str],
    schedules: &[(&str, &[u32])],
    resources: &[(&str, &[u32])],
    types: Vec<TypeParts>,
) -> Result<Game, Fail>
    requires { All IsSecurityParts types.items }
{
    let goals = names(alloc, goals)?;
    let schedules = lists(alloc, schedules)?;
    let resources = lists(alloc, resources)?;
    Ok(Game::of(
        alloc,
        Parts {
            kind: Kind::Security,
            scale: None,
            patrols: None,
            goals,
            schedules,
            resources,
            types,
        },
    )?)
}

/// A type of attacker against rows.
fn rival(alloc: Global, drawn: &Player, prior: i64) -> Result<TypeParts, AllocError>
    ensures { IfOk result (λ x. x.payoffs.items ≡ []) }
{
    Ok(TypeParts {
        name: String::from_str(alloc, drawn.name)?,
        prior,
        payoffs: Vec::new(alloc),
        actions: names(alloc, drawn.actions)?,
        leader: table(alloc, drawn.leader)?,
        follower: table(alloc, drawn.follower)?,
    })
}

/// The types of attacker against rows.
fn rivals(alloc: Global, drawn: &[Player], priors: &[i64]) -> Result<Vec<TypeParts>, AllocError>
    ensures { IfOk result (λ types. All (λ x. x.payoffs.items ≡ []) types.items) }
{
    let mut types = Vec::new(alloc);
    for (drawn, prior) in drawn.iter().zip(priors) {
        types.push(rival(alloc, drawn, *prior)?)?;
    }
    Ok(types)
}

/// A game of rows.
fn rows(alloc: Global, goals: &[&str], types: Vec<TypeParts>) -> Result<Game, Fail>
    requires { All (λ x. x.payoffs.items ≡ []) types.items }
{
    let goals = names(alloc, goals)?;
    Ok(Game::of(
        alloc,
        Parts {
            kind: Kind::Matrix,
            scale: None,
            patrols: None,
            goals,
            schedules: Vec::new(alloc),
            resources: Vec::new(alloc),
            types,
        },
    )?)
}

/// The game whose types have these priors. A thief against patrols has prior 1.
pub fn game(alloc: Global, drawn: &Drawn, priors: &[i64]) -> Result<Game, Fail> {
    match drawn {
        Drawn::Patrolled {
            scale,
            patrols,
            goals,
            payoffs,
        } => patrolled(alloc, *scale, *patrols, names(alloc, goals)?, payoffs),
        Drawn::Guarded {
            goals,
            schedules,
            resources,
            payoffs,
        } => {
            let prior = *priors.first().ok_or("a prior")?;
            guarded(
                alloc,
                goals,
                schedules,
                resources,
                thief(alloc, prior, payoffs)?,
            )
        }
        Drawn::Rows {
            goals,
            players: drawn,
        } => rows(alloc, goals, rivals(alloc, drawn, priors)?),
    }
}

/// The parts of a commitment.
pub fn parts(alloc: Global, shares: &[(i128, &[u16])]) -> Result<Vec<Ticket>, AllocError> {
    let mut tickets = Vec::new(alloc);
    for (weight, choices) in shares {
        let code = Items::from_slice(alloc, choices)?;
        tickets.push(Ticket {
            play: Play { code },
            weight: *weight,
        })?;
    }
    Ok(tickets)
}

/// The commitment of parts without a fault.
pub fn commitment(alloc: Global, shares: &[(i128, &[u16])]) -> Result<Commitment, Fail> {
    Ok(Commitment::of(parts(alloc, shares)?)?)
}

/// Whether these are the tickets, each with its weight and its choices.
pub fn has_tickets(tickets: &[Ticket], wanted: &[(i128, &[u16])]) -> bool {
    if tickets.len() != wanted.len() {
        return false;
    }
    for (ticket, (weight, choices)) in tickets.iter().zip(wanted) {
        if ticket.weight != *weight || ticket.play.code.as_slice() != *choices {
            return false;
        }
    }
    true
}
