//! Games for the tests: of parts as they stand in a table, and the texts of files.
ghost use Rattle.std.specs.Prelude.{◌≡◌, [], All, IfOk};
ghost use Rattle.sg_game.specs.Building.{IsSecurityParts};

use sg_game::{BuildFault, Game, GameFault, Kind, ListParts, Parts, Place, TypeParts};
use std::alloc::{AllocError, Global};

/// Names.
pub(crate) type Names = &'static [&'static str];

/// The rows of a table.
pub(crate) type Rows = &'static [&'static [i64]];

/// Schedules or resources, each with its name and the numbers of its members.
pub(crate) type Lists = &'static [(&'static str, &'static [u32])];

/// Types in security form, each with its name and prior.
pub(crate) type Priors = &'static [(&'static str, i64)];

/// Types in matrix form, each with its name, its prior, its actions, the leader's table and the follower's.
pub(crate) type Players = &'static [(&'static str, i64, Names, Rows, Rows)];

/// The parts of a game, as they stand in a table.
#[derive(Clone, Copy)]
pub(crate) enum Sketch {
    /// The scale, the patrols, the targets, the types, and the payoffs that each of them has.
    Patrolled(Option<i64>, i64, Names, Priors, Rows),
    /// The scale, the targets, the schedules, the resources, the types, and the payoffs that each of them has.
    Listed(Option<i64>, Names, Lists, Lists, Priors, Rows),
    /// The rows and the types.
    Matrix(Names, Players),
}

/// Texts.
fn strings(alloc: Global, names: &[&str]) -> Result<Vec<String>, AllocError> {
    let mut strings = Vec::new(alloc);
    for name in names {
        strings.push(String::from_str(alloc, name)?)?;
    }
    Ok(strings)
}

/// A table of its rows.
fn table(alloc: Global, rows: &[&[i64]]) -> Result<Vec<Vec<i64>>, AllocError> {
    let mut table = Vec::new(alloc);
    for row in rows {
        table.push(Vec::from_slice(alloc, row)?)?;
    }
    Ok(table)
}

/// Schedules or resources.
fn lists(alloc: Global, entries: &[(&str, &[u32])]) -> Result<Vec<ListParts>, AllocError> {
    let mut lists = Vec::new(alloc);
    for (name, members) in entries {
        let name = String::from_str(alloc, name)?;
        let members = Vec::from_slice(alloc, members)?;
        lists.push(ListParts { name, members })?;
    }
    Ok(lists)
}

/// A type in security form.
pub(crate) fn security_type(
    alloc: Global,
    name: &str,
    prior: i64,
    payoffs: Vec<Vec<i64>>,
) -> Result<TypeParts, AllocError>
    ensures { IfOk result IsSecurityParts }
{
    Ok(TypeParts {
        name: String::from_str(alloc, name)?,
        prior,
        payoffs,
        actions: Vec::new(alloc),
        leader: Vec::new(alloc),
        follower: Vec::new(alloc),
    })
}

/// Types in security form that have the same payoffs.
fn security_types(
    alloc: Global,
    entries: &[(&str, i64)],
    payoffs: &[&[i64]],
) -> Result<Vec<TypeParts>, AllocError>
    ensures { IfOk result (λ types. All IsSecurityParts types.items) }
{
    let mut types = Vec::new(alloc);
    for (name, prior) in entries {
        let payoffs = table(alloc, payoffs)?;
        types.push(security_type(alloc, name, *prior, payoffs)?)?;
    }
    Ok(types)
}

/// A type in matrix form.
pub(crate) fn matrix_type(
    alloc: Global,
    name: &str,
    prior: i64,
    actions: Vec<String>,
    leader: Vec<Vec<i64>>,
    follower: Vec<Vec<i64>>,
) -> Result<TypeParts, AllocError>
    ensures { IfOk result (λ x. x.payoffs.items ≡ []) }
{
    Ok(TypeParts {
        name: String::from_str(alloc, name)?,
        prior,
        payoffs: Vec::new(alloc),
        actions,
        leader,
        follower,
    })
}

/// Types in matrix form.
fn matrix_types(alloc: Global, players: Players) -> Result<Vec<TypeParts>, AllocError>
    ensures { IfOk result (λ types. All (λ x. x.payoffs.items ≡ []) types.items) }
{
    let mut types = Vec::new(alloc);
    for (name, prior, actions, leader, follower) in players {
        let actions = strings(alloc, actions)?;
        let leader = table(alloc, leader)?;
        let follower = table(alloc, follower)?;
        types.push(matrix_type(alloc, name, *prior, actions, leader, follower)?)?;
    }
    Ok(types)
}

/// A game of identical patrols.
pub(crate) fn patrolled(
    alloc: Global,
    scale: Option<i64>,
    patrols: i64,
    goals: Vec<String>,
    types: Vec<TypeParts>,
) -> Result<Game, BuildFault>
    requires { All IsSecurityParts types.items }
{
    Game::of(
        alloc,
        Parts {
            kind: Kind::Security,
            scale,
            patrols: Some(patrols),
            goals,
            schedules: Vec::new(alloc),
            resources: Vec::new(alloc),
            types,
        },
    )
}

/// A game of listed resources.
pub(crate) fn listed(
    alloc: Global,
    scale: Option<i64>,
    goals: Vec<String>,
    schedules: Vec<ListParts>,
    resources: Vec<ListParts>,
    types: Vec<TypeParts>,
) -> Result<Game, BuildFault>
    requires { All IsSecurityParts types.items }
{
    Game::of(
        alloc,
        Parts {
            kind: Kind::Security,
            scale,
            patrols: None,
            goals,
            schedules,
            resources,
            types,
        },
    )
}

/// A game in matrix form.
pub(crate) fn matrix(
    alloc: Global,
    rows: Vec<String>,
    types: Vec<TypeParts>,
) -> Result<Game, BuildFault>
    requires { All (λ x. x.payoffs.items ≡ []) types.items }
{
    Game::of(
        alloc,
        Parts {
            kind: Kind::Matrix,
            scale: None,
            patrols: None,
            goals: rows,
            schedules: Vec::new(alloc),
            resources: Vec::new(alloc),
            types,
        },
    )
}

/// The game of a sketch.
pub(crate) fn sketched(alloc: Global, sketch: Sketch) -> Result<Game, BuildFault> {
    match sketch {
        Sketch::Patrolled(scale, patrols, goals, priors, payoffs) => {
            let goals = strings(alloc, goals)?;
            let types = security_types(alloc, priors, payoffs)?;
            patrolled(alloc, scale, patrols, goals, types)
        }
        Sketch::Listed(scale, goals, schedules, resources, priors, payoffs) => {
            let goals = strings(alloc, goals)?;
            let schedules = lists(alloc, schedules)?;
            let resources = lists(alloc, resources)?;
            let types = security_types(alloc, priors, payoffs)?;
            listed(alloc, scale, goals, schedules, resources, types)
        }
        Sketch::Matrix(rows, players) => {
            let rows = strings(alloc, rows)?;
            let types = matrix_types(alloc, players)?;
            matrix(alloc, rows, types)
        }
    }
}

/// Whether a game was refused for this reason at this place, or was made where none is given.
pub(crate) fn ends_so(game: Result<Game, BuildFault>, refusal: Option<(u8, Place)>) -> bool {
    match (game, refusal) {
        (Ok(_), None) => true,
        (Err(BuildFault::Refused(fault)), Some((reason, place))) => {
            fault == GameFault { reason, place }
        }
        _ => false,
    }
}

/// A file of one patrol and two targets.
pub(crate) const TWO_TARGETS: &str =
    "version = 1\nform = \"security\"\nscale = 4\npatrols = 1\ntargets = [\"gate\", \"hall\"]\n\n[[type]]\nname = \"thief\"\nprior = 1\npayoffs = [[2, -2, 0, 4], [1, -1, 0, 2]]\n";

/// A file in matrix form.
pub(crate) const MATRIX: &str =
    "version = 1\nform = \"matrix\"\nrows = [\"A\", \"B\"]\n\n[[type]]\nname = \"thief\"\nprior = 1\nactions = [\"x\", \"y\"]\nleader = [[2, 4], [1, 3]]\nfollower = [[1, 0], [0, 2]]\n";

/// Four targets, and two resources of two schedules each.
pub(crate) const FOUR_TARGETS: &str =
    "version = 1\nform = \"security\"\ntargets = [\"t1\", \"t2\", \"t3\", \"t4\"]\nschedule = [{name = \"a\", targets = [\"t1\", \"t2\"]}, {name = \"b\", targets = [\"t4\", \"t3\"]}, {name = \"c\", targets = [\"t1\", \"t3\"]}, {name = \"d\", targets = [\"t2\", \"t4\"]}]\n\n[[resource]]\nname = \"r1\"\nschedules = [\"a\", \"b\"]\n\n[[resource]]\nname = \"r2\"\nschedules = [\"d\", \"c\"]\n\n[[type]]\nname = \"thief\"\nprior = 1048576\npayoffs = [[0, -1, 0, 1], [0, -1, 0, 1], [0, -1, 0, 1], [0, -1, -1073741824, 1073741824]]\n";

/// Patrols without a scale, and two types.
pub(crate) const TWO_TYPES: &str =
    "version = 1\nform = \"security\"\npatrols = 0\ntargets = [\"x\"]\n\n[[type]]\nname = \"a\"\nprior = 1\npayoffs = [[1, 2, 3, 4]]\n\n[[type]]\nname = \"b\"\nprior = 2\npayoffs = [[-4, -3, -2, -1]]\n";
