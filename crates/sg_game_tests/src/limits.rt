//! Lists at their limits and past them.
ghost use Rattle.std.specs.Prelude.{All, IfOk};
ghost use Rattle.sg_game.specs.Building.{IsSecurityParts};

use crate::samples::{listed, matrix, matrix_type, patrolled, security_type};
use sg_game::{BuildFault, Game, GameFault, ListParts, Place, TypeParts, program_rows};
use std::alloc::{AllocError, Global};

/// How many of each a game has.
#[derive(Clone, Copy)]
enum Size {
    /// Targets, schedules with so many targets each, resources with so many schedules each, and types.
    Listed(u32, (u32, u32), (u32, u32), u32),
    /// Rows, and the actions of one type.
    Matrix(u32, u32),
    /// Targets, patrols and types, with a scale of 1.
    Scaled(u32, i64, u32),
}

/// What becomes of it: its targets or rows and its program rows, or the reason and place of its refusal.
#[derive(Clone, Copy)]
enum Ending {
    Fits(u16, u32),
    Refused(u8, Place),
}

/// So many names: the letter, and a number from 1.
fn numbered(alloc: Global, letter: &str, count: u32) -> Result<Vec<String>, AllocError> {
    let mut names = Vec::new(alloc);
    for k in 0..count {
        names.push(format!(in alloc; "{letter}{}", k + 1)?)?;
    }
    Ok(names)
}

/// The numbers from 1.
fn counted(alloc: Global, count: u32) -> Result<Vec<u32>, AllocError> {
    let mut numbers = Vec::new(alloc);
    for k in 0..count {
        numbers.push(k + 1)?;
    }
    Ok(numbers)
}

/// So many schedules or resources, each with the members 1 to `members`.
fn alike_lists(
    alloc: Global,
    letter: &str,
    (count, members): (u32, u32),
) -> Result<Vec<ListParts>, AllocError> {
    let mut lists = Vec::new(alloc);
    for k in 0..count {
        let name = format!(in alloc; "{letter}{}", k + 1)?;
        let members = counted(alloc, members)?;
        lists.push(ListParts { name, members })?;
    }
    Ok(lists)
}

/// A table of so many rows that are the same.
fn alike_rows(alloc: Global, count: u32, row: &[i64]) -> Result<Vec<Vec<i64>>, AllocError> {
    let mut rows = Vec::new(alloc);
    for _ in 0..count {
        rows.push(Vec::from_slice(alloc, row)?)?;
    }
    Ok(rows)
}

/// So many types in security form.
fn alike_types(alloc: Global, count: u32, targets: u32) -> Result<Vec<TypeParts>, AllocError>
    ensures { IfOk result (λ types. All IsSecurityParts types.items) }
{
    let mut types = Vec::new(alloc);
    for k in 0..count {
        let name = format!(in alloc; "a{}", k + 1)?;
        let payoffs = alike_rows(alloc, targets, &[0, -1, 0, 1])?;
        types.push(security_type(alloc, &name, 1, payoffs)?)?;
    }
    Ok(types)
}

/// A game in matrix form with so many rows and actions, all payoffs 0.
fn sized_matrix(alloc: Global, rows: u32, actions: u32) -> Result<Game, BuildFault> {
    let mut row = Vec::new(alloc);
    for _ in 0..actions {
        row.push(0)?;
    }
    let goals = numbered(alloc, "r", rows)?;
    let actions = numbered(alloc, "x", actions)?;
    let leader = alike_rows(alloc, rows, row.as_slice())?;
    let follower = alike_rows(alloc, rows, row.as_slice())?;
    let attacker = matrix_type(alloc, "thief", 1, actions, leader, follower)?;
    matrix(alloc, goals, Vec::from_array(alloc, [attacker])?)
}

/// A game with so many of each.
fn sized(alloc: Global, size: Size) -> Result<Game, BuildFault> {
    match size {
        Size::Listed(targets, schedules, resources, types) => {
            let goals = numbered(alloc, "t", targets)?;
            let schedules = alike_lists(alloc, "s", schedules)?;
            let resources = alike_lists(alloc, "r", resources)?;
            let types = alike_types(alloc, types, targets)?;
            listed(alloc, None, goals, schedules, resources, types)
        }
        Size::Matrix(rows, actions) => sized_matrix(alloc, rows, actions),
        Size::Scaled(targets, patrols, types) => {
            let goals = numbered(alloc, "t", targets)?;
            let types = alike_types(alloc, types, targets)?;
            patrolled(alloc, Some(1), patrols, goals, types)
        }
    }
}

fn has_goals(game: &Game, goals: u16) -> bool {
    game.targets() == goals || game.rows() == goals
}

fn has_ending(game: Result<Game, BuildFault>, ending: Ending) -> bool {
    match (game, ending) {
        (Ok(game), Ending::Fits(goals, rows)) => {
            has_goals(&game, goals) && program_rows(&game) == rows
        }
        (Err(BuildFault::Refused(fault)), Ending::Refused(reason, place)) => {
            fault == GameFault { reason, place }
        }
        _ => false,
    }
}

/// Sizes, and what becomes of them. With R resources, T targets and L types there are 1 + R + 2T + L * (T - 1)
/// program rows.
static SIZES: [(Size, Ending); 29] = [
    (Size::Listed(1, (0, 0), (0, 0), 1), Ending::Fits(1, 3)),
    (
        Size::Listed(200, (500, 200), (32, 500), 1),
        Ending::Fits(200, 632),
    ),
    (Size::Listed(1, (1, 1), (1, 1), 8), Ending::Fits(1, 4)),
    (
        Size::Listed(192, (1, 1), (5, 1), 6),
        Ending::Fits(192, 1536),
    ),
    (
        Size::Listed(0, (501, 0), (33, 0), 9),
        Ending::Refused(6, Place::Document),
    ),
    (
        Size::Listed(201, (501, 0), (33, 0), 0),
        Ending::Refused(10, Place::Document),
    ),
    (
        Size::Listed(2, (501, 0), (33, 0), 0),
        Ending::Refused(10, Place::Document),
    ),
    (
        Size::Listed(2, (500, 0), (33, 0), 0),
        Ending::Refused(6, Place::Schedule(1)),
    ),
    (
        Size::Listed(200, (1, 201), (33, 0), 0),
        Ending::Refused(10, Place::Schedule(1)),
    ),
    (
        Size::Listed(199, (1, 200), (1, 1), 1),
        Ending::Refused(7, Place::Schedule(1)),
    ),
    (
        Size::Listed(2, (1, 1), (33, 0), 0),
        Ending::Refused(10, Place::Document),
    ),
    (
        Size::Listed(2, (1, 1), (32, 0), 0),
        Ending::Refused(6, Place::Resource(1)),
    ),
    (
        Size::Listed(2, (500, 1), (32, 501), 0),
        Ending::Refused(10, Place::Resource(1)),
    ),
    (
        Size::Listed(2, (499, 1), (32, 500), 0),
        Ending::Refused(7, Place::Resource(1)),
    ),
    (
        Size::Listed(2, (1, 1), (32, 1), 0),
        Ending::Refused(6, Place::Document),
    ),
    (
        Size::Listed(2, (1, 1), (32, 1), 9),
        Ending::Refused(10, Place::Document),
    ),
    (
        Size::Listed(192, (1, 1), (6, 1), 6),
        Ending::Refused(10, Place::Document),
    ),
    // In matrix form there are 1 and each type's actions less 1.
    (Size::Matrix(1, 1), Ending::Fits(1, 1)),
    (Size::Matrix(4096, 1), Ending::Fits(4096, 1)),
    (Size::Matrix(2, 64), Ending::Fits(2, 64)),
    (Size::Matrix(0, 65), Ending::Refused(6, Place::Document)),
    (Size::Matrix(4097, 0), Ending::Refused(10, Place::Document)),
    (
        Size::Matrix(4096, 0),
        Ending::Refused(6, Place::Attacker(1)),
    ),
    (Size::Matrix(1, 65), Ending::Refused(10, Place::Attacker(1))),
    // A scale lifts the limits of targets, patrols and program rows.
    (Size::Scaled(10_000, 200, 1), Ending::Fits(10_000, 30_200)),
    (
        Size::Scaled(10_001, 201, 0),
        Ending::Refused(10, Place::Document),
    ),
    (
        Size::Scaled(201, 201, 0),
        Ending::Refused(9, Place::Document),
    ),
    (
        Size::Scaled(201, 200, 0),
        Ending::Refused(6, Place::Document),
    ),
    (
        Size::Scaled(201, 200, 2),
        Ending::Refused(10, Place::Document),
    ),
];

/// The first size, counted from 0, that ends otherwise.
fn first_wrong(alloc: Global, cases: &[(Size, Ending)]) -> Option<usize> {
    for k in 0..cases.len() {
        let (size, ending) = cases[k];
        if !has_ending(sized(alloc, size), ending) {
            return Some(k);
        }
    }
    None
}

#[test]
fn keeps_limits(rt: HostRuntime) {
    assert_eq!(rt; first_wrong(rt.alloc(), &SIZES), None);
}
