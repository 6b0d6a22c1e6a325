//! Games of shapes and seeds.

ghost use Rattle.std.specs.Prelude.{◌≡◌, ◌≤◌, ◌*◌, ◌+◌, ◌∷◌, [], IfOk, map, All};
ghost use Rattle.sg_model.specs.Limits.{IsGame};
ghost use Rattle.sg_game.specs.Building.{IsSecurityParts};
ghost use Rattle.sg_game.specs.Seen.{attacker_of, number_lists};
ghost use Rattle.sg_gen.specs.declared.shape.Shape.TheVariants.{Blocks, Free, Table};
ghost use Rattle.sg_gen.specs.Draws.{in_turn};
ghost use Rattle.sg_gen.specs.Generated.{blocks_game, drawn_attacker, drawn_attackers, free_game, lone_attacker, made_game, matrix_game};
ghost use Rattle.sg_gen.specs.Making.{Draws, IsPartsOf};
ghost use Rattle.sg_gen.specs.Shapes.{IsShape};

use crate::block::{schedules_of_blocks, shares_of_blocks};
use crate::draws::generator;
use crate::names::{named_lists, numbered, numbered_names};
use crate::row::{draw_block_rows, draw_free_rows, draw_table};
use crate::shape::Shape;
use rand_chacha::ChaCha20Rng;
use sg_game::{BuildFault, Game, Kind, Parts, TypeParts, no_fault_is_a_game};
use std::alloc::{AllocError, Global};

/// The one type of a game in security form.
fn lone_type(alloc: Global, payoffs: Vec<Vec<i64>>) -> Result<TypeParts, AllocError>
    ensures seen { IfOk result (λ x. attacker_of x ≡ lone_attacker (number_lists payoffs.items)) }
    ensures own { IfOk result IsSecurityParts }
    ensures payoffs { IfOk result (λ x. x.payoffs.items ≡ payoffs.items) }
{
    let name = numbered(alloc, "a", 1)?;
    Ok(TypeParts {
        name,
        prior: 1,
        payoffs,
        actions: Vec::new(alloc),
        leader: Vec::new(alloc),
        follower: Vec::new(alloc),
    })
}

/// A list of the one type.
fn lone_types(alloc: Global, payoffs: Vec<Vec<i64>>) -> Result<Vec<TypeParts>, AllocError>
    ensures seen { IfOk result (λ types. map attacker_of types.items ≡ lone_attacker (number_lists payoffs.items) ∷ []) }
    ensures own { IfOk result (λ types. All IsSecurityParts types.items) }
    ensures payoffs { IfOk result (λ types. All (λ x. x.payoffs.items ≡ payoffs.items) types.items) }
{
    let mut types = Vec::new(alloc);
    types.push(lone_type(alloc, payoffs)?)?;
    Ok(types)
}

/// The parts of a game of identical patrols.
fn free_parts(alloc: Global, targets: u16, patrols: u16, seed: u64) -> Result<Parts, AllocError>
    requires { IsShape (Free targets patrols) }
    ensures { IfOk result (λ parts. IsPartsOf parts (free_game seed targets patrols)) }
{
    let mut rng = generator(seed);
    let payoffs = draw_free_rows(alloc, &mut rng, targets)?;
    let goals = numbered_names(alloc, "t", targets as usize)?;
    let types = lone_types(alloc, payoffs)?;
    Ok(Parts {
        kind: Kind::Security,
        scale: Some(1 << 32),
        patrols: Some(patrols as i64),
        goals,
        schedules: Vec::new(alloc),
        resources: Vec::new(alloc),
        types,
    })
}

/// The parts of a game of blocks.
fn blocks_parts(
    alloc: Global,
    blocks: u16,
    width: u16,
    span: u16,
    seed: u64,
) -> Result<Parts, AllocError>
    requires { IsShape (Blocks blocks width span) }
    ensures { IfOk result (λ parts. IsPartsOf parts (blocks_game seed blocks width span)) }
{
    let targets = blocks * width;
    let mut rng = generator(seed);
    let payoffs = draw_block_rows(alloc, &mut rng, targets, span)?;
    let goals = numbered_names(alloc, "t", targets as usize)?;
    let schedules = schedules_of_blocks(alloc, blocks as u32, width as u32)?;
    let count = (schedules.as_slice().len() / blocks as usize) as u32;
    let resources = shares_of_blocks(alloc, blocks as u32, count)?;
    let schedules = named_lists(alloc, "s", schedules)?;
    let resources = named_lists(alloc, "r", resources)?;
    let types = lone_types(alloc, payoffs)?;
    Ok(Parts {
        kind: Kind::Security,
        scale: None,
        patrols: None,
        goals,
        schedules,
        resources,
        types,
    })
}

/// A type of a game in matrix form; `l` counts from 0.
fn draw_type(
    alloc: Global,
    rng: &mut ChaCha20Rng,
    rows: u16,
    actions: u16,
    l: u8,
) -> Result<TypeParts, AllocError>
    requires { actions ≤ 64 }
    ensures draws { IfOk result (λ x. Draws rng.old rng.new (rows * actions + rows * actions) (attacker_of x) (drawn_attacker rows actions l)) }
    ensures own { IfOk result (λ x. x.payoffs.items ≡ []) }
{
    let leader = draw_table(alloc, rng, rows, actions)?;
    let follower = draw_table(alloc, rng, rows, actions)?;
    let name = numbered(alloc, "a", l as usize + 1)?;
    let actions = numbered_names(alloc, "x", actions as usize)?;
    Ok(TypeParts {
        name,
        prior: 1,
        payoffs: Vec::new(alloc),
        actions,
        leader,
        follower,
    })
}

/// The types of a game in matrix form.
fn draw_types(
    alloc: Global,
    rng: &mut ChaCha20Rng,
    rows: u16,
    actions: u16,
    types: u8,
) -> Result<Vec<TypeParts>, AllocError>
    requires { actions ≤ 64 }
    ensures draws { IfOk result (λ xs. Draws rng.old rng.new (types * (rows * actions + rows * actions)) (map attacker_of xs.items) (drawn_attackers rows actions types)) }
    ensures own { IfOk result (λ xs. All (λ x. x.payoffs.items ≡ []) xs.items) }
{
    let mut all = Vec::new(alloc);
    for l in 0..types {
        all.push(draw_type(alloc, rng, rows, actions, l)?)?;
    }
    Ok(all)
}

/// The parts of a game in matrix form.
fn table_parts(
    alloc: Global,
    rows: u16,
    actions: u16,
    types: u8,
    seed: u64,
) -> Result<Parts, AllocError>
    requires { IsShape (Table rows actions types) }
    ensures { IfOk result (λ parts. IsPartsOf parts (matrix_game seed rows actions types)) }
{
    let mut rng = generator(seed);
    let types = draw_types(alloc, &mut rng, rows, actions, types)?;
    let goals = numbered_names(alloc, "r", rows as usize)?;
    Ok(Parts {
        kind: Kind::Matrix,
        scale: None,
        patrols: None,
        goals,
        schedules: Vec::new(alloc),
        resources: Vec::new(alloc),
        types,
    })
}

/// The parts of the game of a shape and a seed.
fn parts_of(alloc: Global, shape: Shape, seed: u64) -> Result<Parts, AllocError>
    requires { IsShape shape }
    ensures { IfOk result (λ parts. IsPartsOf parts (made_game shape seed)) }
{
    match shape {
        Shape::Free { targets, patrols } => free_parts(alloc, targets, patrols, seed),
        Shape::Blocks {
            resources,
            width,
            span,
        } => blocks_parts(alloc, resources, width, span, seed),
        Shape::Table {
            rows,
            actions,
            types,
        } => table_parts(alloc, rows, actions, types, seed),
    }
}

/// The game of a shape and a seed.
///
/// # Errors
///
/// An error only where memory ran out.
pub fn make_game(alloc: Global, shape: Shape, seed: u64) -> Result<Game, AllocError>
    requires { IsShape shape }
    ensures game { IfOk result (λ game. game ≡ made_game shape seed) }
{
    no_fault_is_a_game();
    let parts = parts_of(alloc, shape, seed)?;
    match Game::of(alloc, parts) {
        Ok(game) => Ok(game),
        Err(BuildFault::Memory) => Err(AllocError),
        Err(BuildFault::Refused(_)) => unreachable!(),
    }
}
