//! Random small games: the walk beside a plain list of all partial plays.
//!
//! The list knows nothing of the walk: it goes through every partial play, in the order of lists, with the targets of a schedule as bits, and counts
//! those all of whose proper prefixes have a bound above the bar.

ghost use Rattle.std.specs.Prelude.{All, IfOk};
ghost use Rattle.sg_game.specs.Building.{IsSecurityParts};

use crate::games::{listed, numbered, thief};
use sg_game::{Game, Kind, ListParts, Parts};
use sg_walk::{PartialPlay, Walked, walk};
use std::alloc::{AllocError, Global};
use std::test::Fail;

/// How many games are tried.
const GAMES: u32 = 3000;

/// The most resources, and the most schedules of each.
const SIZE: usize = 3;

/// Numbers in a row that look random.
#[derive(Drop)]
struct Draws {
    state: u32,
}

impl Draws {
    /// The next number below `n`, which is at least 1.
    fn below(&mut self, n: u32) -> u32 {
        self.state = self.state.wrapping_mul(1664525).wrapping_add(1013904223);
        match n {
            0 => 0,
            _ => (self.state >> 16) % n,
        }
    }
}

/// A small game: how many targets and resources it has, for each resource how many schedules, and their targets as bits, and the weights.
#[derive(Drop)]
struct Small {
    targets: usize,
    resources: usize,
    counts: [usize; 3],
    schedules: [u8; 9],
    weights: [i64; 5],
    mu: i64,
}

/// What stands at a place, and 0 behind the end.
fn bits_at(list: &[u8], i: usize) -> u8 {
    match list.get(i) {
        Some(bits) => *bits,
        None => 0,
    }
}

/// What stands at a place, and 0 behind the end.
fn count_at(list: &[usize], i: usize) -> usize {
    match list.get(i) {
        Some(count) => *count,
        None => 0,
    }
}

/// The schedules of a game of so many targets, 2 to 5, as bits.
fn drawn_schedules(draws: &mut Draws, targets: usize) -> [u8; 9] {
    let most = bits_at(&[0, 0, 3, 7, 15, 31], targets);
    let mut schedules = [0u8; 9];
    for k in 0..9 {
        schedules[k] = (draws.below(u32::from(most)) % 32) as u8 + 1;
    }
    schedules
}

/// A game drawn from a number, with a bar somewhat below all weights above 0 together.
fn drawn(seed: u32) -> Small {
    let mut draws = Draws { state: seed };
    let targets = draws.below(4) as usize + 2;
    let resources = match draws.below(6) {
        0 => 0,
        1 => 1,
        2 => 2,
        _ => 3,
    };
    let mut counts = [0; 3];
    for r in 0..SIZE {
        counts[r] = draws.below(3) as usize + 1;
    }
    let schedules = drawn_schedules(&mut draws, targets);
    let mut weights = [0i64; 5];
    let mut sum: i64 = 0;
    for t in 0..5 {
        weights[t] = i64::from(draws.below(11)) - 3;
        if t < targets && weights[t] > 0 {
            sum = sum.wrapping_add(weights[t]);
        }
    }
    Small {
        targets,
        resources,
        counts,
        schedules,
        weights,
        mu: sum.wrapping_sub(i64::from(draws.below(8))),
    }
}

/// A partial play: how many choices, and the choices.
#[derive(Clone, Copy)]
struct Code {
    len: usize,
    choices: [usize; 3],
}

/// The code of so many choices, the last of them this one.
fn with(code: Code, len: usize, choice: usize) -> Code {
    let mut code = code;
    code.len = len;
    if 0 < len && len <= SIZE {
        code.choices[len - 1] = choice;
    }
    code
}

/// The targets of a choice, as bits: none by choice 0.
fn choice_bits(small: &Small, r: usize, choice: usize) -> u8 {
    if choice == 0 {
        return 0;
    }
    bits_at(
        &small.schedules,
        r.wrapping_mul(SIZE).wrapping_add(choice).wrapping_sub(1),
    )
}

/// The targets that the first choices of a code cover, as bits.
fn covered_bits(small: &Small, code: &Code, len: usize) -> u8 {
    let mut bits = 0;
    for r in 0..SIZE {
        if r < len {
            bits |= choice_bits(small, r, code.choices[r]);
        }
    }
    bits
}

/// Whether a target is among the bits.
fn has_bit(bits: u8, t: usize) -> bool {
    bits_at(&[1, 2, 4, 8, 16], t) & bits != 0
}

/// The sum of the weights of these targets; of those above 0 alone, where that is asked.
fn sum_of(small: &Small, bits: u8, positive: bool) -> i64 {
    let mut sum: i64 = 0;
    for t in 0..5 {
        let weight = small.weights[t];
        if has_bit(bits, t) && (!positive || weight > 0) {
            sum = sum.wrapping_add(weight);
        }
    }
    sum
}

/// The most that a resource can add where these targets are covered.
fn most_of(small: &Small, r: usize, bits: u8) -> i64 {
    let mut most = 0;
    for choice in 1..SIZE + 1 {
        if choice <= count_at(&small.counts, r) {
            let sum = sum_of(small, choice_bits(small, r, choice) & !bits, true);
            if most < sum {
                most = sum;
            }
        }
    }
    most
}

/// The bound of the first choices of a code.
fn bound_of(small: &Small, code: &Code, len: usize) -> i64 {
    let bits = covered_bits(small, code, len);
    let mut bound = sum_of(small, bits, false);
    for r in 0..SIZE {
        if len <= r && r < small.resources {
            bound = bound.wrapping_add(most_of(small, r, bits));
        }
    }
    bound
}

/// Whether each proper prefix of a code has a bound above the bar.
fn is_reached(small: &Small, code: &Code) -> bool {
    for len in 0..SIZE {
        if len < code.len && bound_of(small, code, len) <= small.mu {
            return false;
        }
    }
    true
}

/// The next code in the order of lists, and none behind the last.
fn next_of(small: &Small, code: Code) -> Option<Code> {
    if code.len < small.resources && code.len < SIZE {
        return Some(with(code, code.len + 1, 0));
    }
    for k in 0..SIZE {
        let len = code.len.saturating_sub(k);
        if len == 0 {
            return None;
        }
        let choice = count_at(&code.choices, len - 1);
        if choice < count_at(&small.counts, len - 1) && choice < SIZE {
            return Some(with(code, len, choice + 1));
        }
    }
    None
}

/// The looks by the list, and the first play above the bar.
#[derive(Drop)]
struct Listed {
    looks: u64,
    play: Option<Code>,
}

/// All partial plays, up to the first play above the bar.
fn list(small: &Small) -> Listed {
    let mut code = Code {
        len: 0,
        choices: [0; 3],
    };
    let mut looks: u64 = 0;
    for _ in 0..200u8 {
        if is_reached(small, &code) {
            looks = looks.saturating_add(1);
        }
        let sum = sum_of(small, covered_bits(small, &code, code.len), false);
        if code.len == small.resources && small.mu < sum {
            return Listed {
                looks,
                play: Some(code),
            };
        }
        match next_of(small, code) {
            Some(next) => code = next,
            None => return Listed { looks, play: None },
        }
    }
    Listed { looks, play: None }
}

/// The targets of a schedule, by their numbers.
fn members(alloc: Global, bits: u8) -> Result<Vec<u32>, AllocError> {
    let mut members = Vec::new(alloc);
    for t in 0..5u32 {
        if has_bit(bits, t as usize) {
            members.push(t + 1)?;
        }
    }
    Ok(members)
}

/// The schedules, each with a name of its own.
fn schedules(alloc: Global, small: &Small) -> Result<Vec<ListParts>, AllocError> {
    let mut lists = Vec::new(alloc);
    for k in 0..9 {
        let members = members(alloc, small.schedules[k])?;
        lists.push(listed(alloc, k, members)?)?;
    }
    Ok(lists)
}

/// The resources, each with schedules of its own.
fn resources(alloc: Global, small: &Small) -> Result<Vec<ListParts>, AllocError> {
    let mut lists = Vec::new(alloc);
    for r in 0..SIZE {
        if r < small.resources {
            let mut members = Vec::new(alloc);
            for k in 0..SIZE {
                if k < count_at(&small.counts, r) {
                    members.push((r * SIZE + k) as u32 + 1)?;
                }
            }
            lists.push(listed(alloc, r, members)?)?;
        }
    }
    Ok(lists)
}

/// The game.
fn game_of(alloc: Global, small: &Small) -> Result<Game, Fail> {
    let types = thief(alloc, small.targets)?;
    let goals = numbered(alloc, small.targets)?;
    let schedules = schedules(alloc, small)?;
    let resources = resources(alloc, small)?;
    Ok(Game::of(
        alloc,
        Parts {
            kind: Kind::Security,
            scale: None,
            patrols: None,
            goals,
            schedules,
            resources,
            types,
        },
    )?)
}

/// The weights of the targets.
fn weights_of(alloc: Global, small: &Small) -> Result<Vec<i128>, AllocError> {
    let mut weights = Vec::new(alloc);
    for t in 0..5 {
        if t < small.targets {
            weights.push(i128::from(small.weights[t]))?;
        }
    }
    Ok(weights)
}

/// Whether a walk found the play of a code.
fn is_code(play: &[u16], code: &Code) -> bool {
    if play.len() != code.len {
        return false;
    }
    for k in 0..play.len() {
        if play[k] as usize != count_at(&code.choices, k) {
            return false;
        }
    }
    true
}

/// Whether the walk answers as the list does, with a budget of exactly its looks.
fn is_answered(game: &Game, weights: &[i128], small: &Small, listed: &Listed) -> bool {
    if game.kind() != Kind::Security
        || game.resources() > 32
        || weights.len() != game.targets() as usize
    {
        return false;
    }
    let mut stack = PartialPlay::new();
    let mu = i128::from(small.mu);
    let answer = walk(game, weights, mu, listed.looks, &mut stack);
    let less = walk(
        game,
        weights,
        mu,
        listed.looks.saturating_sub(1),
        &mut stack,
    );
    if less != Walked::Spent {
        return false;
    }
    match &listed.play {
        Some(code) => answer == Walked::Found && is_code(stack.as_slice(), code),
        None => {
            answer
                == Walked::Clean {
                    looks: listed.looks,
                }
                && stack.len() == 0
        }
    }
}

/// Whether the walk over a drawn game agrees with the list.
fn agrees(alloc: Global, seed: u32) -> Result<bool, Fail> {
    let small = drawn(seed);
    let game = game_of(alloc, &small)?;
    let weights = weights_of(alloc, &small)?;
    Ok(is_answered(&game, weights.as_slice(), &small, &list(&small)))
}

/// The first number of whose game something else is said.
fn first_other(alloc: Global) -> Result<Option<u32>, Fail> {
    for seed in 0..GAMES {
        if !agrees(alloc, seed)? {
            return Ok(Some(seed));
        }
    }
    Ok(None)
}

#[test]
fn random_games_are_walked_as_listed(rt: HostRuntime) -> Result<(), Fail> {
    assert_eq!(rt; first_other(rt.alloc())?, None);
    Ok(())
}
