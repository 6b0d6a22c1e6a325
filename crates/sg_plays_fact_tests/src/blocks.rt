//! A game of blocks that no other resource covers: 16^8 plays. A fact that holds for all of them is decided without going through them.

use crate::{Said, said_of};
use sg_file::read_game;
use sg_game::Game;
use sg_tree::Mark;
use std::alloc::{AllocError, Global};
use std::test::Fail;

/// How many blocks there are.
const BLOCKS: u16 = 8;

/// How many targets a block has.
const WIDTH: u16 = 5;

/// How many targets stand before each block.
const BEFORE: [u16; 8] = [0, 5, 10, 15, 20, 25, 30, 35];

/// The names of the targets, as a list.
fn targets(alloc: Global) -> Result<String, AllocError> {
    let mut text = String::from_str(alloc, "version = 1\nform = \"security\"\ntargets = [")?;
    for t in 1..BLOCKS * WIDTH {
        text.push_str(format!(in alloc; "\"t{t}\", ")?.as_str())?;
    }
    text.push_str(format!(in alloc; "\"t{}\"]\n", BLOCKS * WIDTH)?.as_str())?;
    Ok(text)
}

/// The schedules of a block, whose targets stand behind so many others: each of its targets, then each pair of them.
fn schedules(alloc: Global, before: u16) -> Result<String, AllocError> {
    let mut text = String::new(alloc);
    for i in 1..WIDTH + 1 {
        let t = before.saturating_add(i);
        text.push_str(format!(in alloc;
            "[[schedule]]\nname = \"s{t}\"\ntargets = [\"t{t}\"]\n"
        )?.as_str())?;
    }
    for i in 1..WIDTH + 1 {
        for j in i + 1..WIDTH + 1 {
            let (t, u) = (before.saturating_add(i), before.saturating_add(j));
            text.push_str(format!(in alloc;
                "[[schedule]]\nname = \"s{t}-{u}\"\ntargets = [\"t{t}\", \"t{u}\"]\n"
            )?.as_str())?;
        }
    }
    Ok(text)
}

/// The resource of a block.
fn resource(alloc: Global, before: u16) -> Result<String, AllocError> {
    let mut text = format!(in alloc; "[[resource]]\nname = \"r{before}\"\nschedules = [")?;
    for i in 1..WIDTH + 1 {
        text.push_str(format!(in alloc; "\"s{}\", ", before.saturating_add(i))?.as_str())?;
    }
    for i in 1..WIDTH + 1 {
        for j in i + 1..WIDTH + 1 {
            text.push_str(format!(in alloc;
                "\"s{}-{}\", ",
                before.saturating_add(i),
                before.saturating_add(j)
            )?
            .as_str())?;
        }
    }
    text.push_str("]\n")?;
    Ok(text)
}

/// The text of the game, against one type that loses nothing where it is caught.
fn blocks_text(alloc: Global) -> Result<String, AllocError> {
    let mut text = targets(alloc)?;
    for before in BEFORE {
        text.push_str(schedules(alloc, before)?.as_str())?;
    }
    for before in BEFORE {
        text.push_str(resource(alloc, before)?.as_str())?;
    }
    text.push_str("[[type]]\nname = \"a1\"\nprior = 1\npayoffs = [")?;
    for _ in 0..BLOCKS * WIDTH {
        text.push_str("[0, -1, 0, 1], ")?;
    }
    text.push_str("]\n")?;
    Ok(text)
}

/// The marks of a target: 1 for each other one of its block.
fn block_marks(alloc: Global, target: u16) -> Result<Vec<Mark>, AllocError> {
    let first = (target.saturating_sub(1)) / WIDTH * WIDTH;
    let mut marks = Vec::new(alloc);
    for i in 0..WIDTH {
        let a = first.saturating_add(i + 1);
        if a != target {
            marks.push(Mark { l: 1, a, v: 1 })?;
        }
    }
    Ok(marks)
}

/// The first target of which something else is said of the fact with `rho` 5 and this `mu`.
fn first_other(
    alloc: Global,
    game: &Game,
    mu: i128,
    said: Said,
) -> Result<Option<u16>, AllocError> {
    for t in 1..BLOCKS * WIDTH + 1 {
        let marks = block_marks(alloc, t)?;
        if said_of(alloc, game, (1, &[t]), 5, mu, marks.as_slice())? != said {
            return Ok(Some(t));
        }
    }
    Ok(None)
}

#[test]
fn blocks(rt: HostRuntime) -> Result<(), Fail> {
    let text = blocks_text(rt.alloc())?;
    let game = read_game(rt.alloc(), text.as_str().as_bytes())?;
    assert_eq!(rt; first_other(rt.alloc(), &game, 7, Said::Holds)?, None);
    assert_eq!(rt; first_other(rt.alloc(), &game, 6, Said::Fails)?, None);
    Ok(())
}
