//! Claims and copies.

use sg_frac::Frac;
use sg_model::{Level, Play, Ticket};
use sg_tree::{Claim, Fact, Fix, Line, Mark};
use sqlite_items::Items;
use std::alloc::{AllocError, Global};
use std::test::*;

/// Whether tickets of one weight with these choices, one ticket for each, are a claim.
fn is_claim(alloc: Global, weight: i128, choices: &[u16], total: i128) -> Result<bool, AllocError> {
    let mut tickets = Items::new(alloc);
    for choice in choices {
        let code = Items::from_slice(alloc, &[*choice])?;
        let play = Play { code };
        tickets.push(Ticket { play, weight })?;
    }
    match Claim::new(tickets, total) {
        Some(_) => Ok(true),
        None => Ok(false),
    }
}

/// Whether a node has an equal copy.
fn copies_a_fix(alloc: Global) -> Result<bool, AllocError> {
    let acts = Items::from_slice(alloc, &[3u16, 4])?;
    let fix = Fix { first: 1, acts };
    let copy = fix.copy(alloc)?;
    Ok(copy.first == 1 && copy.acts.as_slice() == [3u16, 4].as_slice())
}

/// Whether a water level has an equal copy.
fn copies_a_level(alloc: Global) -> Result<bool, AllocError> {
    let level = match Frac::of(4, 3) {
        Some(level) => level,
        None => return Ok(false),
    };
    let water = Fact::Water {
        level,
        reason: Level::Target(7),
    };
    match water.copy(alloc)? {
        Fact::Water { level, reason } => {
            Ok(level.num() == 4 && level.den() == 3 && reason == Level::Target(7))
        }
        _ => Ok(false),
    }
}

/// Whether a fact over plays with two marks has an equal copy.
fn copies_a_plays_fact(alloc: Global) -> Result<bool, AllocError> {
    let marks = [Mark { l: 1, a: 2, v: 5 }, Mark { l: 2, a: 1, v: 7 }];
    let fact = Fact::Plays {
        rho: 3,
        mu: 40,
        marks: Items::from_slice(alloc, marks.as_slice())?,
    };
    match fact.copy(alloc)? {
        Fact::Plays {
            rho,
            mu,
            marks: copied,
        } => Ok(rho == 3 && mu == 40 && copied.as_slice() == marks.as_slice()),
        _ => Ok(false),
    }
}

/// Whether a fact of the coverage table with two lines has an equal copy.
fn copies_a_cover_fact(alloc: Global) -> Result<bool, AllocError> {
    let lines = [Line { row: 4, v: 11 }, Line { row: 9, v: 1 }];
    let fact = Fact::Cover {
        rho: 2,
        mu: 13,
        lines: Items::from_slice(alloc, lines.as_slice())?,
    };
    match fact.copy(alloc)? {
        Fact::Cover {
            rho,
            mu,
            lines: copied,
        } => Ok(rho == 2 && mu == 13 && copied.as_slice() == lines.as_slice()),
        _ => Ok(false),
    }
}

#[test]
fn claims_keep_their_rules_and_copies_are_equal(rt: HostRuntime) -> Result<(), AllocError> {
    let cases: [(i128, &[u16], i128, bool); 5] = [
        (1, &[1, 2], 5, true),
        (1, &[1, 1], 2, false),
        (1, &[2, 1], 2, false),
        (0, &[1, 2], 0, false),
        (1, &[], 0, false),
    ];
    for (weight, choices, total, is_one) in cases {
        assert!(rt; is_claim(rt.alloc(), weight, choices, total)? == is_one);
    }
    assert!(rt; copies_a_fix(rt.alloc())? && copies_a_level(rt.alloc())?);
    Ok(())
}

#[test]
fn facts_over_plays_and_coverage_have_equal_copies(rt: HostRuntime) -> Result<(), AllocError> {
    assert!(rt; copies_a_plays_fact(rt.alloc())?);
    assert!(rt; copies_a_cover_fact(rt.alloc())?);
    Ok(())
}
