//! All lists of up to five events, beside a plain machine; where a prefix is to be split, and after it, of up to four.

use crate::games::TWO_TYPES;
use crate::plain::{Answer, Plain};
use crate::session::Session;
use crate::steps::is_node;
use sg_file::read_game;
use sg_game::Game;
use sg_search::{Event, Outcome};
use sg_tree::Fix;
use std::alloc::{AllocError, Global};
use std::test::Fail;

/// The events of the lists. The number by which the second lane begins is too high where one node alone may be chosen.
static EVENTS: [Event; 6] = [
    Event::Begin(1, 0),
    Event::Begin(2, 1),
    Event::Turn(1),
    Event::Turn(2),
    Event::Finish(1),
    Event::Finish(2),
];

/// How many lists of so many events there are.
fn list_count(length: u8) -> u32 {
    let mut count = 1u32;
    for _ in 0..length {
        count = count.saturating_mul(6);
    }
    count
}

/// The events by which a lane works the first four nodes.
static FOUR: [Event; 18] = [
    Event::Begin(1, 0),
    Event::Turn(1),
    Event::Turn(1),
    Event::Finish(1),
    Event::Begin(1, 0),
    Event::Turn(1),
    Event::Turn(1),
    Event::Turn(1),
    Event::Finish(1),
    Event::Begin(1, 0),
    Event::Turn(1),
    Event::Turn(1),
    Event::Turn(1),
    Event::Finish(1),
    Event::Begin(1, 0),
    Event::Turn(1),
    Event::Turn(1),
    Event::Finish(1),
];

/// And the first part of the second prefix after them.
static FIVE: [Event; 5] = [
    Event::Begin(1, 0),
    Event::Turn(1),
    Event::Turn(1),
    Event::Turn(1),
    Event::Finish(1),
];

/// Whether this is the node of a number of the plain machine.
fn is_numbered(node: &Fix, number: u8) -> bool {
    match number {
        1 => is_node(node, 1, &[1]),
        2 => is_node(node, 1, &[2]),
        3 => is_node(node, 2, &[1]),
        4 => is_node(node, 2, &[2]),
        5 => is_node(node, 1, &[2, 1]),
        6 => is_node(node, 1, &[2, 2]),
        _ => false,
    }
}

/// Whether an event came to the same in both machines.
fn is_same(outcome: &Outcome, answer: Answer) -> bool {
    match (outcome, answer) {
        (Outcome::Idle, Answer::Idle) => true,
        (Outcome::Took(node), Answer::Took(number)) => is_numbered(node, number),
        (Outcome::Moved, Answer::Moved) => true,
        (Outcome::Ended, Answer::Ended) => true,
        (Outcome::Closed, Answer::Closed) => true,
        _ => false,
    }
}

/// An event in both machines: whether it comes to the same, and the lanes are then told the same.
fn agrees(
    alloc: Global,
    session: &mut Session<'_>,
    plain: &mut Plain,
    e: Event,
) -> Result<bool, AllocError> {
    let outcome = session.event(alloc, e)?;
    let answer = plain.event(e);
    Ok(
        is_same(&outcome, answer)
            && session.enabled(0) == plain.enabled(0)
            && session.enabled(1) == plain.enabled(1)
            && session.enabled(2) == plain.enabled(2)
            && session.enabled(3) == plain.enabled(3),
    )
}

/// Whether a list of events comes to the same.
fn agree(
    alloc: Global,
    session: &mut Session<'_>,
    plain: &mut Plain,
    events: &[Event],
) -> Result<bool, AllocError> {
    for event in events {
        if !agrees(alloc, session, plain, *event)? {
            return Ok(false);
        }
    }
    Ok(true)
}

/// Whether the list of a number does: its events are the number's digits in base 6.
fn agrees_on(
    alloc: Global,
    session: &mut Session<'_>,
    plain: &mut Plain,
    length: u8,
    number: u32,
) -> Result<bool, AllocError> {
    let mut left = number;
    for _ in 0..length {
        match EVENTS.get(left as usize % 6) {
            Some(event) => {
                if !agrees(alloc, session, plain, *event)? {
                    return Ok(false);
                }
            }
            None => return Ok(false),
        }
        left /= 6;
    }
    Ok(true)
}

/// Events before a list, with so many lanes, and how many events the list has.
#[derive(Clone, Copy)]
struct After<'a> {
    lanes: u8,
    first: &'a [Event],
    second: &'a [Event],
    length: u8,
}

/// Whether the list of a number does, after some first events.
fn agrees_after(
    alloc: Global,
    game: &Game,
    after: After<'_>,
    number: u32,
) -> Result<bool, AllocError> {
    let mut plain = Plain::new(after.lanes);
    match Session::new(alloc, game, after.lanes, 100, 1000)? {
        Some(session) => {
            let mut session = session;
            Ok(
                agree(alloc, &mut session, &mut plain, after.first)?
                    && agree(alloc, &mut session, &mut plain, after.second)?
                    && agrees_on(alloc, &mut session, &mut plain, after.length, number)?,
            )
        }
        None => Ok(false),
    }
}

/// The number of the first list that doesn't, after some first events.
fn first_wrong(alloc: Global, after: After<'_>) -> Result<Option<u32>, Fail> {
    let game = read_game(alloc, TWO_TYPES.as_bytes())?;
    for number in 0..list_count(after.length) {
        if !agrees_after(alloc, &game, after, number)? {
            return Ok(Some(number));
        }
    }
    Ok(None)
}

#[test]
fn lists_of_events_with_one_lane(rt: HostRuntime) -> Result<(), Fail> {
    let after = After {
        lanes: 1,
        first: &[],
        second: &[],
        length: 5,
    };
    assert_eq!(rt; first_wrong(rt.alloc(), after)?, None);
    Ok(())
}

#[test]
fn lists_of_events_with_two_lanes(rt: HostRuntime) -> Result<(), Fail> {
    let after = After {
        lanes: 2,
        first: &[],
        second: &[],
        length: 5,
    };
    assert_eq!(rt; first_wrong(rt.alloc(), after)?, None);
    Ok(())
}

#[test]
fn lists_of_events_where_a_prefix_is_to_be_split(rt: HostRuntime) -> Result<(), Fail> {
    let after = After {
        lanes: 2,
        first: &FOUR,
        second: &[],
        length: 4,
    };
    assert_eq!(rt; first_wrong(rt.alloc(), after)?, None);
    Ok(())
}

#[test]
fn lists_of_events_after_the_split(rt: HostRuntime) -> Result<(), Fail> {
    let after = After {
        lanes: 2,
        first: &FOUR,
        second: &FIVE,
        length: 4,
    };
    assert_eq!(rt; first_wrong(rt.alloc(), after)?, None);
    Ok(())
}
