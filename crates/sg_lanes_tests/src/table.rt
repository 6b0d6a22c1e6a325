//! The first events of a search with two lanes.

use crate::games::TWO_TYPES;
use crate::session::Session;
use crate::steps::{Came, came_to};
use sg_file::read_game;
use sg_search::{Event, Ready};
use std::alloc::Global;
use std::test::Fail;

/// An event, and what it comes to.
type Case = (Event, Came);

static FIRST: [Case; 5] = [
    (Event::Begin(1, 0), Came::Took(1, &[1])),
    (Event::Begin(1, 0), Came::Idle),
    (Event::Begin(2, 3), Came::Idle),
    (Event::Finish(1), Came::Idle),
    (Event::Turn(2), Came::Idle),
];

static SECOND: [Case; 5] = [
    (Event::Turn(1), Came::Moved),
    (Event::Begin(2, 0), Came::Took(1, &[2])),
    (Event::Turn(1), Came::Ended),
    (Event::Turn(1), Came::Idle),
    (Event::Finish(1), Came::Closed),
];

/// The place of the first event that comes to something else.
fn first_wrong(
    alloc: Global,
    session: &mut Session<'_>,
    cases: &[Case],
) -> Result<Option<usize>, Fail> {
    for (i, (event, wanted)) in cases.iter().enumerate() {
        let outcome = session.event(alloc, *event)?;
        if !came_to(&outcome, *wanted) {
            return Ok(Some(i));
        }
    }
    Ok(None)
}

/// Whether all come out, with what the second lane is told in between.
fn are_met(alloc: Global) -> Result<bool, Fail> {
    let game = read_game(alloc, TWO_TYPES.as_bytes())?;
    let mut session = match Session::new(alloc, &game, 2, 100, 1000)? {
        Some(session) => session,
        None => return Ok(false),
    };
    if session.enabled(2) != Ready::Begin(4) {
        return Ok(false);
    }
    if first_wrong(alloc, &mut session, &FIRST)? != None {
        return Ok(false);
    }
    if session.enabled(2) != Ready::Begin(3) {
        return Ok(false);
    }
    Ok(first_wrong(alloc, &mut session, &SECOND)? == None)
}

#[test]
fn two_lanes_event_by_event(rt: HostRuntime) -> Result<(), Fail> {
    assert!(rt; are_met(rt.alloc())?);
    Ok(())
}
