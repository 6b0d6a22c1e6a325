//! Several programs in progress at once.

use crate::games::TWO_TYPES;
use crate::session::Session;
use crate::watched::Call;
use sg_file::read_game;
use sg_search::{Event, Outcome};
use std::alloc::Global;
use std::test::Fail;

/// Two lanes by turns: the second takes its node and moves before the first has ended, and goes on after it is cleared.
static EVENTS: [Event; 10] = [
    Event::Begin(1, 1),
    Event::Turn(1),
    Event::Begin(2, 1),
    Event::Turn(2),
    Event::Turn(1),
    Event::Turn(2),
    Event::Turn(1),
    Event::Finish(1),
    Event::Turn(2),
    Event::Finish(2),
];

static CALLS: [Call; 10] = [
    Call::Start(1),
    Call::Step(1),
    Call::Start(2),
    Call::Step(2),
    Call::Step(1),
    Call::Step(2),
    Call::Step(1),
    Call::Clear(1),
    Call::Step(2),
    Call::Clear(2),
];

/// How many of the events are not enabled; none where there is no such search.
fn idle_count(alloc: Global, session: &mut Session<'_>, events: &[Event]) -> Result<u32, Fail> {
    let mut idle = 0u32;
    for event in events {
        match session.event(alloc, *event)? {
            Outcome::Idle => idle = idle.saturating_add(1),
            _ => {}
        }
    }
    Ok(idle)
}

/// Whether the calls on the desk come in this order, by these events.
fn are_called(alloc: Global, events: &[Event], calls: &[Call]) -> Result<bool, Fail> {
    let game = read_game(alloc, TWO_TYPES.as_bytes())?;
    let mut session = match Session::new(alloc, &game, 2, 100, 1000)? {
        Some(session) => session,
        None => return Ok(false),
    };
    if idle_count(alloc, &mut session, events)? != 0 {
        return Ok(false);
    }
    Ok(session.calls() == calls)
}

#[test]
fn both_lanes_are_in_progress_at_once(rt: HostRuntime) -> Result<(), Fail> {
    assert!(rt; are_called(rt.alloc(), &EVENTS, &CALLS)?);
    Ok(())
}
