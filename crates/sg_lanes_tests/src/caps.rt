//! Caps that go from plain to proved.

use crate::games::STEADY;
use crate::session::Session;
use crate::steps::{may_choose, works_off};
use sg_file::read_game;
use sg_game::Game;
use sg_lanes::End;
use sg_search::Ready;
use std::alloc::Global;
use std::test::Fail;

/// A search in which a program makes at most one move, so that the second action of the first type can't be worked.
fn search<'a>(alloc: Global, game: &'a Game) -> Result<Option<Session<'a>>, Fail> {
    Ok(Session::new(alloc, game, 1, 100, 1)?)
}

/// Whether the cap of the second type has this value and so many facts.
fn is_cap(end: &End, value: i64, facts: usize) -> bool {
    match end.caps.as_slice() {
        [cap] => cap.l == 2 && cap.v == value && cap.proof.len() == facts,
        _ => false,
    }
}

/// The first action of the first type is worked, with a bound above the incumbent under the plain cap of 4; the second is stuck; the first node of the
/// cap is worked.
fn works_three(alloc: Global, session: &mut Session<'_>) -> Result<bool, Fail> {
    Ok(
        works_off(alloc, session, 0, 1, &[1])?
            && works_off(alloc, session, 0, 1, &[2])?
            && works_off(alloc, session, 0, 2, &[1])?
            && may_choose(session, 1),
    )
}

/// The cap stays plain while one of its nodes waits.
fn is_plain_before(alloc: Global) -> Result<bool, Fail> {
    let game = read_game(alloc, STEADY.as_bytes())?;
    match search(alloc, &game)? {
        Some(session) => {
            let mut session = session;
            if !works_three(alloc, &mut session)? {
                return Ok(false);
            }
            let end = session.end(alloc)?;
            Ok(is_cap(&end, 4, 0))
        }
        None => Ok(false),
    }
}

/// With its last node the cap is proved to be 2: the prefix that was above the incumbent under the plain cap may not be split under the proved one.
fn is_proved_after(alloc: Global) -> Result<bool, Fail> {
    let game = read_game(alloc, STEADY.as_bytes())?;
    match search(alloc, &game)? {
        Some(session) => {
            let mut session = session;
            if !works_three(alloc, &mut session)? {
                return Ok(false);
            }
            if !works_off(alloc, &mut session, 0, 2, &[2])? {
                return Ok(false);
            }
            if session.enabled(1) != Ready::Nothing {
                return Ok(false);
            }
            let end = session.end(alloc)?;
            Ok(is_cap(&end, 2, 2))
        }
        None => Ok(false),
    }
}

/// The nodes of the cap are worked first, while the prefixes wait: then the first one isn't to be split as soon as it is worked.
fn are_waiting(alloc: Global) -> Result<bool, Fail> {
    let game = read_game(alloc, STEADY.as_bytes())?;
    match search(alloc, &game)? {
        Some(session) => {
            let mut session = session;
            Ok(
                works_off(alloc, &mut session, 2, 2, &[1])?
                    && works_off(alloc, &mut session, 2, 2, &[2])?
                    && may_choose(&session, 2)
                    && works_off(alloc, &mut session, 0, 1, &[1])?
                    && works_off(alloc, &mut session, 0, 1, &[2])?
                    && session.enabled(1) == Ready::Nothing,
            )
        }
        None => Ok(false),
    }
}

#[test]
fn caps_are_plain_and_then_proved(rt: HostRuntime) -> Result<(), Fail> {
    assert!(rt; is_plain_before(rt.alloc())?);
    assert!(rt; is_proved_after(rt.alloc())?);
    assert!(rt; are_waiting(rt.alloc())?);
    Ok(())
}
