//! The first of the greatest ranks.

use crate::steps::{Step, are_due, order};
use sg_options::Walk;
use sg_search::Event;
use sg_search::Ready::{Begin, Finish, Nothing, Turn};
use std::test::Fail;

/// Of two that are greatest the first, also where one of them is no choice any more, and where no lane begins the lanes
/// take turns.
fn shared() -> &'static [Step] {
    const STEPS: &'static [Step] = &[
        Step(&[Begin(4), Begin(4)], Some(Event::Begin(1, 1))),
        Step(&[Turn, Begin(1)], Some(Event::Begin(2, 0))),
        Step(&[Turn, Finish], Some(Event::Turn(1))),
        Step(&[Nothing, Finish], Some(Event::Finish(2))),
        Step(&[Begin(2), Begin(2)], Some(Event::Begin(1, 1))),
        Step(&[Nothing, Nothing], None),
    ];
    STEPS
}

/// The last of three, and of two the first.
fn close() -> &'static [Step] {
    const STEPS: &'static [Step] = &[
        Step(&[Begin(3)], Some(Event::Begin(1, 2))),
        Step(&[Begin(2)], Some(Event::Begin(1, 0))),
    ];
    STEPS
}

#[test]
fn greatest_rank_comes_first(rt: HostRuntime) -> Result<(), Fail> {
    let alloc = rt.alloc();
    let best = order(Walk::Best, 1);
    assert!(rt; are_due(alloc, &best, &[(1, 2), (3, 4), (3, 4), (2, 3)], shared())?);

    // Below 0, and apart by a product of more than 128 bits.
    let big = 1_000_000_000_000_000_000_000_000_000;
    assert!(rt; are_due(alloc, &best, &[(-1, 3), (-1, 2), (1, i128::MAX)], close())?);
    assert!(rt;
        are_due(
            alloc,
            &best,
            &[(big, big + 1), (big - 1, big), (big + 1, big + 2)],
            close()
        )?
    );
    Ok(())
}
