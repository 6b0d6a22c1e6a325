//! Lanes and choices that a seed draws. The first words of seed 0 (the published key stream of the key of zeros) are
//! 2917185654, 2419978656, 3848953152, 683509331, 3088700093, 451775904, 3438229160, 3339548555, 2086224346, 2370328401,
//! 1071654007; those of seed 1 are 2081084357, 2467425505, 1213188216, 2237298557, 3460231490, 1435798051; the greatest
//! seed has 1810801215, 3946927066, 4236919332.

use crate::steps::{Step, are_due, order};
use sg_options::Walk;
use sg_search::Event;
use sg_search::Ready::{Begin, Finish, Nothing, Turn};
use std::test::Fail;

const RANKS: &[(i128, i128)] = &[(1, 2), (3, 4), (3, 4), (2, 3), (1, 1)];

/// By seed 0: words 0 and 1, 2, 3 and 4, and 5.
fn zero() -> &'static [Step] {
    const STEPS: &'static [Step] = &[
        Step(&[Begin(5), Turn], Some(Event::Begin(1, 1))),
        Step(&[Turn, Begin(5)], Some(Event::Turn(1))),
        Step(&[Turn, Begin(5)], Some(Event::Begin(2, 3))),
        Step(&[Finish, Nothing, Turn, Begin(1)], Some(Event::Finish(1))),
    ];
    STEPS
}

/// On from seed 0's start: a word is drawn also for one lane and for one choice, and none where nothing may happen.
fn lonely() -> &'static [Step] {
    const STEPS: &'static [Step] = &[
        // Words 0 and 1.
        Step(&[Nothing, Begin(1)], Some(Event::Begin(2, 0))),
        Step(&[Nothing, Nothing], None),
        // Word 2, for one lane.
        Step(&[Nothing, Turn], Some(Event::Turn(2))),
        // Word 3, which leaves 3 of eight.
        Step(
            &[Turn, Turn, Turn, Turn, Turn, Turn, Turn, Turn],
            Some(Event::Turn(4)),
        ),
        // Word 4, which leaves 5.
        Step(
            &[Turn, Turn, Turn, Turn, Turn, Turn, Turn, Turn],
            Some(Event::Turn(6)),
        ),
    ];
    STEPS
}

/// By seed 1: words 0 and 1, 2 and 3, 4, and 5.
fn one() -> &'static [Step] {
    const STEPS: &'static [Step] = &[
        Step(&[Begin(3), Begin(3)], Some(Event::Begin(2, 1))),
        Step(&[Begin(3), Turn], Some(Event::Begin(1, 2))),
        Step(&[Turn, Turn], Some(Event::Turn(1))),
        Step(&[Turn, Finish], Some(Event::Finish(2))),
    ];
    STEPS
}

/// By the greatest seed: words 0 and 1, and 2.
fn greatest() -> &'static [Step] {
    const STEPS: &'static [Step] = &[
        Step(
            &[Turn, Nothing, Turn, Turn, Begin(5)],
            Some(Event::Begin(5, 1)),
        ),
        Step(&[Turn, Finish, Turn], Some(Event::Turn(1))),
    ];
    STEPS
}

#[test]
fn seeds_draw_lanes_and_choices(rt: HostRuntime) -> Result<(), Fail> {
    for (seed, steps) in [
        (0, zero()),
        (0, lonely()),
        (1, one()),
        (u64::MAX, greatest()),
    ] {
        assert!(rt; are_due(rt.alloc(), &order(Walk::Seeded, seed), RANKS, steps)?);
    }
    Ok(())
}
