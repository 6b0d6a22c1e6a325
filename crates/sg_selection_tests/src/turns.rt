//! Lanes that take turns.

use crate::steps::{Step, are_due, order};
use sg_options::Walk;
use sg_search::Event;
use sg_search::Ready::{Begin, Finish, Nothing, Turn};
use sg_selection::{order_names_one, selected_are_runs, words_are_in_turn};
use std::test::Fail;

const RANKS: &[(i128, i128)] = &[(1, 2), (3, 4), (3, 4), (2, 3)];

/// Three lanes that begin, go on and finish.
fn three() -> &'static [Step] {
    const STEPS: &'static [Step] = &[
        Step(&[Begin(4), Begin(4), Begin(4)], Some(Event::Begin(1, 0))),
        Step(&[Turn, Begin(3), Begin(3)], Some(Event::Begin(2, 0))),
        Step(&[Turn, Turn, Begin(2)], Some(Event::Begin(3, 0))),
        Step(&[Turn, Finish, Turn], Some(Event::Turn(1))),
        Step(&[Finish, Finish, Turn], Some(Event::Finish(2))),
    ];
    STEPS
}

/// Lanes that are told nothing are passed over, also behind the last; where all are, none is named, and the lane of the
/// event before stays.
fn passed_over() -> &'static [Step] {
    const STEPS: &'static [Step] = &[
        Step(&[Nothing, Nothing, Turn], Some(Event::Turn(3))),
        Step(&[Nothing, Turn, Turn], Some(Event::Turn(2))),
        Step(&[Nothing, Turn, Nothing], Some(Event::Turn(2))),
        Step(&[Nothing, Nothing, Nothing], None),
        Step(&[Finish, Turn, Turn], Some(Event::Turn(3))),
    ];
    STEPS
}

/// Eight lanes, and one.
fn ends() -> &'static [Step] {
    const STEPS: &'static [Step] = &[
        Step(
            &[
                Nothing, Nothing, Nothing, Nothing, Nothing, Nothing, Nothing, Finish,
            ],
            Some(Event::Finish(8)),
        ),
        Step(
            &[Turn, Turn, Turn, Turn, Turn, Turn, Turn, Turn],
            Some(Event::Turn(1)),
        ),
        Step(&[Begin(1)], Some(Event::Begin(1, 0))),
        Step(&[Turn], Some(Event::Turn(1))),
        Step(&[], None),
    ];
    STEPS
}

#[test]
fn lanes_take_turns(rt: HostRuntime) -> Result<(), Fail> {
    order_names_one();
    selected_are_runs();
    words_are_in_turn();
    for steps in [three(), passed_over(), ends()] {
        assert!(rt; are_due(rt.alloc(), &order(Walk::File, 1), RANKS, steps)?);
    }
    Ok(())
}
