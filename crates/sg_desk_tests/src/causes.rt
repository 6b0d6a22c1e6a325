//! Nodes that are stopped: budgets one too small, and just enough.
use crate::games::ONE_TYPE;
use crate::nodes::{Budgets, outcome_of};
use sg_file::read_game;
use sg_tree::{Cause, Fix};
use sg_work::Ended;
use std::alloc::Global;
use std::test::Fail;

/// What stops a node, if anything does.
#[derive(Clone, Copy)]
enum Stop {
    Nothing,
    Moves(u64),
    Looks(u64, u64),
}

/// Budgets of moves and looks, and what they stop the second action's node of rows against one type with: its run makes two moves, by which the first play
/// enters and then the second, and at its end both are tested.
type Case = (u64, u64, Stop);

static CASES: [Case; 5] = [
    (2, 2, Stop::Nothing),
    (1, 2, Stop::Moves(1)),
    (0, 2, Stop::Moves(0)),
    (2, 1, Stop::Looks(1, 1)),
    (2, 0, Stop::Looks(0, 0)),
];

/// Whether a node is the second action's.
fn is_second(fix: &Fix) -> bool {
    fix.first == 1 && fix.acts.as_slice() == [2].as_slice()
}

/// Whether what a node came to is so.
fn is_stop(ended: &Ended, stop: Stop) -> bool {
    match (ended, stop) {
        (Ended::Worked(_, _), Stop::Nothing) => true,
        (Ended::Stuck(Cause::Pivots { budget, fix }), Stop::Moves(moves)) => {
            *budget == moves && is_second(fix)
        }
        (Ended::Stuck(Cause::Looks { budget, step, fix }), Stop::Looks(looks, moves)) => {
            *budget == looks && *step == moves && is_second(fix)
        }
        _ => false,
    }
}

/// The number of the first case that doesn't come out.
fn first_wrong(alloc: Global, cases: &[Case]) -> Result<Option<usize>, Fail> {
    let game = read_game(alloc, ONE_TYPE.as_bytes())?;
    for (i, (pivots, looks, stop)) in cases.iter().enumerate() {
        let budgets = Budgets {
            pivots: *pivots,
            looks: *looks,
        };
        match outcome_of(alloc, &game, 1, &[2], budgets)? {
            Some(ended) => {
                if !is_stop(&ended, *stop) {
                    return Ok(Some(i));
                }
            }
            None => return Ok(Some(i)),
        }
    }
    Ok(None)
}

#[test]
fn budgets_stop_nodes(rt: HostRuntime) -> Result<(), Fail> {
    assert_eq!(rt; first_wrong(rt.alloc(), &CASES)?, None);
    Ok(())
}
