//! Tables for people, worked out by hand.

use crate::tickets::{HALF, Shares, commitment};
use sg_commit::{Commitment, answers_are_first, are_legal};
use sg_file::read_game;
use sg_frac::Frac;
use sg_game::Game;
use sg_num::{Op, Wide};
use sg_report::{ShowFault, show_text, table_is_one, tables_are_worked};
use std::alloc::Global;
use std::test::Fail;

/// A game, tickets and an upper bound, and the table or the fault that is wanted of them.
#[derive(Drop)]
struct Case {
    game: &'static str,
    tickets: Shares,
    upper: (i128, i128),
    shown: Result<&'static [u8], ShowFault>,
}

/// Two targets and one patrol.
const GATE_AND_HALL: &'static str =
    "version = 1\nform = \"security\"\nscale = 4\npatrols = 1\ntargets = [\"gate\", \"hall\"]\n\n[[type]]\nname = \"thief\"\nprior = 1\npayoffs = [[2, -2, 0, 4], [1, -1, 0, 2]]\n";

/// Three targets; both resources may take the second.
const NEIGHBOURS: &'static str =
    "version = 1\nform = \"security\"\ntargets = [\"a\", \"b\", \"c\"]\n\n[[schedule]]\nname = \"a\"\ntargets = [\"a\"]\n\n[[schedule]]\nname = \"b\"\ntargets = [\"b\"]\n\n[[schedule]]\nname = \"c\"\ntargets = [\"c\"]\n\n[[resource]]\nname = \"r1\"\nschedules = [\"a\", \"b\"]\n\n[[resource]]\nname = \"r2\"\nschedules = [\"b\", \"c\"]\n\n[[type]]\nname = \"thief\"\nprior = 1\npayoffs = [[0, -1, 0, 1], [0, -1, 0, 1], [0, -1, 0, 1]]\n";

/// Three rows, two players.
const THREE_ROWS: &'static str =
    "version = 1\nform = \"matrix\"\nrows = [\"A\", \"B\", \"C\"]\n\n[[type]]\nname = \"first\"\nprior = 1\nactions = [\"x\", \"y\"]\nleader = [[2, 4], [0, 0], [1, 3]]\nfollower = [[1, 0], [0, 0], [0, 2]]\n\n[[type]]\nname = \"second\"\nprior = 1\nactions = [\"x\", \"y\"]\nleader = [[2, 4], [0, 0], [1, 3]]\nfollower = [[3, 0], [0, 0], [0, 2]]\n";

/// Tables of each form.
fn tables() -> &'static [Case] {
    const CASES: &'static [Case] = &[
        Case {
            game: GATE_AND_HALL,
            tickets: &[(2, &[1]), (1, &[2])],
            upper: (2, 3),
            shown: Ok(
                b"value 2/3\nupper 2/3\ntickets 3\ntarget gate 2\ntarget hall 1\ntype thief attacks gate\n",
            ),
        },
        // Both resources at the second target count once; of two best actions alike it is the first.
        Case {
            game: NEIGHBOURS,
            tickets: &[(3, &[2, 1]), (1, &[1, 2])],
            upper: (0, 5),
            shown: Ok(
                b"value -3/4\nupper 0/1\ntickets 4\ntarget a 1\ntarget b 3\ntarget c 1\ntype thief attacks a\n",
            ),
        },
    ];
    CASES
}

/// A table of rows, and a value that is not shown.
fn others() -> &'static [Case] {
    const CASES: &'static [Case] = &[
        // A row without tickets; both actions are best for the first player, and the second gives the defender more.
        Case {
            game: THREE_ROWS,
            tickets: &[(1, &[3]), (2, &[1])],
            upper: (4, 1),
            shown: Ok(
                b"value 8/3\nupper 4/1\ntickets 3\nrow A 2\nrow B 0\nrow C 1\ntype first attacks y\ntype second attacks x\n",
            ),
        },
        // A wide value is not shown.
        Case {
            game: GATE_AND_HALL,
            tickets: &[(HALF, &[1]), (HALF - 1, &[2])],
            upper: (0, 1),
            shown: Err(ShowFault::Wide(Wide {
                op: Op::Times,
                left: HALF - 1,
                right: 4,
            })),
        },
    ];
    CASES
}

/// Whether a commitment is shown as is wanted.
fn is_shown(alloc: Global, game: &Game, k: &Commitment, upper: Frac, case: &Case) -> bool {
    if !are_legal(game, k.tickets()) {
        return false;
    }
    match show_text(alloc, game, k, upper) {
        Ok(text) => match case.shown {
            Ok(wanted) => text.as_slice() == wanted,
            Err(_) => false,
        },
        Err(fault) => case.shown.err() == Some(fault),
    }
}

/// Whether a case is met.
fn is_met(alloc: Global, case: &Case) -> Result<bool, Fail> {
    let (num, den) = case.upper;
    let upper = Frac::of(num, den).ok_or("a fraction")?;
    let game = read_game(alloc, case.game.as_bytes())?;
    let k = commitment(alloc, case.tickets)?;
    Ok(is_shown(alloc, &game, &k, upper, case))
}

/// Whether all are.
fn are_met(alloc: Global, cases: &[Case]) -> Result<bool, Fail> {
    for case in cases {
        if !is_met(alloc, case)? {
            return Ok(false);
        }
    }
    Ok(true)
}

#[test]
fn tables_are_shown(rt: HostRuntime) -> Result<(), Fail> {
    answers_are_first();
    table_is_one();
    tables_are_worked();
    for cases in [tables(), others()] {
        assert!(rt; are_met(rt.alloc(), cases)?);
    }
    Ok(())
}
