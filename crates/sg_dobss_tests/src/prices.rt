//! What pricing answers on small games, worked out by hand.
use crate::games::{LINE, ONE_PLAYER, SQUARE};
use crate::{answer_of, listed_of};
use sg_dobss::Listed;
use sg_file::read_game;
use sg_lp::Priced;
use sg_num::{Op, Wide};
use std::alloc::Global;
use std::test::Fail;

const MOST: i128 = i128::MAX;

const HALF: i128 = 85070591730234615865843651857942052864; // 2^126

/// What pricing answers, with the choices of the play that enters.
#[derive(Clone, Copy)]
enum Answer {
    Found(&'static [u16]),
    Clean(u64),
    Spent,
    Wide(Op, i128, i128),
}

/// Multipliers, their denominator, a budget, and the answer.
type Price = (&'static [i128], i128, u64, Answer);

/// A game, the action that its type is fixed to, and prices.
struct Case {
    game: &'static str,
    act: u16,
    prices: &'static [Price],
}

/// Two rows of costs 4 and 3 and entries 1, 1 and 1, -2.
static OF_ROWS: Case = Case {
    game: ONE_PLAYER,
    act: 2,
    prices: &[
        (&[0, 0], 1, 1, Answer::Found(&[1])),
        (&[0, 0], 1, 0, Answer::Spent),
        (&[0, 4], 1, 2, Answer::Found(&[2])),
        (&[0, 4], 1, 1, Answer::Spent),
        // 12 and 12, 9 and 9
        (&[11, 1], 3, 2, Answer::Clean(2)),
        (&[11, 1], 3, 3, Answer::Clean(2)),
        (&[11, 1], 3, 1, Answer::Spent),
    ],
};

/// The same rows, where values don't fit.
static MISFITS: Case = Case {
    game: ONE_PLAYER,
    act: 2,
    prices: &[
        (&[0, 0], HALF, 9, Answer::Wide(Op::Times, HALF, 4)),
        (&[MOST, 1], 1, 9, Answer::Wide(Op::Sum, MOST, 1)),
        // the worth comes before the product
        (&[MOST, 1], HALF, 9, Answer::Wide(Op::Times, HALF, 4)),
        // the second play doesn't fit: the budget comes before it
        (&[0, HALF + 1], 1, 2, Answer::Wide(Op::Times, HALF + 1, -2)),
        (&[0, HALF + 1], 1, 1, Answer::Spent),
        (&[0, HALF], 1, 2, Answer::Found(&[2])),
    ],
};

/// Nine joint schedules.
static OF_SQUARE: Case = Case {
    game: SQUARE,
    act: 1,
    prices: &[
        (&[2, 0, 0, 0], 1, 9, Answer::Clean(9)),
        (&[2, 0, 0, 0], 1, 8, Answer::Spent),
        (&[1, 0, 1, 0], 1, 9, Answer::Found(&[0, 1])),
        (&[1, 1, 0, 0], 1, 3, Answer::Found(&[0, 2])),
        (&[1, 1, 0, 0], 1, 2, Answer::Spent),
        (&[2, 1, 1, 0], 1, 9, Answer::Found(&[2, 2])),
        (&[2, 1, 1, 0], 1, 8, Answer::Spent),
    ],
};

/// Three schedules of one resource.
static OF_LINE: Case = Case {
    game: LINE,
    act: 2,
    prices: &[
        (&[2, 0, 0], 1, 3, Answer::Clean(3)),
        (&[2, 0, 0], 1, 2, Answer::Spent),
        (&[1, 0, 1], 1, 3, Answer::Found(&[2])),
        (&[1, 0, 1], 1, 2, Answer::Spent),
        (&[0, 5, 5], 1, 3, Answer::Found(&[0])),
    ],
};

/// Whether the column holds these choices, and zeros behind them.
fn holds(len: u8, code: &[u16], choices: &[u16]) -> bool {
    if len as usize != choices.len() {
        return false;
    }
    for i in 0..code.len() {
        let want = if i < choices.len() { choices[i] } else { 0 };
        if code[i] != want {
            return false;
        }
    }
    true
}

/// Whether pricing answers so.
fn is_answer(listed: &Listed, (y, rho, budget, want): Price) -> bool {
    let Some((priced, column)) = answer_of(listed, y, rho, budget) else {
        return false;
    };
    match (priced, want) {
        (Priced::Found, Answer::Found(choices)) => {
            holds(column.len, column.code.as_slice(), choices)
        }
        (Priced::Clean { looks }, Answer::Clean(n)) => looks == n,
        (Priced::Spent, Answer::Spent) => true,
        (Priced::Wide(name, wide), Answer::Wide(op, left, right)) => {
            name == 2 && wide == Wide { op, left, right }
        }
        _ => false,
    }
}

/// The first price, counted from 0, that is otherwise.
fn first_wrong_price(listed: &Listed, prices: &[Price]) -> Option<usize> {
    for k in 0..prices.len() {
        if !is_answer(listed, prices[k]) {
            return Some(k);
        }
    }
    None
}

/// The first price of a case, counted from 0, that is otherwise.
fn first_wrong(alloc: Global, case: &Case) -> Result<Option<usize>, Fail> {
    let game = read_game(alloc, case.game.as_bytes())?;
    let listed = listed_of(alloc, &game, 1, &[case.act])?.ok_or("no such node")?;
    Ok(first_wrong_price(&listed, case.prices))
}

#[test]
fn prices(rt: HostRuntime) -> Result<(), Fail> {
    assert_eq!(rt; first_wrong(rt.alloc(), &OF_ROWS)?, None);
    assert_eq!(rt; first_wrong(rt.alloc(), &MISFITS)?, None);
    assert_eq!(rt; first_wrong(rt.alloc(), &OF_SQUARE)?, None);
    assert_eq!(rt; first_wrong(rt.alloc(), &OF_LINE)?, None);
    Ok(())
}
