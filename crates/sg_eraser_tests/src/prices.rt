//! What pricing answers on small games, worked out by hand.
use crate::games::{ONE_GUARD, TWO_THIEVES};
use crate::{answer_of, cover_of};
use sg_eraser::{Cover, numbered};
use sg_file::read_game;
use sg_lp::Priced;
use sg_num::{Op, Wide};
use std::alloc::Global;
use std::test::Fail;

const MOST: i128 = i128::MAX;

const LEAST: i128 = i128::MIN;

const HALF: i128 = 85070591730234615865843651857942052864; // 2^126

/// What pricing answers, with the number of the column that enters.
#[derive(Clone, Copy)]
enum Answer {
    Found(u16),
    Clean(u64),
    Spent,
    Wide(Op, i128, i128),
}

/// Multipliers, their denominator, a budget, and the answer.
type Price = (&'static [i128], i128, u64, Answer);

/// A game, the targets that its types are fixed to, and prices.
struct Case {
    game: &'static str,
    acts: &'static [u16],
    prices: &'static [Price],
}

/// Costs 1, 0 and 2; entries 1, -1, 0, -1; then 0, 1, -1, 0; then 0, 0, 1, 1. The multipliers are those of the run's states, in order.
static OF_ONE: Case = Case {
    game: ONE_GUARD,
    acts: &[1],
    prices: &[
        (&[0, 0, 0, 0], 1, 1, Answer::Found(1)),
        (&[0, 0, 0, 0], 1, 0, Answer::Spent),
        (&[1, 0, 0, 0], 1, 3, Answer::Found(3)),
        (&[1, 0, 0, 0], 1, 2, Answer::Spent),
        (&[1, 0, 2, 0], 1, 2, Answer::Found(2)),
        (&[1, 0, 2, 0], 1, 1, Answer::Spent),
        (&[3, 0, 0, 2], 1, 3, Answer::Clean(3)),
        (&[3, 0, 0, 2], 1, 4, Answer::Clean(3)),
        (&[3, 0, 0, 2], 1, 2, Answer::Spent),
    ],
};

/// The same columns, where values don't fit.
static MISFITS: Case = Case {
    game: ONE_GUARD,
    acts: &[1],
    prices: &[
        // the budget comes before the third column
        (&[HALF, 0, 0, 0], HALF, 9, Answer::Wide(Op::Times, HALF, 2)),
        (&[HALF, 0, 0, 0], HALF, 2, Answer::Spent),
        (&[MOST, -1, 0, 0], 1, 9, Answer::Wide(Op::Sum, MOST, 1)),
        (&[0, LEAST, 0, 0], 1, 9, Answer::Wide(Op::Times, LEAST, -1)),
        // the worth comes before the products
        (&[HALF, 0, MOST, 1], HALF, 9, Answer::Found(1)),
        (&[HALF, 0, -1, MOST], HALF, 9, Answer::Found(1)),
        // nothing is formed at an entry of 0
        (&[0, 0, LEAST, 0], 1, 9, Answer::Found(1)),
        (&[1, 0, LEAST, 0], 1, 9, Answer::Wide(Op::Times, LEAST, -1)),
    ],
};

/// Two types, whose own targets gain them by entries 5, -4 and -4, 6.
static OF_THIEVES: Case = Case {
    game: TWO_THIEVES,
    acts: &[1, 2],
    prices: &[
        (&[26, 0, 0, 0, 0, 0, 0, 0, 0], 1, 6, Answer::Found(5)),
        (&[26, 0, 0, 8, 15, 0, 0, 0, 0], 1, 6, Answer::Found(2)),
        (&[49, 15, 8, 8, 15, 0, 0, 0, 0], 1, 6, Answer::Found(4)),
        (&[56, 15, 15, 8, 15, 0, 0, 0, 0], 1, 6, Answer::Clean(6)),
        (&[56, 15, 15, 8, 15, 0, 0, 0, 0], 1, 5, Answer::Spent),
        // 56 - 30 - 2 - 3 is 21
        (&[56, 15, 15, 8, 15, 0, 0, 1, 1], 1, 6, Answer::Found(1)),
        // 8 + 5 - 8 is 5
        (&[90, 15, 15, 8, 15, 0, 0, 1, 2], 1, 6, Answer::Found(5)),
    ],
};

/// Whether pricing answers so.
fn is_answer(cover: &Cover, (y, rho, budget, want): Price) -> bool {
    let Some((priced, column)) = answer_of(cover, y, rho, budget) else {
        return false;
    };
    match (priced, want) {
        (Priced::Found, Answer::Found(n)) => column == numbered(n),
        (Priced::Clean { looks }, Answer::Clean(n)) => looks == n,
        (Priced::Spent, Answer::Spent) => true,
        (Priced::Wide(name, wide), Answer::Wide(op, left, right)) => {
            name == 2 && wide == Wide { op, left, right }
        }
        _ => false,
    }
}

/// The first price, counted from 0, that is otherwise.
fn first_wrong_price(cover: &Cover, prices: &[Price]) -> Option<usize> {
    for k in 0..prices.len() {
        if !is_answer(cover, prices[k]) {
            return Some(k);
        }
    }
    None
}

/// The first price of a case, counted from 0, that is otherwise.
fn first_wrong(alloc: Global, case: &Case) -> Result<Option<usize>, Fail> {
    let game = read_game(alloc, case.game.as_bytes())?;
    let cover = cover_of(alloc, &game, 1, case.acts)?.ok_or("no such node")?;
    Ok(first_wrong_price(&cover, case.prices))
}

#[test]
fn prices(rt: HostRuntime) -> Result<(), Fail> {
    assert_eq!(rt; first_wrong(rt.alloc(), &OF_ONE)?, None);
    assert_eq!(rt; first_wrong(rt.alloc(), &MISFITS)?, None);
    assert_eq!(rt; first_wrong(rt.alloc(), &OF_THIEVES)?, None);
    Ok(())
}
