//! The rows of rosters, written by hand.

ghost use Rattle.std.specs.Prelude.{◌<◌, All, IsTrue, length};

use crate::shares::{Shares, commitment};
use sg_commit::{Commitment, are_legal};
use sg_file::read_game;
use sg_game::Game;
use sg_roster::{RowsFault, put_rows};
use sg_shelf::MemSink;
use std::alloc::{AllocError, Global};
use std::test::Fail;

/// A game, tickets, the place of each day's ticket, and the rows that are wanted.
struct Case(&'static str, Shares, &'static [u32], &'static str);

/// Three targets and two patrols.
const TWO_PATROLS: &'static str =
    "version = 1\nform = \"security\"\nscale = 1\npatrols = 2\ntargets = [\"t1\", \"t2\", \"t3\"]\n\n[[type]]\nname = \"thief\"\nprior = 1\npayoffs = [[0, -1, 0, 1], [0, -1, 0, 1], [0, -1, 0, 1]]\n";

/// One target and no patrol.
const NO_PATROL: &'static str =
    "version = 1\nform = \"security\"\nscale = 4\npatrols = 0\ntargets = [\"gate\"]\n\n[[type]]\nname = \"thief\"\nprior = 1\npayoffs = [[2, -2, 0, 4]]\n";

/// Three targets, two schedules of two targets each, and two resources, of which the second has the second schedule alone.
const SCHEDULES: &'static str =
    "version = 1\nform = \"security\"\ntargets = [\"a\", \"b\", \"c\"]\n\n[[schedule]]\nname = \"north\"\ntargets = [\"a\", \"b\"]\n\n[[schedule]]\nname = \"south\"\ntargets = [\"b\", \"c\"]\n\n[[resource]]\nname = \"car\"\nschedules = [\"north\", \"south\"]\n\n[[resource]]\nname = \"boat\"\nschedules = [\"south\"]\n\n[[type]]\nname = \"thief\"\nprior = 1\npayoffs = [[0, -1, 0, 1], [0, -1, 0, 1], [0, -1, 0, 1]]\n";

/// Two rows.
const MATRIX: &'static str =
    "version = 1\nform = \"matrix\"\nrows = [\"A\", \"B\"]\n\n[[type]]\nname = \"thief\"\nprior = 1\nactions = [\"x\", \"y\"]\nleader = [[2, 4], [1, 3]]\nfollower = [[1, 0], [0, 2]]\n";

const PAIRS: Shares = &[(1, &[1, 2]), (1, &[1, 3]), (1, &[2, 3])];

/// Patrols: with all of them out, with idle ones, with none, and with no day.
fn patrols() -> &'static [Case] {
    const CASES: &'static [Case] = &[
        Case(
            TWO_PATROLS,
            PAIRS,
            &[0, 2, 1],
            "day,p1,p2\n1,t1,t2\n2,t2,t3\n3,t1,t3\n",
        ),
        Case(
            TWO_PATROLS,
            &[(1, &[0, 0]), (2, &[0, 3]), (1, &[1, 0])],
            &[2, 1, 0, 1],
            "day,p1,p2\n1,t1,\n2,,t3\n3,,\n4,,t3\n",
        ),
        Case(NO_PATROL, &[(1, &[])], &[0], "day\n1\n"),
        Case(TWO_PATROLS, PAIRS, &[], "day,p1,p2\n"),
    ];
    CASES
}

/// Resources with schedules of their own, and rows of a matrix.
fn others() -> &'static [Case] {
    const CASES: &'static [Case] = &[
        Case(
            SCHEDULES,
            &[(1, &[0, 1]), (1, &[1, 1]), (1, &[2, 0])],
            &[1, 1, 2, 0],
            "day,car,boat\n1,north,south\n2,north,south\n3,south,\n4,,south\n",
        ),
        Case(
            MATRIX,
            &[(2, &[1]), (1, &[2])],
            &[0, 1, 0],
            "day,row\n1,A\n2,B\n3,A\n",
        ),
    ];
    CASES
}

/// An output, of which the put with this number fails after so many bytes.
fn sink(alloc: Global, fails: u64, keep: usize) -> Result<MemSink, AllocError> {
    MemSink::new(alloc, Vec::from_slice(alloc, &[fails])?, keep)
}

/// Whether the ticket at this place is one of so many.
fn is_place(place: u32, count: usize) -> bool
    ensures { IsTrue result → place < count }
{
    (place as usize) < count
}

/// Whether each day has one of the tickets.
fn are_places(k: &Commitment, days: &[u32]) -> bool
    ensures { IsTrue result → All (λ i. i < length k.now.tickets) days.now }
{
    let count = k.tickets().len();
    days.iter().all(|place| is_place(*place, count))
}

/// Puts the rows of legal tickets.
fn put(
    alloc: Global,
    game: &Game,
    k: &Commitment,
    days: &[u32],
    out: &mut MemSink,
) -> Option<Result<(), RowsFault>> {
    if !are_legal(game, k.tickets()) {
        return None;
    }
    if !are_places(k, days) {
        return None;
    }
    Some(put_rows(alloc, game, k, days, out))
}

/// Whether the rows are written so.
fn is_written(alloc: Global, case: &Case) -> Result<bool, Fail> {
    let Case(game, shares, days, wanted) = case;
    let game = read_game(alloc, game.as_bytes())?;
    let k = commitment(alloc, shares)?;
    let mut out = sink(alloc, 0, 0)?;
    let answer = put(alloc, &game, &k, days, &mut out);
    Ok(answer == Some(Ok(())) && out.bytes() == wanted.as_bytes())
}

/// Whether all are.
fn are_written(alloc: Global, cases: &[Case]) -> Result<bool, Fail> {
    for case in cases {
        if !is_written(alloc, case)? {
            return Ok(false);
        }
    }
    Ok(true)
}

#[test]
fn rows_say_who_goes_where(rt: HostRuntime) -> Result<(), Fail> {
    for cases in [patrols(), others()] {
        assert!(rt; are_written(rt.alloc(), cases)?);
    }
    Ok(())
}

/// How many bytes the first rows have, and three bytes of the next.
fn front_of(text: &[u8], rows: u64) -> usize {
    let mut left = rows;
    for i in 0..text.len() {
        if left == 0 {
            return i.saturating_add(3);
        }
        if text[i] == b'\n' {
            left = left.saturating_sub(1);
        }
    }
    text.len()
}

/// Whether the rows before the put with this number, and three bytes of its row, are taken where that put fails.
fn is_cut_short(
    alloc: Global,
    game: &Game,
    k: &Commitment,
    number: u64,
) -> Result<bool, AllocError> {
    let wanted = "day,p1,p2\n1,t1,t2\n2,t2,t3\n3,t1,t3\n".as_bytes();
    let mut out = sink(alloc, number, 3)?;
    let answer = put(alloc, game, k, &[0, 2, 1], &mut out);
    Ok(
        answer == Some(Err(RowsFault::Failed))
            && wanted.starts_with(out.bytes())
            && out.bytes().len() == front_of(wanted, number.saturating_sub(1)),
    )
}

#[test]
fn rows_end_at_a_put_that_fails(rt: HostRuntime) -> Result<(), Fail> {
    let alloc = rt.alloc();
    let game = read_game(alloc, TWO_PATROLS.as_bytes())?;
    let k = commitment(alloc, PAIRS)?;
    for number in [1, 2, 3, 4] {
        assert!(rt; is_cut_short(alloc, &game, &k, number)?, "{number}");
    }
    Ok(())
}

/// Days that have the three tickets in turn.
fn in_turn(alloc: Global, count: u32) -> Result<Vec<u32>, AllocError> {
    let mut days = Vec::new(alloc);
    for day in 0..count {
        days.push(day % 3)?;
    }
    Ok(days)
}

/// Where the patrols go by the ticket at a place.
fn targets_at(place: u32) -> &'static str {
    match place {
        0 => "t1,t2",
        1 => "t1,t3",
        _ => "t2,t3",
    }
}

/// The rows of those days.
fn text_of(alloc: Global, days: &[u32]) -> Result<String, AllocError> {
    let mut text = String::from_str(alloc, "day,p1,p2\n")?;
    let mut number = 0u32;
    for place in days {
        number = number.saturating_add(1);
        let row = format!(in alloc; "{},{}\n", number, targets_at(*place))?;
        text.push_str(&row)?;
    }
    Ok(text)
}

#[test]
fn rows_go_on_past_a_block_of_memory(rt: HostRuntime) -> Result<(), Fail> {
    let alloc = rt.alloc();
    let game = read_game(alloc, TWO_PATROLS.as_bytes())?;
    let k = commitment(alloc, PAIRS)?;
    let days = in_turn(alloc, 20_000)?;
    let wanted = text_of(alloc, days.as_slice())?;
    let mut out = sink(alloc, 0, 0)?;
    let answer = put(alloc, &game, &k, days.as_slice(), &mut out);
    assert!(rt; answer == Some(Ok(())) && out.bytes() == wanted.as_bytes());
    Ok(())
}
