//! The places of tickets, and their order by a seed. The orders are those of `tools/roster_order.py`.

use crate::shares::{Shares, commitment};
use sg_commit::Commitment;
use sg_roster::roster;
use sg_tickets::{LongFault, days_cover_as_tickets, expand, places_are_listed};
use std::alloc::Global;
use std::test::Fail;

/// Tickets, a seed, and the place of each day's ticket.
struct Case(Shares, u64, &'static [u32]);

const ONE: Shares = &[(1, &[1])];

const THREE: Shares = &[(1, &[1]), (1, &[2]), (1, &[3])];

const FIVE: Shares = &[(5, &[1]), (4, &[2]), (3, &[3]), (2, &[4]), (1, &[5])];

const FORTY: Shares = &[(10, &[1]), (9, &[2]), (8, &[3]), (7, &[4]), (6, &[5])];

/// More than a million tickets.
const LONG: Shares = &[(500_001, &[1]), (500_000, &[2])];

/// A million tickets.
const LONGEST: Shares = &[(300_001, &[1]), (699_999, &[2])];

/// More tickets than 64 bits count.
const HUGE: Shares = &[(36_893_488_147_419_103_233, &[1]), (2, &[2])];

/// Few tickets, with the least and the greatest seed.
fn few() -> &'static [Case] {
    const CASES: &'static [Case] = &[
        Case(ONE, 0, &[0]),
        Case(ONE, u64::MAX, &[0]),
        Case(THREE, 1, &[1, 2, 0]),
        Case(THREE, 7, &[0, 2, 1]),
        Case(&[(2, &[1]), (1, &[2])], 0, &[0, 1, 0]),
    ];
    CASES
}

/// Tickets past the first draw, which serves twelve of them.
fn many() -> &'static [Case] {
    const CASES: &'static [Case] = &[
        Case(FIVE, 0, &[1, 2, 0, 0, 0, 1, 2, 1, 2, 0, 3, 3, 4, 0, 1]),
        Case(FIVE, 12_345, &[3, 0, 2, 0, 1, 0, 4, 1, 1, 2, 1, 3, 2, 0, 0]),
        Case(
            FIVE,
            4_294_967_296,
            &[1, 1, 0, 1, 3, 2, 0, 3, 4, 0, 0, 1, 0, 2, 2],
        ),
        Case(
            FIVE,
            u64::MAX,
            &[2, 0, 3, 0, 1, 2, 2, 1, 1, 0, 0, 3, 4, 1, 0],
        ),
        Case(
            FORTY,
            2026,
            &[
                2, 1, 3, 1, 0, 1, 0, 4, 1, 1, 0, 1, 4, 2, 3, 2, 3, 1, 2, 0, 1, 0, 3, 0, 2, 0, 4, 2,
                0, 3, 2, 3, 4, 1, 3, 2, 0, 4, 4, 0,
            ],
        ),
    ];
    CASES
}

/// Whether the tickets have this order.
fn is_ordered(alloc: Global, case: &Case) -> Result<bool, Fail> {
    let Case(shares, seed, wanted) = case;
    let k = commitment(alloc, shares)?;
    match roster(alloc, &k, *seed) {
        Ok(days) => Ok(days.as_slice() == *wanted),
        Err(_) => Ok(false),
    }
}

/// Whether all do.
fn are_ordered(alloc: Global, cases: &[Case]) -> Result<bool, Fail> {
    for case in cases {
        if !is_ordered(alloc, case)? {
            return Ok(false);
        }
    }
    Ok(true)
}

#[test]
fn days_have_the_order_of_their_seed(rt: HostRuntime) -> Result<(), Fail> {
    for cases in [few(), many()] {
        assert!(rt; are_ordered(rt.alloc(), cases)?);
    }
    Ok(())
}

/// Whether the places of the tickets are these.
fn has_places(alloc: Global, shares: Shares, wanted: &[u32]) -> Result<bool, Fail> {
    let k = commitment(alloc, shares)?;
    match expand(alloc, &k) {
        Ok(places) => Ok(places.as_slice() == wanted),
        Err(_) => Ok(false),
    }
}

#[test]
fn places_stand_as_often_as_they_weigh(rt: HostRuntime) -> Result<(), Fail> {
    let alloc = rt.alloc();
    places_are_listed();
    days_cover_as_tickets();
    assert!(rt; has_places(alloc, ONE, &[0])?);
    assert!(rt; has_places(alloc, FIVE, &[0, 0, 0, 0, 0, 1, 1, 1, 1, 2, 2, 2, 3, 3, 4])?);
    Ok(())
}

/// Whether neither the places nor an order are given for tickets that are so many.
fn are_too_many(alloc: Global, shares: Shares, total: i128) -> Result<bool, Fail> {
    let k = commitment(alloc, shares)?;
    Ok(
        expand(alloc, &k).err() == Some(LongFault::TooLong(total))
            && roster(alloc, &k, 7).err() == Some(LongFault::TooLong(total)),
    )
}

/// How often the number stands in the list.
fn occurrences(list: &[u32], number: u32) -> usize {
    list.iter().filter(|other| **other == number).count()
}

/// Whether a million tickets have an order with these first days.
fn begins_so(alloc: Global, k: &Commitment, wanted: &[u32]) -> bool {
    match roster(alloc, k, 7) {
        Ok(days) => {
            days.len() == 1_000_000
                && days.as_slice().starts_with(wanted)
                && occurrences(days.as_slice(), 0) == 300_001
        }
        Err(_) => false,
    }
}

#[test]
fn a_million_days_are_the_most(rt: HostRuntime) -> Result<(), Fail> {
    let alloc = rt.alloc();
    let k = commitment(alloc, LONGEST)?;
    assert!(rt;
        begins_so(
            alloc,
            &k,
            &[0, 0, 1, 0, 0, 1, 1, 1, 0, 1, 1, 1, 1, 0, 1, 1, 1, 1, 1, 1]
        )
    );
    assert!(rt; are_too_many(alloc, LONG, 1_000_001)?);
    assert!(rt; are_too_many(alloc, HUGE, 36_893_488_147_419_103_235)?);
    Ok(())
}
