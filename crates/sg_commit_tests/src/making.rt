//! What is made of parts: tickets in order, joined and in lowest terms, or the first fault.

use crate::cases::{Wanted, are_met};
use crate::games::{HALF, MOST, Shares, commitment, has_tickets, parts};
use sg_commit::{Commitment, PartFault};
use sg_model::{Play, Ticket};
use sg_num::{Op, Wide};
use sqlite_items::Items;
use std::alloc::{AllocError, Global};
use std::test::Fail;

/// Parts, and the tickets and the total that are wanted of them, or their fault.
type Case = (Shares, Result<(Shares, i128), PartFault>);

/// Parts that are joined and divided.
fn joined() -> &'static [Case] {
    const CASES: &'static [Case] = &[
        (
            &[(4, &[2]), (2, &[1]), (6, &[1])],
            Ok((&[(2, &[1]), (1, &[2])], 3)),
        ),
        (
            &[
                (6, &[2, 1]),
                (6, &[1, 1]),
                (2, &[2, 2]),
                (6, &[1, 2]),
                (4, &[2, 2]),
            ],
            Ok((&[(1, &[1, 1]), (1, &[1, 2]), (1, &[2, 1]), (1, &[2, 2])], 4)),
        ),
        // No number divides the parts, and one divides the tickets.
        (
            &[(1, &[1]), (2, &[2]), (3, &[1]), (2, &[2])],
            Ok((&[(1, &[1]), (1, &[2])], 2)),
        ),
        (&[(3, &[2]), (2, &[1])], Ok((&[(2, &[1]), (3, &[2])], 5))),
    ];
    CASES
}

/// A list comes before those that it begins.
fn sorted() -> &'static [Case] {
    const CASES: &'static [Case] = &[
        // A list comes before those that it begins, and 9 before 10.
        (
            &[
                (1, &[10]),
                (2, &[9, 5]),
                (3, &[9]),
                (4, &[9, 1, 7]),
                (5, &[]),
                (6, &[0, 300]),
                (7, &[256]),
                (8, &[255]),
            ],
            Ok((
                &[
                    (5, &[]),
                    (6, &[0, 300]),
                    (3, &[9]),
                    (4, &[9, 1, 7]),
                    (2, &[9, 5]),
                    (1, &[10]),
                    (8, &[255]),
                    (7, &[256]),
                ],
                36,
            )),
        ),
    ];
    CASES
}

/// Great weights.
fn divided() -> &'static [Case] {
    const CASES: &'static [Case] = &[
        // Great weights.
        (&[(MOST, &[4])], Ok((&[(1, &[4])], 1))),
        (
            &[(1, &[2]), (MOST - 1, &[1])],
            Ok((&[(MOST - 1, &[1]), (1, &[2])], MOST)),
        ),
        (
            &[(HALF / 2, &[1]), (HALF, &[2]), (HALF / 4, &[1])],
            Ok((&[(3, &[1]), (4, &[2])], 7)),
        ),
        (&[(HALF, &[1]), (HALF - 1, &[1])], Ok((&[(1, &[1])], 1))),
    ];
    CASES
}

/// Faults in order.
fn first_faults() -> &'static [Case] {
    const CASES: &'static [Case] = &[
        (&[], Err(PartFault::Empty)),
        (&[(0, &[1])], Err(PartFault::NotPositive(0))),
        (
            &[(1, &[1]), (-1, &[2]), (0, &[3]), (i128::MIN, &[4])],
            Err(PartFault::NotPositive(1)),
        ),
        // A weight that comes after a sum that does not fit is told first.
        (
            &[(MOST, &[1]), (1, &[2]), (0, &[3])],
            Err(PartFault::NotPositive(2)),
        ),
    ];
    CASES
}

/// Sums that do not fit.
fn wide() -> &'static [Case] {
    const CASES: &'static [Case] = &[
        // The sums are formed in the given order, and not in that of the plays.
        (
            &[(MOST, &[2]), (1, &[1])],
            Err(PartFault::Wide(Wide {
                op: Op::Sum,
                left: MOST,
                right: 1,
            })),
        ),
        (
            &[(1, &[2]), (MOST, &[1])],
            Err(PartFault::Wide(Wide {
                op: Op::Sum,
                left: 1,
                right: MOST,
            })),
        ),
        // Before equal plays are joined and the weights are divided.
        (
            &[(HALF, &[1]), (HALF, &[1])],
            Err(PartFault::Wide(Wide {
                op: Op::Sum,
                left: HALF,
                right: HALF,
            })),
        ),
        // The first such sum.
        (
            &[(HALF, &[1]), (HALF - 1, &[2]), (3, &[3]), (MOST, &[4])],
            Err(PartFault::Wide(Wide {
                op: Op::Sum,
                left: MOST,
                right: 3,
            })),
        ),
    ];
    CASES
}

/// Whether a commitment has these tickets and this total.
fn is_of(k: &Commitment, tickets: Shares, total: i128) -> bool {
    k.total() == total && has_tickets(k.tickets(), tickets)
}

impl Wanted for Case {
    /// Whether parts give what is wanted, and a copy of it too.
    fn is_met(&self, alloc: Global) -> Result<bool, Fail> {
        let (shares, wanted) = self;
        match (Commitment::of(parts(alloc, shares)?), wanted) {
            (Ok(k), Ok((tickets, total))) => {
                Ok(is_of(&k, tickets, *total) && is_of(&k.copy(alloc)?, tickets, *total))
            }
            (Err(fault), Err(wanted)) => Ok(fault == *wanted),
            _ => Ok(false),
        }
    }
}

#[test]
fn parts_are_sorted_joined_and_divided(rt: HostRuntime) -> Result<(), Fail> {
    for cases in [joined(), sorted(), divided(), first_faults(), wide()] {
        assert!(rt; are_met(rt.alloc(), cases)?);
    }
    Ok(())
}

const RISING: Shares = &[(2, &[1]), (1, &[2])];

/// Whether the rising tickets are kept with a total that is said of them.
fn is_kept(alloc: Global, total: i128) -> Result<bool, Fail> {
    let tickets = commitment(alloc, RISING)?.into_tickets();
    Ok(match Commitment::of_rising(tickets, total) {
        Some(kept) => is_of(&kept, RISING, total),
        None => false,
    })
}

/// Whether one ticket is kept, with a total that is said of it.
fn is_kept_alone(alloc: Global, weight: i128, total: i128) -> Result<bool, AllocError> {
    if weight < 1 {
        return Ok(false);
    }
    let mut tickets = Items::new(alloc);
    let code = Items::from_slice(alloc, &[1])?;
    tickets.push(Ticket {
        play: Play { code },
        weight,
    })?;
    Ok(Commitment::of_rising(tickets, total).is_some())
}

#[test]
fn rising_tickets_are_kept(rt: HostRuntime) -> Result<(), Fail> {
    for total in [3, 2, 4, 6, 0, -3, i128::MIN] {
        assert_eq!(rt; is_kept(rt.alloc(), total)?, total == 3, "{total}");
    }
    for weight in [1, 2, MOST] {
        assert_eq!(rt;
            is_kept_alone(rt.alloc(), weight, weight)?,
            weight == 1,
            "{weight}"
        );
    }
    Ok(())
}
