//! Counts whose tickets were worked out by hand, or by a script that asks at each single moment who stands where.
ghost use Rattle.std.specs.Prelude.{◌≡◌, ◌≤◌, All, IfSome, IsTrue, pos, ◌+ℤ◌, ◌*ℤ◌, ◌≤ℤ◌};
ghost use Rattle.sg_model.specs.Limits.{IsWithin};
ghost use Rattle.sg_model.specs.Sums.{total};
ghost use Rattle.sg_split.specs.Laying.{AreCounts};

use crate::cases::{Wanted, are_met};
use crate::games::{PAY, Shares, has_tickets, numbered, patrolled};
use sg_commit::Commitment;
use sg_game::{Game, Kind};
use sg_model::Ticket;
use sg_split::wrap;
use std::alloc::Global;
use std::test::Fail;

/// What is left of the patrols: so many that are idle in all the tickets, and one more in so many tickets.
#[derive(Drop)]
struct Room {
    patrols: u16,
    tickets: i128,
}

/// What a count out of so many tickets leaves.
fn left(room: &Room, count: i128, tickets: i128) -> Option<Room>
    requires count { IsWithin (pos 0) tickets count }
    requires room { IsWithin (pos 0) tickets room.now.tickets }
    ensures left { IfSome result (λ x. (pos x.patrols *ℤ tickets +ℤ x.tickets) +ℤ count ≡ pos room.now.patrols *ℤ tickets +ℤ room.now.tickets) }
    ensures room { IfSome result (λ x. IsWithin (pos 0) tickets x.tickets) }
{
    if count <= room.tickets {
        return Some(Room {
            patrols: room.patrols,
            tickets: room.tickets - count,
        });
    }
    match room.patrols {
        0 => None,
        patrols => Some(Room {
            patrols: patrols - 1,
            tickets: tickets - (count - room.tickets),
        }),
    }
}

/// Whether so many patrols can cover counts in so many tickets.
fn have_room(counts: &[i128], patrols: u16, tickets: i128) -> bool
    requires positive { pos 1 ≤ℤ tickets }
    requires within { All (IsWithin (pos 0) tickets) counts.now }
    ensures { IsTrue result → total (λ count. count) counts.now ≤ℤ (pos patrols *ℤ tickets) }
{
    let mut room = Room {
        patrols,
        tickets: 0,
    };
    for count in counts {
        match left(&room, *count, tickets) {
            Some(next) => room = next,
            None => return false,
        }
    }
    true
}

/// Whether a count is from 0 to the tickets.
fn is_within(count: i128, tickets: i128) -> bool
    ensures { IsTrue result → IsWithin (pos 0) tickets count }
{
    count >= 0 && count <= tickets
}

/// Whether each count is from 0 to the tickets.
fn are_within(counts: &[i128], tickets: i128) -> bool
    ensures { IsTrue result → All (IsWithin (pos 0) tickets) counts.now }
{
    counts.iter().all(|count| is_within(*count, tickets))
}

/// Whether the patrols of a game can cover each target in its count out of so many tickets.
fn can_cover(game: &Game, counts: &[i128], tickets: i128) -> bool
    ensures { IsTrue result → AreCounts game.now counts.now tickets }
{
    let patrols = game.resources();
    if game.kind() != Kind::Security || game.patrols() != Some(patrols) {
        return false;
    }
    if tickets < 1 || counts.len() != game.targets() as usize || !are_within(counts, tickets) {
        return false;
    }
    have_room(counts, patrols, tickets)
}

/// The commitment of counts that can be covered.
fn wrapped(alloc: Global, game: &Game, counts: &[i128], tickets: i128) -> Option<Commitment> {
    if can_cover(game, counts, tickets) {
        wrap(alloc, game, counts, tickets).ok()
    } else {
        None
    }
}

/// A game of so many patrols and targets that all pay the same.
fn even_game(alloc: Global, patrols: i64, targets: usize) -> Result<Game, Fail> {
    let goals = numbered(alloc, targets)?;
    let payoffs = vec![in alloc; PAY; targets]?;
    patrolled(alloc, 1, patrols, goals, payoffs.as_slice())
}

/// Counts out of a total, and the tickets that are wanted, in rising order of the plays.
#[derive(Drop)]
struct Case {
    patrols: i64,
    counts: &'static [i128],
    total: i128,
    tickets: Shares,
}

/// Counts of few targets.
fn worked() -> &'static [Case] {
    const CASES: &'static [Case] = &[
        Case {
            patrols: 1,
            counts: &[2, 1],
            total: 3,
            tickets: &[(2, &[1]), (1, &[2])],
        },
        Case {
            patrols: 2,
            counts: &[2, 2, 2],
            total: 3,
            tickets: &[(1, &[1, 2]), (1, &[1, 3]), (1, &[2, 3])],
        },
        Case {
            patrols: 3,
            counts: &[3, 4],
            total: 4,
            tickets: &[(3, &[1, 2, 0]), (1, &[2, 0, 0])],
        },
        Case {
            patrols: 2,
            counts: &[3, 3, 1],
            total: 4,
            tickets: &[(2, &[1, 2]), (1, &[1, 3]), (1, &[2, 0])],
        },
    ];
    CASES
}

/// Counts that end within a patrol, and idle patrols.
fn cut() -> &'static [Case] {
    const CASES: &'static [Case] = &[
        Case {
            patrols: 2,
            counts: &[1, 4, 1],
            total: 4,
            tickets: &[(1, &[1, 2]), (2, &[2, 0]), (1, &[2, 3])],
        },
        Case {
            patrols: 2,
            counts: &[0, 5, 0, 5, 0],
            total: 5,
            tickets: &[(1, &[2, 4])],
        },
        Case {
            patrols: 1,
            counts: &[0, 2, 0, 1],
            total: 3,
            tickets: &[(2, &[2]), (1, &[4])],
        },
        Case {
            patrols: 0,
            counts: &[0, 0],
            total: 7,
            tickets: &[(1, &[])],
        },
    ];
    CASES
}

/// More patrols than are needed.
fn idle() -> &'static [Case] {
    const CASES: &'static [Case] = &[
        Case {
            patrols: 5,
            counts: &[1, 1],
            total: 2,
            tickets: &[(1, &[1, 0, 0, 0, 0]), (1, &[2, 0, 0, 0, 0])],
        },
        Case {
            patrols: 1,
            counts: &[4, 2],
            total: 6,
            tickets: &[(2, &[1]), (1, &[2])],
        },
        Case {
            patrols: 2,
            counts: &[0, 0, 0],
            total: 3,
            tickets: &[(1, &[0, 0])],
        },
        Case {
            patrols: 1,
            counts: &[1],
            total: 5,
            tickets: &[(4, &[0]), (1, &[1])],
        },
    ];
    CASES
}

/// The counts of a filling.
fn filled() -> &'static [Case] {
    const CASES: &'static [Case] = &[Case {
        patrols: 3,
        counts: &[103, 79, 110, 62, 57, 21, 0, 0],
        total: 144,
        tickets: &[
            (4, &[1, 2, 3]),
            (34, &[1, 2, 4]),
            (28, &[1, 3, 4]),
            (37, &[1, 3, 5]),
            (20, &[2, 3, 5]),
            (21, &[2, 3, 6]),
        ],
    }];
    CASES
}

/// Ends that 128 bits can't hold.
fn great_totals() -> &'static [Case] {
    const CASES: &'static [Case] = &[
        Case {
            patrols: 3,
            counts: &[1 << 126, (1 << 126) - 1, 2],
            total: 1 << 126,
            tickets: &[
                ((1 << 126) - 2, &[1, 2, 0]),
                (1, &[1, 2, 3]),
                (1, &[1, 3, 0]),
            ],
        },
        Case {
            patrols: 3,
            counts: &[i128::MAX, i128::MAX, i128::MAX - 1],
            total: i128::MAX,
            tickets: &[(1, &[1, 2, 0]), (i128::MAX - 1, &[1, 2, 3])],
        },
        Case {
            patrols: 1,
            counts: &[i128::MAX - 1, 1],
            total: i128::MAX,
            tickets: &[(i128::MAX - 1, &[1]), (1, &[2])],
        },
    ];
    CASES
}

impl Wanted for Case {
    /// Whether the tickets of a case are those that are wanted.
    fn is_met(&self, alloc: Global) -> Result<bool, Fail> {
        let game = even_game(alloc, self.patrols, self.counts.len())?;
        Ok(match wrapped(alloc, &game, self.counts, self.total) {
            Some(k) => has_tickets(k.tickets(), self.tickets),
            None => false,
        })
    }
}

#[test]
fn worked_counts_are_wrapped(rt: HostRuntime) -> Result<(), Fail> {
    for cases in [worked(), cut(), idle(), filled(), great_totals()] {
        assert!(rt; are_met(rt.alloc(), cases)?);
    }
    Ok(())
}

/// Where a patrol, counted from 0, stands in the ticket at a place, if each of 201 targets has 200 parts of 201: the line
/// has 201 parts for each patrol, and target `t` has those from `200 * (t - 1)` on.
fn even_choice(patrol: usize, place: usize) -> usize
    requires patrol { patrol ≤ 200 }
    requires place { place ≤ 201 }
{
    (patrol * 201 + place) / 200 + 1
}

/// Whether all patrols stand as they do if all counts are alike, in the ticket at this place.
fn is_even(ticket: &Ticket, place: usize) -> bool
    requires { place ≤ 201 }
{
    if ticket.weight != 1 || ticket.play.code.len() != 200 {
        return false;
    }
    for (patrol, choice) in ticket.play.code.as_slice().iter().enumerate() {
        if *choice as usize != even_choice(patrol, place) {
            return false;
        }
    }
    true
}

/// Whether 200 patrols stand so in 201 tickets.
fn are_even(tickets: &[Ticket]) -> bool {
    if tickets.len() != 201 {
        return false;
    }
    for (place, ticket) in tickets.iter().enumerate() {
        if !is_even(ticket, place) {
            return false;
        }
    }
    true
}

#[test]
fn counts_are_wrapped_evenly_over_the_most_patrols(rt: HostRuntime) -> Result<(), Fail> {
    let counts = [200 << 118; 201];
    let game = even_game(rt.alloc(), 200, counts.len())?;
    let k = wrapped(rt.alloc(), &game, counts.as_slice(), 201 << 118);
    assert!(rt; k.is_some_and(|k| are_even(k.tickets())));
    Ok(())
}
