//! A whole report.

use crate::claim::Claim;
use crate::fact::Fact;
use crate::fix::Fix;
use crate::tree::Tree;
use sg_frac::Frac;
use sg_num::Wide;
use sqlite_items::Items;

/// The most that the defender is said to get against a type.
#[derive(Drop)]
pub struct Cap {
    /// The type, from 1.
    pub l: u8,
    /// The bound, a payoff of the defender.
    pub v: i64,
    /// A fact for each action of the type. No facts make the plain cap, the type's greatest payoff.
    pub proof: Items<Fact>,
}

/// Why the two bounds of a report don't meet.
#[derive(Drop)]
pub enum Cause {
    /// This many nodes were spent.
    Nodes(u64),
    /// A node spent this many pivots.
    Pivots {
        budget: u64,
        fix: Fix,
    },
    /// A node spent this many looks after so many steps.
    Looks {
        budget: u64,
        step: u64,
        fix: Fix,
    },
    /// A value of a node, named by its number, lies outside `i128` after so many steps.
    Wide {
        name: u8,
        wide: Wide,
        step: u64,
        fix: Fix,
    },
}

/// How a report ends.
#[derive(Drop)]
pub enum Ending {
    /// The bounds meet.
    Optimal,
    /// They don't, for this cause.
    Gap(Cause),
}

/// Tickets with their value, and what shows that no commitment has more than the upper bound.
#[derive(Drop)]
pub struct Report {
    /// The tickets.
    pub tickets: Claim,
    /// The defender's value for them.
    pub value: Frac,
    /// The caps of types.
    pub caps: Items<Cap>,
    /// The tree of facts.
    pub tree: Tree,
    /// The bound on all commitments.
    pub upper: Frac,
    /// Whether the bounds meet.
    pub ending: Ending,
}
