//! Facts: multipliers that bound what the defender can get in a region.

ghost use Rattle.std.specs.Prelude.{◌≡◌, IfOk};

use sg_frac::Frac;
use sg_model::Level;
use sqlite_items::Items;
use std::alloc::{AllocError, Global};

/// The multiplier of one comparison of two actions of a type.
#[derive(Clone, Copy, Debug, PartialEq, Eq)]
pub struct Mark {
    /// The type, from 1.
    pub l: u8,
    /// The action that the fixed one is compared with, from 1.
    pub a: u16,
    /// The multiplier.
    pub v: i128,
}

/// The multiplier of one row of the coverage table.
#[derive(Clone, Copy, Debug, PartialEq, Eq)]
pub struct Line {
    /// The number of the row.
    pub row: u32,
    /// The multiplier.
    pub v: i128,
}

/// What shows a bound. A `Plays` or `Cover` fact with `mu = 0` shows that the region is empty.
#[derive(Drop)]
pub enum Fact {
    /// Over all legal plays, `rho` times the cost less the marked comparisons is at most `mu`.
    Plays {
        rho: i128,
        mu: i128,
        marks: Items<Mark>,
    },
    /// The same over the columns of the coverage table.
    Cover {
        rho: i128,
        mu: i128,
        lines: Items<Line>,
    },
    /// No commitment holds the attacker below this level.
    Water {
        level: Frac,
        reason: Level,
    },
}

impl Fact {
    /// An equal fact.
    pub fn copy(&self, alloc: Global) -> Result<Fact, AllocError>
        ensures { IfOk result (λ fact. fact ≡ self.now) }
    {
        match self {
            Fact::Plays { rho, mu, marks } => Ok(Fact::Plays {
                rho: *rho,
                mu: *mu,
                marks: Items::from_slice(alloc, marks.as_slice())?,
            }),
            Fact::Cover { rho, mu, lines } => Ok(Fact::Cover {
                rho: *rho,
                mu: *mu,
                lines: Items::from_slice(alloc, lines.as_slice())?,
            }),
            Fact::Water { level, reason } => Ok(Fact::Water {
                level: *level,
                reason: *reason,
            }),
        }
    }
}
