//! A move tried before anything is written.

ghost use Rattle.std.specs.Prelude.{◌≡◌, length};
ghost use Rattle.sg_lp.specs.Programs.{IsBounded, IsWithinLimits};
ghost use Rattle.sg_lp.specs.States.{IsTableau};
ghost use Rattle.sg_lp.specs.Moves.{IsEntering, entries_of};
ghost use Rattle.sg_simplex.specs.Trying.{FindsLeaving, Tries};

use crate::fitting::{cost_of, gap, multipliers_fit, rows_fit, write_entries, write_products};
use crate::leaving::least_row;
use sg_lp::{Enter, Family, State};
use sg_num::Wide;

/// A value of a move that doesn't fit, by its number and its first operation that doesn't.
#[derive(Drop)]
pub(crate) struct Misfit {
    pub(crate) name: u8,
    pub(crate) wide: Wide,
}

/// A move all of whose values fit: the row that leaves, and the gap of the multipliers.
#[derive(Drop)]
pub(crate) struct Exchange {
    pub(crate) row: usize,
    pub(crate) gap: i128,
}

/// Writes the entries of the member and their products with the lists, and finds the row that leaves.
fn leaving_row<F: Family>(
    family: &F,
    state: &State,
    member: &Enter,
    entries: &mut [i64],
    products: &mut [i128],
) -> Result<usize, Misfit>
    requires bounded { IsBounded (F.program family.now) }
    requires state { IsTableau (F.program family.now) state.now.tableau }
    requires enters { IsEntering (F.program family.now) state.now.tableau member.now }
    requires entries_long { length entries.old ≡ (F.program family.now).height }
    requires products_long { length products.old ≡ (F.program family.now).height }
    ensures found { FindsLeaving (F.program family.now) state.now.tableau member.now products.new result }
    ensures entries { entries.new ≡ entries_of (F.program family.now) member.now }
{
    write_entries(family, member, entries);
    match write_products(state, entries, products) {
        Ok(()) => match least_row(state, products) {
            Some(row) => Ok(row),
            None => unreachable!(),
        },
        Err(wide) => Err(Misfit { name: 2, wide }),
    }
}

/// Tests the values of a move that come behind the products, by the row that leaves.
fn try_lists<F: Family>(
    family: &F,
    state: &State,
    member: &Enter,
    entries: &[i64],
    products: &[i128],
    row: usize,
) -> Result<Exchange, Misfit>
    requires state { IsTableau (F.program family.now) state.now.tableau }
    requires enters { IsEntering (F.program family.now) state.now.tableau member.now }
    requires entries { entries.now ≡ entries_of (F.program family.now) member.now }
    requires leaving { FindsLeaving (F.program family.now) state.now.tableau member.now products.now (Ok row) }
    ensures { Tries (F.program family.now) state.now.tableau member.now products.now result }
{
    if let Err(wide) = rows_fit(state, products, row) {
        return Err(Misfit { name: 3, wide });
    }
    let gap = match gap(
        state.multipliers(),
        state.rho(),
        entries,
        cost_of(family, member),
    ) {
        Ok(gap) => gap,
        Err(wide) => return Err(Misfit { name: 2, wide }),
    };
    match multipliers_fit(state, products, gap, row) {
        Ok(()) => Ok(Exchange { row, gap }),
        Err(wide) => Err(Misfit { name: 3, wide }),
    }
}

/// Forms all values of the move by which a member enters, in their order: the exchange where all fit, else the first that doesn't.
pub(crate) fn try_move<F: Family>(
    family: &F,
    state: &State,
    member: &Enter,
    entries: &mut [i64],
    products: &mut [i128],
) -> Result<Exchange, Misfit>
    requires bounded { IsBounded (F.program family.now) }
    requires state { IsTableau (F.program family.now) state.now.tableau }
    requires enters { IsEntering (F.program family.now) state.now.tableau member.now }
    requires entries_long { length entries.old ≡ (F.program family.now).height }
    requires products_long { length products.old ≡ (F.program family.now).height }
    ensures { Tries (F.program family.now) state.now.tableau member.now products.new result }
{
    match leaving_row(family, state, member, entries, products) {
        Ok(row) => try_lists(family, state, member, entries, products, row),
        Err(misfit) => Err(misfit),
    }
}
