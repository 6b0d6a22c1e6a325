//! The columns of a point with their weights over 1.

ghost use Rattle.std.specs.Prelude.{◌≡◌, ◌<◌, ◌<ℤ◌, ◌++◌, flat_map, length, map, pos, IfOk, Contains};
ghost use Rattle.std.specs.Option.{option_to_list};
ghost use Rattle.sg_num.specs.Operations.{formed};
ghost use Rattle.sg_rows.specs.Rows.{place};
ghost use Rattle.sg_lp.specs.declared.column.Enter.TheVariants.{Col};
ghost use Rattle.sg_lp.specs.Programs.{IsWithinLimits};
ghost use Rattle.sg_lp.specs.Moves.{entries_of};
ghost use Rattle.sg_lp.specs.States.{IsTableau, member_at, row_at};
ghost use Rattle.sg_programs.specs.Points.{lowest_of, own_product, own_steps, point_rows};
ghost use Rattle.sg_dual.specs.Parts.{FormOr, IsShareOfRow, share_of_row};

use crate::part::PointFault;
use sg_frac::Frac;
use sg_lp::{Column, Enter, Family, State};
use sg_num::Wide;
use sg_rows::dot;
use sqlite_items::Items;
use std::alloc::{AllocError, Global};

/// A column with its weight over 1, in lowest terms.
#[derive(Clone, Copy, Debug, PartialEq, Eq)]
pub struct Share {
    pub(crate) col: Column,
    pub(crate) num: i128,
    pub(crate) den: i128,
}

/// So many zeros.
fn entry_room(alloc: Global, height: usize) -> Result<Vec<i64>, AllocError>
    ensures { IfOk result (λ v. length v.items ≡ height) }
{
    let mut room = Vec::with_capacity(alloc, height)?;
    for _ in 0..height {
        room.push(0)?;
    }
    Ok(room)
}

/// Writes the entries of a column, by row.
fn write_entries<F: Family>(family: &F, col: &Column, entries: &mut [i64])
    requires listed { Contains (F.program family.now).columns col.now }
    requires long { length entries.old ≡ (F.program family.now).height }
    ensures { entries.new ≡ entries_of (F.program family.now) (Col col.now) }
{
    for j in 0..entries.len() {
        entries[j] = family.entry(col, j);
    }
}

/// The first place of a list.
fn first_of(row: &[i128]) -> i128
    requires { 0 < length row.now }
    ensures { result ≡ place row.now 0 }
{
    row[0]
}

/// A column's weight: a quotient of two numbers above 0 in lowest terms.
fn share_of(col: &Column, first: i128, product: i128) -> Share
    requires first { pos 0 <ℤ first }
    requires product { pos 0 <ℤ product }
    ensures col { result.col ≡ col.now }
    ensures num { result.num ≡ (lowest_of first product).num }
    ensures den { result.den ≡ (lowest_of first product).den }
{
    match Frac::of(first, product) {
        Some(weight) => Share {
            col: *col,
            num: weight.num(),
            den: weight.den(),
        },
        None => unreachable!(),
    }
}

/// The product of a row's list with the column of that row.
fn product_of<F: Family>(
    family: &F,
    state: &State,
    col: &Column,
    entries: &mut [i64],
    i: usize,
) -> Result<i128, Wide>
    requires state { IsTableau (F.program family.now) state.now.tableau }
    requires inside { i < (F.program family.now).height }
    requires member { member_at state.now.tableau i ≡ Col col.now }
    requires long { length entries.old ≡ (F.program family.now).height }
    ensures value { result ≡ formed (own_steps (F.program family.now) state.now.tableau i) (own_product (F.program family.now) state.now.tableau i) }
    ensures long { length entries.new ≡ (F.program family.now).height }
{
    write_entries(family, col, entries);
    dot(state.row(i), entries)
}

/// The share of a row whose member is a column.
fn column_share<F: Family>(
    family: &F,
    state: &State,
    col: &Column,
    entries: &mut [i64],
    i: usize,
) -> Result<Option<Share>, Wide>
    requires sized { IsWithinLimits (F.program family.now) }
    requires state { IsTableau (F.program family.now) state.now.tableau }
    requires inside { i < (F.program family.now).height }
    requires member { member_at state.now.tableau i ≡ Col col.now }
    requires long { length entries.old ≡ (F.program family.now).height }
    ensures share { IsShareOfRow (F.program family.now) state.now.tableau i result }
    ensures long { length entries.new ≡ (F.program family.now).height }
{
    let first = first_of(state.row(i));
    if first <= 0 {
        return Ok(None);
    }
    match product_of(family, state, col, entries, i) {
        Ok(product) => Ok(Some(share_of(col, first, product))),
        Err(wide) => Err(wide),
    }
}

/// The share of a row: none where the row isn't one of the point.
fn share_at<F: Family>(
    family: &F,
    state: &State,
    entries: &mut [i64],
    i: usize,
) -> Result<Option<Share>, Wide>
    requires sized { IsWithinLimits (F.program family.now) }
    requires state { IsTableau (F.program family.now) state.now.tableau }
    requires inside { i < (F.program family.now).height }
    requires long { length entries.old ≡ (F.program family.now).height }
    ensures share { IsShareOfRow (F.program family.now) state.now.tableau i result }
    ensures long { length entries.new ≡ (F.program family.now).height }
{
    let basis = state.basis();
    match &basis[i] {
        Enter::Slack(_) => Ok(None),
        Enter::Col(col) => column_share(family, state, col, entries, i),
    }
}

/// One more, where there is one.
fn put(shares: &mut Items<Share>, share: Option<Share>) -> Result<(), AllocError>
    ensures { IfOk result (λ _. shares.new ≡ shares.old ++ option_to_list share) }
{
    match share {
        Some(share) => shares.push(share),
        None => Ok(()),
    }
}

/// The shares of the point's columns, by rising row, with room for a column's entries; or the first operation of their products that doesn't fit.
fn shares_in<F: Family>(
    alloc: Global,
    family: &F,
    state: &State,
    entries: &mut [i64],
) -> Result<Items<Share>, PointFault>
    requires sized { IsWithinLimits (F.program family.now) }
    requires state { IsTableau (F.program family.now) state.now.tableau }
    requires long { length entries.old ≡ (F.program family.now).height }
    ensures { FormOr (flat_map (own_steps (F.program family.now) state.now.tableau) (point_rows (F.program family.now) state.now.tableau)) (λ shares. shares ≡ map (share_of_row (F.program family.now) state.now.tableau) (point_rows (F.program family.now) state.now.tableau)) result }
{
    let mut shares = Items::new(alloc);
    for i in 0..entries.len() {
        let share = match share_at(family, state, entries, i) {
            Ok(share) => share,
            Err(wide) => return Err(PointFault::Wide(wide)),
        };
        match put(&mut shares, share) {
            Ok(()) => {}
            Err(_) => return Err(PointFault::Memory),
        }
    }
    Ok(shares)
}

/// The same, with room of its own.
pub(crate) fn shares<F: Family>(
    alloc: Global,
    family: &F,
    state: &State,
) -> Result<Items<Share>, PointFault>
    requires sized { IsWithinLimits (F.program family.now) }
    requires state { IsTableau (F.program family.now) state.now.tableau }
    ensures { FormOr (flat_map (own_steps (F.program family.now) state.now.tableau) (point_rows (F.program family.now) state.now.tableau)) (λ shares. shares ≡ map (share_of_row (F.program family.now) state.now.tableau) (point_rows (F.program family.now) state.now.tableau)) result }
{
    let height = state.basis().len();
    match entry_room(alloc, height) {
        Ok(mut entries) => shares_in(alloc, family, state, entries.as_mut_slice()),
        Err(_) => Err(PointFault::Memory),
    }
}
