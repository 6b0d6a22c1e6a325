//! Runs of a node on a table, turn by turn.
ghost use Rattle.std.specs.Prelude.{◌≡◌, ◌≤◌, IfOk, IfSome};

use crate::Table;
use sg_lp::{Column, Enter};
use sg_simplex::{Node, Turn};
use std::alloc::{AllocError, Global};

/// The columns of a program, each a cost and an entry for each row.
pub type Columns = &'static [(i64, &'static [i64])];

/// A member of a basis: the slack of a row, or a column, both numbered from 0.
#[derive(Clone, Copy)]
pub enum Member {
    Slack(u16),
    Column(u16),
}

/// What a turn answers, and the state behind it: the members by row, their lists, the multipliers, their denominator.
#[derive(Clone, Copy)]
pub struct Stand {
    pub turn: Turn,
    pub basis: &'static [Member],
    pub rows: &'static [&'static [i128]],
    pub y: &'static [i128],
    pub rho: i128,
}

/// A number of rows that a program may have.
pub fn rows_of(height: usize) -> Option<usize>
    ensures { IfSome result (λ h. (h ≡ height) × (1 ≤ h) × (h ≤ 1536)) }
{
    if height == 0 || height > 1536 {
        None
    } else {
        Some(height)
    }
}

/// The table of some columns; none where one of them isn't a column of a table.
pub fn table_of(
    alloc: Global,
    height: usize,
    columns: &[(i64, &[i64])],
) -> Result<Option<Table>, AllocError>
    requires some { 1 ≤ height }
    requires few { height ≤ 1536 }
    ensures { IfOk result (λ table. IfSome table (λ t. t.height ≡ height)) }
{
    let mut table = Table::new(alloc, height);
    for (cost, entries) in columns {
        match table.with(alloc, *cost, entries)? {
            Some(longer) => table = longer,
            None => return Ok(None),
        }
    }
    Ok(Some(table))
}

/// Whether that is the member.
fn is_member(member: &Enter, want: Member) -> bool {
    match (member, want) {
        (Enter::Slack(i), Member::Slack(k)) => *i == k,
        (Enter::Col(column), Member::Column(k)) => {
            let mut code = [0u16; 32];
            code[0] = k;
            *column == Column { len: 1, code }
        }
        _ => false,
    }
}

/// Whether these are the members.
fn are_members(basis: &[Enter], want: &[Member]) -> bool {
    if basis.len() != want.len() {
        return false;
    }
    for i in 0..basis.len() {
        if !is_member(&basis[i], want[i]) {
            return false;
        }
    }
    true
}

/// Whether that is the list of a row.
fn is_row(node: &Node<Table>, i: usize, want: &[i128]) -> bool {
    let state = node.state();
    if i >= state.basis().len() {
        return false;
    }
    state.row(i) == want
}

/// Whether these are the lists.
fn are_rows(node: &Node<Table>, want: &[&[i128]]) -> bool {
    for i in 0..want.len() {
        if !is_row(node, i, want[i]) {
            return false;
        }
    }
    want.len() == node.state().basis().len()
}

/// Whether the node stands there.
fn stands_at(node: &Node<Table>, stand: &Stand) -> bool {
    let state = node.state();
    are_members(state.basis(), stand.basis)
        && are_rows(node, stand.rows)
        && state.multipliers() == stand.y
        && state.rho() == stand.rho
}

/// The first turn, counted from 0, that answers otherwise or leaves another state.
pub fn first_wrong_turn(node: &mut Node<Table>, stands: &[Stand]) -> Option<usize>
    ensures width { node.new.width ≡ node.old.width }
    ensures family { node.new.family ≡ node.old.family }
{
    for k in 0..stands.len() {
        let turn = node.turn();
        if turn != stands[k].turn {
            return Some(k);
        }
        if !stands_at(node, &stands[k]) {
            return Some(k);
        }
    }
    None
}

/// How many moves a node makes, at most a thousand, and what it answers then.
pub fn end_of(node: &mut Node<Table>) -> (u64, Turn)
    ensures width { node.new.width ≡ node.old.width }
    ensures family { node.new.family ≡ node.old.family }
{
    for k in 0..1000u64 {
        let turn = node.turn();
        if turn != Turn::Moved {
            return (k, turn);
        }
    }
    (1000, Turn::Moved)
}
