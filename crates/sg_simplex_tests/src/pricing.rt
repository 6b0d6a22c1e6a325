//! Pricing by testing the columns of a table in turn.

ghost use Rattle.std.specs.Prelude.{◌≡◌, ◌<◌, ◌≤◌, ◌∷◌, [], ℕ, length, slice_index_or, pos, int_lt, ◌*ℤ◌, ◌++◌};
ghost use Rattle.sg_num.specs.Exact.{exact_times};
ghost use Rattle.sg_num.specs.Operations.{times as times_step};
ghost use Rattle.sg_rows.specs.Rows.{dot_from, dot_steps, place};
ghost use Rattle.sg_lp.specs.declared.column.Column.{Column};
ghost use Rattle.sg_lp.specs.Pricing.{Answer, told_of};
ghost use Rattle.sg_lp.specs.Listing.{listing_answer};
ghost use Rattle.sg_simplex_tests.specs.Tables.{numbered_column, table_program};
ghost use Rattle.sg_simplex_tests.specs.Tested.{TestSays};

use sg_lp::{Column, Priced};
use sg_num::{Wide, times};
use sg_rows::dot;
use sqlite_items::Items;

/// What the test of a column says.
pub(crate) enum Test {
    Enters,
    Stays,
    Fails(Wide),
}

/// What a column is worth, over the denominator of the multipliers.
fn worth_of(rho: i128, cost: i64) -> Result<i128, Wide>
    ensures { result ≡ exact_times rho cost }
{
    times(rho, i128::from(cost))
}

/// Whether a column of this cost and these entries enters.
fn test_column(y: &[i128], rho: i128, cost: i64, entries: &[i64]) -> Test
    requires { length y.now ≡ length entries.now }
    ensures { TestSays (times_step rho cost ∷ dot_steps (pos 0) y.now entries.now) (int_lt (dot_from (pos 0) y.now entries.now) (rho *ℤ cost)) result }
{
    let worth = match worth_of(rho, cost) {
        Ok(worth) => worth,
        Err(wide) => return Test::Fails(wide),
    };
    match dot(y, entries) {
        Ok(allowed) => {
            if allowed < worth {
                Test::Enters
            } else {
                Test::Stays
            }
        }
        Err(wide) => Test::Fails(wide),
    }
}

/// The test of the column at a place.
fn test_at(costs: &[i64], entries: &[Items<i64>], i: usize, y: &[i128], rho: i128) -> Test
    requires in_costs { i < length costs.now }
    requires in_entries { i < length entries.now }
    requires long { length y.now ≡ length (slice_index_or entries.now i []) }
    ensures { TestSays (times_step rho (place costs.now i) ∷ dot_steps (pos 0) y.now (slice_index_or entries.now i [])) (int_lt (dot_from (pos 0) y.now (slice_index_or entries.now i [])) (rho *ℤ place costs.now i)) result }
{
    let row = &entries[i];
    test_column(y, rho, costs[i], row.as_slice())
}

/// The column with a number.
fn numbered(k: u16) -> Column
    ensures { result ≡ numbered_column k }
{
    let mut code = [0u16; 32];
    code[0] = k;
    Column { len: 1, code }
}

/// The first column that enters: what testing the columns one after the other answers.
pub(crate) fn price_in(
    costs: &[i64],
    entries: &[Items<i64>],
    y: &[i128],
    rho: i128,
    budget: u64,
    found: &mut Column,
) -> Priced
    requires few { length costs.now ≤ 65535 }
    requires many { length entries.now ≡ length costs.now }
    requires long { (k : ℕ) → k < length costs.now → length y.now ≡ length (slice_index_or entries.now k []) }
    ensures answers { let p = table_program (record { height = length y.now; costs = costs.now; entries = entries.now }) in result ≡ told_of (listing_answer p y.now rho budget 0 p.columns) }
    ensures column { let p = table_program (record { height = length y.now; costs = costs.now; entries = entries.now }) in (c : Column) → listing_answer p y.now rho budget 0 p.columns ≡ Answer.found c → found.new ≡ c }
{
    for i in 0..costs.len() {
        if i as u64 >= budget {
            return Priced::Spent;
        }
        match test_at(costs, entries, i, y, rho) {
            Test::Enters => {
                *found = numbered(i as u16);
                return Priced::Found;
            }
            Test::Stays => {}
            Test::Fails(wide) => return Priced::Wide(2, wide),
        }
    }
    Priced::Clean {
        looks: costs.len() as u64,
    }
}
