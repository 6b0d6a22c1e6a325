//! Which row leaves.

ghost use Rattle.std.specs.Prelude.{◌≡◌, ◌↔◌, ℕ, ◌+◌, ◌<◌, length, pos, ◌*ℤ◌, ◌≤ℤ◌, All, IsTrue};
ghost use Rattle.std.specs.Ordering.{int_cmp};
ghost use Rattle.sg_linear.specs.Sums.{LexPositive, combined};
ghost use Rattle.sg_rows.specs.Rows.{place};
ghost use Rattle.sg_simplex.specs.Least.{AreNeverEqual, Below, Least};

use sg_frac::quotient_order;
use sg_lp::State;
use std::cmp::Ordering;

/// How place `j` of list `a` over `p` stands to that of list `b` over `q`.
fn order_at(a: &[i128], p: i128, b: &[i128], q: i128, j: usize) -> Ordering
    requires in_a { j < length a.now }
    requires in_b { j < length b.now }
    requires p_positive { pos 1 ≤ℤ p }
    requires q_positive { pos 1 ≤ℤ q }
    ensures { result ≡ int_cmp (place a.now j *ℤ q) (place b.now j *ℤ p) }
{
    quotient_order(a[j], p, b[j], q)
}

/// Whether list `a` over `p` stands below list `b` over `q`, in the order of lists.
fn is_below(a: &[i128], p: i128, b: &[i128], q: i128) -> bool
    requires long { length a.now ≡ length b.now }
    requires p_positive { pos 1 ≤ℤ p }
    requires q_positive { pos 1 ≤ℤ q }
    ensures { IsTrue result ↔ LexPositive (length a.now) (combined p q (place b.now) (place a.now)) }
{
    for j in 0..a.len() {
        match order_at(a, p, b, q, j) {
            Ordering::Less => return true,
            Ordering::Greater => return false,
            Ordering::Equal => {}
        }
    }
    false
}

/// Whether the list of row `k` over its product stands below that of row `r` over its own.
fn stands_below(state: &State, products: &[i128], k: usize, r: usize) -> bool
    requires in_rows { k < length state.now.tableau.rows }
    requires r_in_rows { r < length state.now.tableau.rows }
    requires square { All (λ row. length row ≡ length state.now.tableau.rows) state.now.tableau.rows }
    requires long { length products.now ≡ length state.now.tableau.rows }
    requires positive { pos 1 ≤ℤ place products.now k }
    requires r_positive { pos 1 ≤ℤ place products.now r }
    ensures { IsTrue result ↔ Below (length state.now.tableau.rows) state.now.tableau.rows products.now k r }
{
    is_below(state.row(k), products[k], state.row(r), products[r])
}

/// The better of the least row so far and row `k`.
fn better(state: &State, products: &[i128], best: Option<usize>, k: usize) -> Option<usize>
    requires in_rows { k < length state.now.tableau.rows }
    requires square { All (λ row. length row ≡ length state.now.tableau.rows) state.now.tableau.rows }
    requires long { length products.now ≡ length state.now.tableau.rows }
    requires apart { AreNeverEqual (length state.now.tableau.rows) state.now.tableau.rows products.now }
    requires best { Least (length state.now.tableau.rows) state.now.tableau.rows products.now k best }
    ensures { Least (length state.now.tableau.rows) state.now.tableau.rows products.now (k + 1) result }
{
    if products[k] <= 0 {
        return best;
    }
    match best {
        None => Some(k),
        Some(r) => {
            if stands_below(state, products, k, r) {
                Some(k)
            } else {
                Some(r)
            }
        }
    }
}

/// Of the rows with a product above 0, the one whose list over it is least; none where no product is above 0.
pub(crate) fn least_row(state: &State, products: &[i128]) -> Option<usize>
    requires square { All (λ row. length row ≡ length state.now.tableau.rows) state.now.tableau.rows }
    requires long { length products.now ≡ length state.now.tableau.rows }
    requires apart { AreNeverEqual (length state.now.tableau.rows) state.now.tableau.rows products.now }
    ensures { Least (length state.now.tableau.rows) state.now.tableau.rows products.now (length state.now.tableau.rows) result }
{
    let mut best = None;
    for k in 0..products.len() {
        best = better(state, products, best, k);
    }
    best
}
