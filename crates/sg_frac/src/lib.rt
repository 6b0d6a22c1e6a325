//! Fractions of whole numbers of 128 bits, in lowest terms, exact or refused.
//!
//! ```
//! let half = Frac::of(2, 4)?;            // 1/2: num() is 1 and den() is 2
//! let third = Frac::of(-1, -3)?;         // 1/3; Frac::of(1, 0) is None
//! half.add(third)                        // Ok, 5/6
//! half.div(third)                        // Ok, 3/2
//! half.compare(third)                    // Ordering::Greater
//! half.ceil()                            // 1
//! half.text(alloc)                       // Ok, "1/2"
//! ```
//!
//! A sum, a difference, a product or a quotient is the exact one, or tells by a `Wide` the first of
//! the operations it is formed by that does not fit an `i128`. [`Frac::compare`], [`Frac::floor`]
//! and [`Frac::ceil`] are exact for every fraction. [`quotient_order`] is the same order of two quotients
//! that need not be in lowest terms. Only [`Frac::text`] takes memory, and only
//! [`Frac::div`] asks something of its caller, that the divisor is not 0.
//!
//! The meaning of each call stands in `specs/`: `Fractions` says what the reduced form of a fraction
//! is, and its text; `Arithmetic` what a sum, a difference, a product and a quotient are, and which
//! operations they are formed by, in order; `Order` how fractions stand to one another, and what a
//! floor and a ceiling are. The laws that tie these together are the contracts of functions that do
//! nothing.
#![tactic(auto)]

mod arithmetic;
mod frac;
mod laws;
mod order;

pub use frac::Frac;
pub use laws::{
    operations_are_undone, order_is_of_difference, order_is_total, reduced_form_is_unique,
    whole_numbers_are_closest,
};
pub use order::quotient_order;
