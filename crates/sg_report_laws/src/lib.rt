//! Laws that join the definitions of several crates.
//!
//! The functions have empty bodies: the contract of each is a statement of a module of `specs/`.
#![tactic(auto)]

mod fault_laws;
mod order_laws;
mod part_laws;
mod stop_laws;

pub use fault_laws::{
    early_end, fault_of_its_line, fault_stays, lines_before, nothing_behind, other_first_line,
};
pub use order_laws::{lines_are_worked, lines_in_order};
pub use part_laws::part_faults_say;
pub use stop_laws::{cap_rows_spell, rows_are_lines, stop_lines};
