//! Laws about the report that the end of a search gives.
//!
//! A search of a game without a scale works nodes by some method, within budgets, and the report of a state that it comes
//! to is read off that state (`specs/Answers.antt`). The functions have empty bodies: the contract of each is a statement
//! of `specs/Laws.antt`.
#![tactic(auto)]

mod examples;
mod laws;

pub use examples::worked_answers;
pub use laws::{answers_are_reports, answers_are_short, answers_are_texts};
