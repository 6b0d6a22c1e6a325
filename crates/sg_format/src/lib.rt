//! Which bytes are a game file, and of which game.
//!
//! The definition stands in `specs/`: `GameFiles` has the whole, and the other modules its steps. A file is a TOML
//! document as the crate `toml` reads it; everything after that is said here. `Parts` has the same rules as a table, part by
//! part, and the laws of `part_laws` say that a document that breaks one of them is refused for it at its place.
#![tactic(auto)]

mod laws;
mod part_laws;

pub use laws::{
    accepted_is_game, faulty_list_is_refused, not_toml_is_refused, other_version_is_refused,
    worked_texts,
};
pub use part_laws::{
    bad_scale_is_refused, empty_part_is_refused, head_is_refused, long_part_is_refused,
    long_program_is_refused, missing_field_is_refused, out_of_range_is_refused,
    repeated_name_is_refused, single_change_agrees, unknown_field_is_refused,
    unknown_name_is_refused, worked_faults, wrong_kind_is_refused,
};
