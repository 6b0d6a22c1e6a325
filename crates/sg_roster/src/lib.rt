//! Rosters: which ticket each day has, and the days as rows for people.
//!
//! [`roster`] orders the tickets of a commitment by a seed: the list of their places, each as often as its weight, is
//! shuffled by `rand` over a ChaCha20 generator whose key is the seed. [`put_rows`] writes days as comma-separated
//! values with `csv`:
//!
//! ```text
//! day,p1,p2
//! 1,gate,hall
//! 2,hall,
//! ```
//!
//! Which day comes when is `days_of` in `specs/Days.antt`, what is written `roster_text` in `specs/Rows.antt`. That a
//! roster has each ticket as often as its weight, so that each target is covered on exactly as many days as tickets
//! cover it, and that no field gets quotes, are laws.
#![tactic(auto)]

mod line;
mod order;
mod rows;

pub use order::roster;
pub use rows::{RowsFault, put_rows};
