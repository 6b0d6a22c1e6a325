//! Spreads the coverage of targets over identical patrols, as plays.
//!
//! [`wrap`] takes how many out of so many tickets are to cover each target, and gives the commitment that does:
//!
//! ```text
//! let commitment = wrap(alloc, &game, &[2, 1], 3)?;
//! commitment.tickets()    // 2 tickets on which the one patrol covers target 1, and 1 on which it covers target 2
//! ```
//!
//! What it promises is `IsWrap` in `specs/Wraps.antt`, under `AreCounts` in `specs/Laying.antt`, where it also stands
//! who is where at each moment. The method is the wrap-around rule of McNaughton (1959): `place` lays the counts end to
//! end along the patrols, `line` tells who stands where at a moment, `laying` goes from cut to cut, and `wrapping` makes a
//! commitment of the tickets.
#![tactic(auto)]

mod laws;
mod laying;
mod line;
mod matching;
mod place;
mod serving;
mod table;
mod targeting;
mod wrapping;

pub use laws::{
    cut_places_are_worked, laid_tickets_are_few, moments_cover_counts, plays_stay_between_cuts,
};
pub use matching::matchings;
pub use table::Table;
pub use wrapping::wrap;
