//! The work on the nodes of a search, by programs over the listed plays of a game, several at once.
//!
//! A [`Desk`] has a pool of rows, made once for all lanes, and in each lane nothing or a node's program, with what its run ended by. It does what
//! `sg_work` asks of any work: a lane takes a node, its program makes moves until it ends, what it came to is told, and the lane is freed.
//!
//! ```text
//! let mut desk = Desk::new(alloc, &game, 2, pivots, looks)?;
//! desk.start(alloc, 1, &fix)?;
//! while desk.step(1) == Step::Moved {}
//! let ended = desk.finish(alloc, 1)?;   // a fact and a commitment that close the node, or the cause that stops it
//! desk.clear(1);
//! ```
//!
//! What a desk is seen as and keeps stands in `specs/Desks.antt`; when a node's run ends, what closes a node and what stops it is said by
//! `sg_programs`. Only `start` and `finish` take memory.
#![tactic(auto)]

mod bounding;
mod committing;
mod desk;
mod finishing;
mod marking;
mod measures;
mod run;
mod sizing;
mod spans;
mod working;

pub use desk::Desk;
