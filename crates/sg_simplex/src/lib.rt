//! The exact lexicographic simplex method over a family of columns, in rows of a pool.
//!
//! A [`Node`] stands at a state of the one run of its family's program: [`Node::start`] takes its rows from a pool and stands at the slacks,
//! [`Node::turn`] makes the next move in place, or tells why there is none and leaves the state as it was, and [`Node::close`] gives the rows
//! back. Only `start` takes memory.
//!
//! ```
//! let mut node = Node::start(alloc, family, 100, 1000, &mut pool)?;
//! while node.turn() == Turn::Moved {}
//! node.state().multipliers();   // at `Done` the prices of the rows
//! node.close(&mut pool);
//! ```
//!
//! The method enters the slack of the least row with a multiplier below 0, else the first column that its family's pricing finds, and lets that
//! row leave whose list over its product is least in the order of lists (Dantzig, Orden and Wolfe 1955, on whole numbers as in Edmonds 1967),
//! so no basis comes twice. What a turn answers stands in `specs/Turns.antt`, what a state, a move and a run are in `sg_lp`.
#![tactic(auto)]

mod choosing;
mod entering;
mod fitting;
mod laws;
mod leaving;
mod node;
mod trying;
mod turn;
mod turning;

pub use laws::cause_is_one;
pub use node::Node;
pub use turn::Turn;
