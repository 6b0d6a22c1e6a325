//! From a final state of the simplex method to a certificate and a solution, over any family of columns.
//!
//! [`dual_of`] reads the multipliers of a node that is done, which bound every column; [`point_of`] forms its point, the columns of positive weight
//! with whole weights over one total, which reaches that bound.
//!
//! ```text
//! if node.turn() == Turn::Done {
//!     let dual = dual_of(&node);            // dual.y[0] / dual.rho bounds every solution
//!     if dual.y[0] > 0 {
//!         let parts = point_of(alloc, &node)?;   // and this one reaches it
//!     }
//! }
//! ```
//!
//! `specs/Duality.antt` says what primal and dual solutions are, and weak and strong duality (Gale, Kuhn and Tucker 1951); `specs/Parts.antt`
//! what the parts of a point are. Over plays the multipliers are a fact, and the point is a commitment of the node's region that reaches the
//! fact's bound: the clauses `fact` and `reaches` say so. `dual_of` takes no memory.
#![tactic(auto)]

mod dual;
mod laws;
mod part;
mod point;
mod share;
mod weighing;

pub use dual::{Dual, dual_of};
pub use laws::{point_is_optimal, strong_duality, weak_duality};
pub use part::{Part, PointFault};
pub use point::point_of;
