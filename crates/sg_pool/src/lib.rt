//! A pool of rows of whole numbers, made once and handed out and back without memory.
//!
//! A [`Pool`] is seen as its list of free rows, their width, and the number of rows that it was made with. [`Pool::take`] moves the last free
//! row out, and [`Pool::give`] puts one last. A [`Row`] is a value with one owner, so each row is in one place: free, or with whoever took it.
//!
//! ```
//! let mut pool = Pool::new(alloc, 2, 1)?;
//! let row = pool.take();   // Some, a row of two places
//! pool.take();             // None
//! ```
//!
//! What a pool is stands in `specs/Pools.antt`.
#![tactic(auto)]

mod pool;
mod row;

pub use pool::Pool;
pub use row::Row;
