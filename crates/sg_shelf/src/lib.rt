//! The outside of the program: where files are read and text is written.
//!
//! [`Shelf`] and [`Sink`] say what the rest of the program may count on. Each counts its faults, so that an
//! answer of a failure has a cause that a contract can name, and a shelf keeps a log of its reads. [`MemShelf`] and [`MemSink`] stand in memory and
//! tell all that they hold; [`FileShelf`] and [`OutSink`] adapt the files and writers of std, and tell nothing
//! of content.
#![tactic(auto)]

mod faults;
mod file_shelf;
mod laws;
mod log;
mod mem_shelf;
mod mem_sink;
mod opener;
mod out_sink;
mod outlet;
mod shelf;
mod sink;
mod source;

pub use file_shelf::FileShelf;
pub use laws::rises_are_strict;
pub use log::{Outcome, Reading};
pub use mem_shelf::{MemShelf, NamedBytes};
pub use mem_sink::MemSink;
pub use opener::{Opener, PathOpener};
pub use out_sink::OutSink;
pub use shelf::{READ_LIMIT, Shelf, ShelfError};
pub use sink::{Sink, SinkError};
